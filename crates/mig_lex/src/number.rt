//! Numbers in decimal.
ghost use Rattle.std.specs.Prelude.{◌≡◌, ℕ, ◌<◌, ◌≤◌, ◌^◌, ◌⊎◌, ◌↔◌, IsTrue, MatchOption, length, slice_index};
ghost use Rattle.std.specs.Str.Parse.{digits_value};
ghost use Rattle.mig_token.specs.Token.{tok_of};
ghost use Rattle.mig_lex.specs.Reading.{IsRun, IsDigit, IsLeadingDigit, ReadsToken, ReadsDecimal, HasNoToken};

use mig_token::Token;

/// How many bytes at the front are digits, of which a number has at most 20.
fn digits_len(bytes: &[u8]) -> usize
    ensures { IsRun IsDigit 20 bytes.now result }
{
    for (i, byte) in bytes.iter().enumerate() {
        if i == 20 || !matches!(*byte, b'0'..=b'9') {
            return i;
        }
    }
    bytes.len()
}

/// The number that the digits write.
fn value_of(digits: &[u8]) -> u128
    requires digits { (k : ℕ) → k < length digits.now → IsDigit (slice_index digits.now k) }
    requires short { length digits.now ≤ 20 }
    ensures value { result ≡ digits_value 10 digits.now }
    ensures small { result < 10 ^ 20 }
{
    let mut value = 0;
    for digit in digits {
        value = value * 10 + u128::from(*digit - b'0');
    }
    value
}

/// The number that the digits at the front write, and the bytes behind it.
fn decimal_at(bytes: &[u8]) -> (u128, &[u8])
    requires { IsLeadingDigit (slice_index bytes.now 0) }
    ensures { ReadsDecimal bytes.now result.0 result.1.now }
{
    let (digits, rest) = bytes.split_at(digits_len(bytes));
    (value_of(digits), rest)
}

/// Whether a digit from 1 to 9 stands at the front.
fn begins_decimal(bytes: &[u8]) -> bool
    ensures { IsTrue result ↔ IsLeadingDigit (slice_index bytes.now 0) }
{
    matches!(bytes, [b'1'..=b'9', ..])
}

/// The number at the front and the bytes behind it. `0` stands alone, and `-` stands before another number than 0.
pub(crate) fn number_at(bytes: &[u8]) -> Option<(Token<'_>, &[u8])>
    requires { IsDigit (slice_index bytes.now 0) ⊎ (slice_index bytes.now 0 ≡ 45) }
    ensures { MatchOption result (HasNoToken bytes.now) (λ read. ReadsToken bytes.now (tok_of read.0) read.1.now) }
{
    match bytes {
        [b'0', rest @ ..] => Some((Token::Number(0), rest)),
        [b'-', digits @ ..] => {
            if !begins_decimal(digits) {
                return None;
            }
            let (number, rest) = decimal_at(digits);
            Some((Token::Number(-(number as i128)), rest))
        }
        _ => {
            let (number, rest) = decimal_at(bytes);
            Some((Token::Number(number as i128), rest))
        }
    }
}
