//! Strings in quotation marks.
ghost use Rattle.std.specs.Prelude.{◌≡◌, ◌≢◌, ℕ, ◌<◌, ◌≤◌, ◌∷◌, ◌↔◌, IsTrue, MatchOption, length, slice_index, IsUtf8};
ghost use Rattle.std.specs.List.{AllByRecursion};
ghost use Rattle.std.specs.Str.{chars};
ghost use Rattle.mig_token.specs.Lexical.{IsStringChar};
ghost use Rattle.mig_token.specs.Token.{tok_of};
ghost use Rattle.mig_lex.specs.Reading.{IsRun, ReadsToken, HasNoToken};

use mig_token::Token;
use std::str;

/// How many bytes stand before the first quotation mark; after 1,024 none is looked for.
fn text_len(bytes: &[u8]) -> usize
    ensures { IsRun (λ b. b ≢ 34) 1024 bytes.now result }
{
    for (i, byte) in bytes.iter().enumerate() {
        if i == 1024 || *byte == b'"' {
            return i;
        }
    }
    bytes.len()
}

/// Whether the character may stand in a string: from U+0020 to U+FFFF, but no quotation mark and no `;`.
fn is_string_char(character: char) -> bool
    ensures { IsTrue result ↔ IsStringChar character }
{
    matches!(character, ' '..='\u{ffff}') && character != '"' && character != ';'
}

/// Whether the bytes are UTF-8 and each character may stand in a string.
fn is_text(bytes: &[u8]) -> bool
    ensures { IsTrue result ↔ (IsUtf8 bytes.now × AllByRecursion IsStringChar (chars bytes.now)) }
{
    match str::from_utf8(bytes) {
        Ok(text) => text.chars().all(|character| is_string_char(character)),
        Err(_) => false,
    }
}

/// The string whose first quotation mark stands before these bytes, and the bytes behind it.
pub(crate) fn string_at(bytes: &[u8]) -> Option<(Token<'_>, &[u8])>
    ensures { MatchOption result (HasNoToken (34 ∷ bytes.now))
        (λ read. ReadsToken (34 ∷ bytes.now) (tok_of read.0) read.1.now) }
{
    let (text, rest) = bytes.split_at(text_len(bytes));
    match rest {
        [b'"', rest @ ..] if is_text(text) => Some((Token::Text(text), rest)),
        _ => None,
    }
}
