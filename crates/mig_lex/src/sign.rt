//! Signs: one byte, or two dots.
ghost use Rattle.std.specs.Prelude.{◌≡◌, ◌≢◌, ◌⊎◌, ◌↔◌, IsTrue, MatchOption, slice_index};
ghost use Rattle.mig_token.specs.Lexical.{IsLetter};
ghost use Rattle.mig_token.specs.Token.{tok_of};
ghost use Rattle.mig_lex.specs.Reading.{IsDigit, ReadsToken, HasNoToken};

use mig_token::{Mark, Token};

/// Whether two dots stand at the front.
fn begins_with_dots(bytes: &[u8]) -> bool
    ensures { IsTrue result ↔ ((slice_index bytes.now 0 ≡ 46) × (slice_index bytes.now 1 ≡ 46)) }
{
    matches!(bytes, [b'.', b'.', ..])
}

/// The sign at the front and the bytes behind it.
pub(crate) fn sign_at(bytes: &[u8]) -> Option<(Token<'_>, &[u8])>
    requires letter { IsLetter (slice_index bytes.now 0) → ⊥ }
    requires number { IsDigit (slice_index bytes.now 0) ⊎ (slice_index bytes.now 0 ≡ 45) → ⊥ }
    requires string { slice_index bytes.now 0 ≢ 34 }
    ensures { MatchOption result (HasNoToken bytes.now) (λ read. ReadsToken bytes.now (tok_of read.0) read.1.now) }
{
    if begins_with_dots(bytes) {
        return Some((Token::Mark(Mark::Dots), &bytes[2..]));
    }
    match bytes {
        [_, rest @ ..] => match Mark::of_spelling(&bytes[..1]) {
            Some(mark) => Some((Token::Mark(mark), rest)),
            None => None,
        },
        [] => None,
    }
}
