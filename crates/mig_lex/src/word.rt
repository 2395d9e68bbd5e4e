//! Words: reserved ones, and names.
ghost use Rattle.std.specs.Prelude.{◌↔◌, IsTrue, slice_index};
ghost use Rattle.mig_token.specs.Lexical.{IsLetter, IsWordByte};
ghost use Rattle.mig_token.specs.Token.{tok_of};
ghost use Rattle.mig_lex.specs.Reading.{IsRun, ReadsToken};

use mig_token::{Mark, Token};

/// Whether the byte may stand in a word: a letter `a` to `z`, a digit or `_`.
fn is_word_byte(byte: u8) -> bool
    ensures { IsTrue result ↔ IsWordByte byte }
{
    matches!(byte, b'a'..=b'z' | b'0'..=b'9' | b'_')
}

/// How many bytes at the front may stand in a word, which has at most 64.
fn word_len(bytes: &[u8]) -> usize
    ensures { IsRun IsWordByte 64 bytes.now result }
{
    for (i, byte) in bytes.iter().enumerate() {
        if i == 64 || !is_word_byte(*byte) {
            return i;
        }
    }
    bytes.len()
}

/// The word at the front and the bytes behind it: a reserved word, or else a name.
pub(crate) fn word_at(bytes: &[u8]) -> (Token<'_>, &[u8])
    requires { IsLetter (slice_index bytes.now 0) }
    ensures { ReadsToken bytes.now (tok_of result.0) result.1.now }
{
    let (word, rest) = bytes.split_at(word_len(bytes));
    match Mark::of_spelling(word) {
        Some(mark) => (Token::Mark(mark), rest),
        None => (Token::Name(word), rest),
    }
}
