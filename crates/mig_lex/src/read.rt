//! The tokens of a declaration.
ghost use Rattle.std.specs.Prelude.{◌≡◌, List, IfOk, MatchOption};
ghost use Rattle.mig_token.specs.Token.{Tok, tok_of, toks};
ghost use Rattle.mig_token.specs.Lexical.{AreTokens};
ghost use Rattle.mig_lex.specs.Reading.{ReadsToken, HasNoToken};
ghost use Rattle.mig_lex.specs.Law.{OneReading};

use crate::fault::LexFault;
use crate::number::number_at;
use crate::sign::sign_at;
use crate::string::string_at;
use crate::white::after_white;
use crate::word::word_at;
use mig_token::Token;
use std::alloc::Global;

/// The token at the front, the longest that can be read, and the bytes behind it.
fn token_at(bytes: &[u8]) -> Option<(Token<'_>, &[u8])>
    ensures { MatchOption result (HasNoToken bytes.now) (λ read. ReadsToken bytes.now (tok_of read.0) read.1.now) }
{
    match bytes {
        [b'a'..=b'z', ..] => Some(word_at(bytes)),
        [b'0'..=b'9' | b'-', ..] => number_at(bytes),
        [b'"', rest @ ..] => string_at(rest),
        _ => sign_at(bytes),
    }
}

/// The tokens that the bytes are, each the longest that can be read, with white space around them.
pub fn tokens<'a>(alloc: Global, bytes: &'a [u8]) -> Result<Vec<Token<'a>>, LexFault>
    ensures found { IfOk result (λ ts. AreTokens bytes.now (toks ts.items)) }
    ensures wrong { result ≡ Err LexFault.Wrong → (ts : List Tok) → AreTokens bytes.now ts → ⊥ }
    ensures only { IfOk result (λ ts. (us : List Tok) → AreTokens bytes.now us → us ≡ toks ts.items) }
{
    let mut tokens = Vec::new(alloc);
    let mut rest = after_white(bytes);
    while !rest.is_empty() {
        let Some((token, after)) = token_at(rest) else {
            return Err(LexFault::Wrong);
        };
        tokens.push(token)?;
        rest = after_white(after);
    }
    Ok(tokens)
}

/// Bytes are read as tokens in at most one way.
pub fn one_reading()
    ensures { OneReading }
{}
