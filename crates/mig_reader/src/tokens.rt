//! Readers of one token each: a mark, a name, a string, a number or a kind, and the tokens behind it.
ghost use Rattle.std.specs.Prelude.{◌≡◌, drop};
ghost use Rattle.mig_token.specs.Token.{toks};
ghost use Rattle.mig_reader.specs.Grammar.{kind_word};
ghost use Rattle.mig_reader.specs.Reading.{Gives, begins, begins_text, behind, optional_at, name_at, text_at, number_at, first_kind, kind_at, kind_or_any_at};

use crate::error::ParseError;
use mig_model::{Kind, Name};
use mig_token::{Mark, Token};
use std::alloc::Global;

/// The kind that a reserved word names.
fn kind_of(mark: Mark) -> Option<Kind>
    ensures { result ≡ kind_word mark }
{
    match mark {
        Mark::Byte => Some(Kind::Byte),
        Mark::Short => Some(Kind::Short),
        Mark::Int => Some(Kind::Int),
        Mark::Long => Some(Kind::Long),
        Mark::Float => Some(Kind::Float),
        Mark::Double => Some(Kind::Double),
        Mark::Text => Some(Kind::Text),
        Mark::Bytes => Some(Kind::Bytes),
        Mark::Ints => Some(Kind::Ints),
        Mark::Longs => Some(Kind::Longs),
        Mark::Null => Some(Kind::Null),
        Mark::Bool => Some(Kind::Bool),
        Mark::Whole => Some(Kind::Whole),
        _ => None,
    }
}

/// Whether the first token is this mark.
pub fn begins(mark: Mark, tokens: &[Token]) -> bool
    ensures { result ≡ begins mark (toks tokens.now) }
{
    match tokens {
        [Token::Mark(first), ..] => mark.is(*first),
        _ => false,
    }
}

/// Whether the first token is a string.
pub fn begins_text(tokens: &[Token]) -> bool
    ensures { result ≡ begins_text (toks tokens.now) }
{
    match tokens {
        [Token::Text(_), ..] => true,
        _ => false,
    }
}

/// The tokens behind the first.
pub fn behind_first<'a, 't>(tokens: &'a [Token<'t>]) -> &'a [Token<'t>]
    ensures { toks result.now ≡ drop 1 (toks tokens.now) }
{
    match tokens {
        [] => tokens,
        [_, rest @ ..] => rest,
    }
}

/// The tokens behind this mark.
pub fn behind<'a, 't>(mark: Mark, tokens: &'a [Token<'t>]) -> Result<&'a [Token<'t>], ParseError>
    ensures { Gives (λ x. toks x.now) result (behind mark (toks tokens.now)) }
{
    if begins(mark, tokens) {
        Ok(behind_first(tokens))
    } else {
        Err(ParseError::Wrong)
    }
}

/// Whether this mark comes, and the tokens behind it.
pub fn optional_at<'a, 't>(mark: Mark, tokens: &'a [Token<'t>]) -> (bool, &'a [Token<'t>])
    ensures { (result.0, toks result.1.now) ≡ optional_at mark (toks tokens.now) }
{
    if begins(mark, tokens) {
        (true, behind_first(tokens))
    } else {
        (false, tokens)
    }
}

/// The name that comes, and the tokens behind it.
pub fn name_at<'a, 't>(
    alloc: Global,
    tokens: &'a [Token<'t>],
) -> Result<(Name, &'a [Token<'t>]), ParseError>
    ensures { Gives (λ x. (x.0, toks x.1.now)) result (name_at (toks tokens.now)) }
{
    match tokens {
        [Token::Name(name), rest @ ..] => Ok((Name::new(alloc, name)?, rest)),
        _ => Err(ParseError::Wrong),
    }
}

/// The string that comes, and the tokens behind it.
pub fn text_at<'a, 't>(
    alloc: Global,
    tokens: &'a [Token<'t>],
) -> Result<(Name, &'a [Token<'t>]), ParseError>
    ensures { Gives (λ x. (x.0, toks x.1.now)) result (text_at (toks tokens.now)) }
{
    match tokens {
        [Token::Text(text), rest @ ..] => Ok((Name::new(alloc, text)?, rest)),
        _ => Err(ParseError::Wrong),
    }
}

/// The number that comes, and the tokens behind it.
pub fn number_at<'a, 't>(tokens: &'a [Token<'t>]) -> Result<(i128, &'a [Token<'t>]), ParseError>
    ensures { Gives (λ x. (x.0, toks x.1.now)) result (number_at (toks tokens.now)) }
{
    match tokens {
        [Token::Number(number), rest @ ..] => Ok((*number, rest)),
        _ => Err(ParseError::Wrong),
    }
}

/// The kind that the first token names.
pub fn first_kind(tokens: &[Token]) -> Option<Kind>
    ensures { result ≡ first_kind (toks tokens.now) }
{
    match tokens {
        [Token::Mark(mark), ..] => kind_of(*mark),
        _ => None,
    }
}

/// The kind that comes, and the tokens behind it.
pub fn kind_at<'a, 't>(tokens: &'a [Token<'t>]) -> Result<(Kind, &'a [Token<'t>]), ParseError>
    ensures { Gives (λ x. (x.0, toks x.1.now)) result (kind_at (toks tokens.now)) }
{
    match first_kind(tokens) {
        Some(kind) => Ok((kind, behind_first(tokens))),
        None => Err(ParseError::Wrong),
    }
}

/// A kind, or None where `any` comes.
pub fn kind_or_any_at<'a, 't>(
    tokens: &'a [Token<'t>],
) -> Result<(Option<Kind>, &'a [Token<'t>]), ParseError>
    ensures { Gives (λ x. (x.0, toks x.1.now)) result (kind_or_any_at (toks tokens.now)) }
{
    match first_kind(tokens) {
        Some(kind) => Ok((Some(kind), behind_first(tokens))),
        None => {
            let rest = behind(Mark::Any, tokens)?;
            Ok((None, rest))
        }
    }
}
