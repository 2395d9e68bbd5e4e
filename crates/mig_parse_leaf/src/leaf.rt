//! Constants and leaf functions.
ghost use Rattle.std.specs.Prelude.{◌≡◌, length};
ghost use Rattle.mig_token.specs.Token.{toks};
ghost use Rattle.mig_syntax.specs.RuleView.{const_of, leaf_of};
ghost use Rattle.mig_reader.specs.Reading.{Gives, listed_at};
ghost use Rattle.mig_parse_leaf.specs.Reading.{whole_number_at, bits_at, bool_at, empty_at, const_of_kind, const_at, pair_at, clamp_at, table_at, text_leaf_at, leaf_at};

use mig_model::{Kind, Name};
use mig_reader::{
    ParseError, begins, behind, behind_first, first_kind, kind_at, number_at, text_at,
};
use mig_syntax::{ConstText, LeafText};
use mig_token::{Mark, Token};
use std::alloc::Global;

/// A whole number of this kind.
fn whole_number_at<'a, 't>(
    kind: Kind,
    tokens: &'a [Token<'t>],
) -> Result<(ConstText, &'a [Token<'t>]), ParseError>
    ensures { Gives (λ x. (const_of x.0, toks x.1.now)) result (whole_number_at kind (toks tokens.now)) }
{
    let (number, rest) = number_at(tokens)?;
    Ok((ConstText::Number(kind, number), rest))
}

/// The bits of a number of this kind.
fn bits_at<'a, 't>(
    kind: Kind,
    tokens: &'a [Token<'t>],
) -> Result<(ConstText, &'a [Token<'t>]), ParseError>
    ensures { Gives (λ x. (const_of x.0, toks x.1.now)) result (bits_at kind (toks tokens.now)) }
{
    let rest = behind(Mark::Bits, tokens)?;
    let (bits, rest) = number_at(rest)?;
    Ok((ConstText::Bits(kind, bits), rest))
}

/// A truth value.
fn bool_at<'a, 't>(tokens: &'a [Token<'t>]) -> Result<(ConstText, &'a [Token<'t>]), ParseError>
    ensures { Gives (λ x. (const_of x.0, toks x.1.now)) result (bool_at (toks tokens.now)) }
{
    if begins(Mark::True, tokens) {
        return Ok((ConstText::Bool(true), behind_first(tokens)));
    }
    let rest = behind(Mark::False, tokens)?;
    Ok((ConstText::Bool(false), rest))
}

/// The empty array of this kind.
fn empty_at<'a, 't>(
    kind: Kind,
    tokens: &'a [Token<'t>],
) -> Result<(ConstText, &'a [Token<'t>]), ParseError>
    ensures { Gives (λ x. (const_of x.0, toks x.1.now)) result (empty_at kind (toks tokens.now)) }
{
    let rest = behind(Mark::Empty, tokens)?;
    Ok((ConstText::Empty(kind), rest))
}

/// A constant of this kind, behind its kind word.
#[tactic(auto, unfolding(crate::specs::Reading::const_of_kind))]
fn const_of_kind<'a, 't>(
    alloc: Global,
    kind: Kind,
    tokens: &'a [Token<'t>],
) -> Result<(ConstText, &'a [Token<'t>]), ParseError>
    ensures { Gives (λ x. (const_of x.0, toks x.1.now)) result (const_of_kind kind (toks tokens.now)) }
{
    match kind {
        Kind::Byte | Kind::Short | Kind::Int | Kind::Long | Kind::Whole => {
            whole_number_at(kind, tokens)
        }
        Kind::Float | Kind::Double => bits_at(kind, tokens),
        Kind::Text => {
            let (text, rest) = text_at(alloc, tokens)?;
            Ok((ConstText::Text(text), rest))
        }
        Kind::Bool => bool_at(tokens),
        Kind::Null => Ok((ConstText::Null, tokens)),
        Kind::Bytes | Kind::Ints | Kind::Longs => empty_at(kind, tokens),
        Kind::List | Kind::Map => Err(ParseError::Wrong),
    }
}

/// The constant that comes, and the tokens behind it.
#[tactic(auto, unfolding(crate::specs::Reading::const_at))]
pub fn const_at<'a, 't>(
    alloc: Global,
    tokens: &'a [Token<'t>],
) -> Result<(ConstText, &'a [Token<'t>]), ParseError>
    ensures { Gives (λ x. (const_of x.0, toks x.1.now)) result (const_at (toks tokens.now)) }
{
    match first_kind(tokens) {
        Some(kind) => const_of_kind(alloc, kind, behind_first(tokens)),
        None => Err(ParseError::Wrong),
    }
}

/// The least and the greatest number, behind `clamp`.
#[tactic(auto, unfolding(crate::specs::Reading::clamp_at))]
fn clamp_at<'a, 't>(tokens: &'a [Token<'t>]) -> Result<(LeafText, &'a [Token<'t>]), ParseError>
    ensures { Gives (λ x. (leaf_of x.0, toks x.1.now)) result (clamp_at (toks tokens.now)) }
{
    let (least, rest) = number_at(tokens)?;
    let (greatest, rest) = number_at(rest)?;
    Ok((LeafText::Clamp(least, greatest), rest))
}

/// Two strings with `to` between them.
fn pair_at<'a, 't>(
    alloc: Global,
    tokens: &'a [Token<'t>],
) -> Result<((Name, Name), &'a [Token<'t>]), ParseError>
    ensures { Gives (λ x. (x.0, toks x.1.now)) result (pair_at (toks tokens.now)) }
{
    let (left, rest) = text_at(alloc, tokens)?;
    let rest = behind(Mark::To, rest)?;
    let (right, rest) = text_at(alloc, rest)?;
    Ok(((left, right), rest))
}

/// The pairs of a table. Each turn takes a token at least, so the count of the tokens bounds the turns.
fn pairs_at<'a, 't>(
    alloc: Global,
    tokens: &'a [Token<'t>],
) -> Result<(Vec<(Name, Name)>, &'a [Token<'t>]), ParseError>
    ensures { Gives (λ x. (x.0.items, toks x.1.now)) result (listed_at pair_at (length tokens.now) (toks tokens.now)) }
{
    let mut pairs = Vec::new(alloc);
    let mut rest = tokens;
    for _ in 0..tokens.len() {
        let (pair, after) = pair_at(alloc, rest)?;
        pairs.push(pair)?;
        if !begins(Mark::Comma, after) {
            return Ok((pairs, after));
        }
        rest = behind_first(after);
    }
    Err(ParseError::Wrong)
}

/// A table behind its first word.
#[tactic(auto, unfolding(crate::specs::Reading::table_at))]
fn table_at<'a, 't>(
    alloc: Global,
    tokens: &'a [Token<'t>],
) -> Result<(LeafText, &'a [Token<'t>]), ParseError>
    ensures { Gives (λ x. (leaf_of x.0, toks x.1.now)) result (table_at (toks tokens.now)) }
{
    let rest = behind(Mark::Open, tokens)?;
    let (pairs, rest) = pairs_at(alloc, rest)?;
    let rest = behind(Mark::Close, rest)?;
    Ok((LeafText::Table(pairs), rest))
}

/// A leaf function that has to do with texts.
#[tactic(auto, unfolding(crate::specs::Reading::text_leaf_at))]
fn text_leaf_at<'a, 't>(
    alloc: Global,
    tokens: &'a [Token<'t>],
) -> Result<(LeafText, &'a [Token<'t>]), ParseError>
    ensures { Gives (λ x. (leaf_of x.0, toks x.1.now)) result (text_leaf_at (toks tokens.now)) }
{
    if begins(Mark::ToText, tokens) {
        return Ok((LeafText::ToText, behind_first(tokens)));
    }
    if begins(Mark::OfText, tokens) {
        let (constant, rest) = const_at(alloc, behind_first(tokens))?;
        return Ok((LeafText::OfText(constant), rest));
    }
    if begins(Mark::Table, tokens) {
        return table_at(alloc, behind_first(tokens));
    }
    if begins(Mark::Prefix, tokens) {
        let (text, rest) = text_at(alloc, behind_first(tokens))?;
        return Ok((LeafText::Prefix(text), rest));
    }
    if begins(Mark::Strip, tokens) {
        let (text, rest) = text_at(alloc, behind_first(tokens))?;
        return Ok((LeafText::Strip(text), rest));
    }
    let rest = behind(Mark::Lower, tokens)?;
    Ok((LeafText::Lower, rest))
}

/// The leaf function that comes, and the tokens behind it.
#[tactic(auto, unfolding(crate::specs::Reading::leaf_at))]
pub fn leaf_at<'a, 't>(
    alloc: Global,
    tokens: &'a [Token<'t>],
) -> Result<(LeafText, &'a [Token<'t>]), ParseError>
    ensures { Gives (λ x. (leaf_of x.0, toks x.1.now)) result (leaf_at (toks tokens.now)) }
{
    if begins(Mark::Const, tokens) {
        let (constant, rest) = const_at(alloc, behind_first(tokens))?;
        return Ok((LeafText::Const(constant), rest));
    }
    if begins(Mark::Plus, tokens) {
        let (number, rest) = number_at(behind_first(tokens))?;
        return Ok((LeafText::Plus(number), rest));
    }
    if begins(Mark::Times, tokens) {
        let (number, rest) = number_at(behind_first(tokens))?;
        return Ok((LeafText::Times(number), rest));
    }
    if begins(Mark::Clamp, tokens) {
        return clamp_at(behind_first(tokens));
    }
    if begins(Mark::To, tokens) {
        let (kind, rest) = kind_at(behind_first(tokens))?;
        return Ok((LeafText::To(kind), rest));
    }
    text_leaf_at(alloc, tokens)
}
