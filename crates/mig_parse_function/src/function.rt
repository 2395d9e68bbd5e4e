//! Field functions, and what they fill a field with.
ghost use Rattle.std.specs.Prelude.{◌≡◌, length};
ghost use Rattle.mig_token.specs.Token.{toks};
ghost use Rattle.mig_syntax.specs.RuleView.{fill_of, function_of};
ghost use Rattle.mig_reader.specs.Reading.{Gives, listed_at, text_at};
ghost use Rattle.mig_parse_function.specs.Reading.{fill_at, rename_at, add_at, learn_at, default_at, map_at, nest_at, unify_at, retag_at, add_case_at, shape_function_at, field_function_at, function_at};

use mig_model::Name;
use mig_parse_leaf::{const_at, leaf_at};
use mig_parse_template::{braced_fields, part};
use mig_reader::{ParseError, begins, behind, behind_first, kind_or_any_at, text_at};
use mig_syntax::{FillText, FunctionText};
use mig_token::{Mark, Token};
use std::alloc::Global;

/// A fill. The template of an empty list's items is an outermost one.
#[tactic(auto, unfolding(crate::specs::Reading::fill_at))]
fn fill_at<'a, 't>(
    alloc: Global,
    tokens: &'a [Token<'t>],
) -> Result<(FillText, &'a [Token<'t>]), ParseError>
    ensures { Gives (λ x. (fill_of x.0, toks x.1.now)) result (fill_at (toks tokens.now)) }
{
    if begins(Mark::List, tokens) {
        let (part, rest) = part(alloc, behind_first(tokens))?;
        return Ok((FillText::EmptyList(part), rest));
    }
    let (constant, rest) = const_at(alloc, tokens)?;
    Ok((FillText::Const(constant), rest))
}

/// A renaming behind its first word.
#[tactic(auto, unfolding(crate::specs::Reading::rename_at))]
fn rename_at<'a, 't>(
    alloc: Global,
    tokens: &'a [Token<'t>],
) -> Result<(FunctionText, &'a [Token<'t>]), ParseError>
    ensures { Gives (λ x. (function_of x.0, toks x.1.now)) result (rename_at (toks tokens.now)) }
{
    let (before, rest) = text_at(alloc, tokens)?;
    let (after, rest) = text_at(alloc, rest)?;
    Ok((FunctionText::Rename(before, after), rest))
}

/// An addition behind its first word.
#[tactic(auto, unfolding(crate::specs::Reading::add_at))]
fn add_at<'a, 't>(
    alloc: Global,
    tokens: &'a [Token<'t>],
) -> Result<(FunctionText, &'a [Token<'t>]), ParseError>
    ensures { Gives (λ x. (function_of x.0, toks x.1.now)) result (add_at (toks tokens.now)) }
{
    let (name, rest) = text_at(alloc, tokens)?;
    let rest = behind(Mark::Equals, rest)?;
    let (fill, rest) = fill_at(alloc, rest)?;
    Ok((FunctionText::Add(name, fill), rest))
}

/// The field and the kind, behind `learn`.
#[tactic(auto, unfolding(crate::specs::Reading::learn_at))]
fn learn_at<'a, 't>(
    alloc: Global,
    tokens: &'a [Token<'t>],
) -> Result<(FunctionText, &'a [Token<'t>]), ParseError>
    ensures { Gives (λ x. (function_of x.0, toks x.1.now)) result (learn_at (toks tokens.now)) }
{
    let (name, rest) = text_at(alloc, tokens)?;
    let (kind, rest) = kind_or_any_at(rest)?;
    Ok((FunctionText::Learn(name, kind), rest))
}

/// The field and what it is filled with, behind `default`.
#[tactic(auto, unfolding(crate::specs::Reading::default_at))]
fn default_at<'a, 't>(
    alloc: Global,
    tokens: &'a [Token<'t>],
) -> Result<(FunctionText, &'a [Token<'t>]), ParseError>
    ensures { Gives (λ x. (function_of x.0, toks x.1.now)) result (default_at (toks tokens.now)) }
{
    let (name, rest) = text_at(alloc, tokens)?;
    let rest = behind(Mark::Equals, rest)?;
    let (fill, rest) = fill_at(alloc, rest)?;
    Ok((FunctionText::Default(name, fill), rest))
}

/// The field and the function, behind `map`.
#[tactic(auto, unfolding(crate::specs::Reading::map_at))]
fn map_at<'a, 't>(
    alloc: Global,
    tokens: &'a [Token<'t>],
) -> Result<(FunctionText, &'a [Token<'t>]), ParseError>
    ensures { Gives (λ x. (function_of x.0, toks x.1.now)) result (map_at (toks tokens.now)) }
{
    let (name, rest) = text_at(alloc, tokens)?;
    let (leaf, rest) = leaf_at(alloc, rest)?;
    Ok((FunctionText::Map(name, leaf), rest))
}

/// Strings parted by commas. Each turn takes a token at least, so the count of the tokens bounds the turns.
fn texts_at<'a, 't>(
    alloc: Global,
    tokens: &'a [Token<'t>],
) -> Result<(Vec<Name>, &'a [Token<'t>]), ParseError>
    ensures { Gives (λ x. (x.0.items, toks x.1.now)) result (listed_at text_at (length tokens.now) (toks tokens.now)) }
{
    let mut names = Vec::new(alloc);
    let mut rest = tokens;
    for _ in 0..tokens.len() {
        let (name, after) = text_at(alloc, rest)?;
        names.push(name)?;
        if !begins(Mark::Comma, after) {
            return Ok((names, after));
        }
        rest = behind_first(after);
    }
    Err(ParseError::Wrong)
}

/// The fields in brackets and the name that they go under, behind `nest`.
#[tactic(auto, unfolding(crate::specs::Reading::nest_at))]
fn nest_at<'a, 't>(
    alloc: Global,
    tokens: &'a [Token<'t>],
) -> Result<(FunctionText, &'a [Token<'t>]), ParseError>
    ensures { Gives (λ x. (function_of x.0, toks x.1.now)) result (nest_at (toks tokens.now)) }
{
    let rest = behind(Mark::Open, tokens)?;
    let (names, rest) = texts_at(alloc, rest)?;
    let rest = behind(Mark::Close, rest)?;
    let (name, rest) = text_at(alloc, rest)?;
    Ok((FunctionText::Nest(names, name), rest))
}

/// The field and a function for each side, behind `unify`.
#[tactic(auto, unfolding(crate::specs::Reading::unify_at))]
fn unify_at<'a, 't>(
    alloc: Global,
    tokens: &'a [Token<'t>],
) -> Result<(FunctionText, &'a [Token<'t>]), ParseError>
    ensures { Gives (λ x. (function_of x.0, toks x.1.now)) result (unify_at (toks tokens.now)) }
{
    let (name, rest) = text_at(alloc, tokens)?;
    let (left, rest) = leaf_at(alloc, rest)?;
    let rest = behind(Mark::Or, rest)?;
    let (right, rest) = leaf_at(alloc, rest)?;
    Ok((FunctionText::Unify(name, left, right), rest))
}

/// The literals before and after, behind `retag`.
#[tactic(auto, unfolding(crate::specs::Reading::retag_at))]
fn retag_at<'a, 't>(
    alloc: Global,
    tokens: &'a [Token<'t>],
) -> Result<(FunctionText, &'a [Token<'t>]), ParseError>
    ensures { Gives (λ x. (function_of x.0, toks x.1.now)) result (retag_at (toks tokens.now)) }
{
    let (before, rest) = text_at(alloc, tokens)?;
    let (after, rest) = text_at(alloc, rest)?;
    Ok((FunctionText::Retag(before, after), rest))
}

/// The literal and the fields, behind `addcase`. The templates of the fields are outermost ones.
#[tactic(auto, unfolding(crate::specs::Reading::add_case_at))]
fn add_case_at<'a, 't>(
    alloc: Global,
    tokens: &'a [Token<'t>],
) -> Result<(FunctionText, &'a [Token<'t>]), ParseError>
    ensures { Gives (λ x. (function_of x.0, toks x.1.now)) result (add_case_at (toks tokens.now)) }
{
    let (literal, rest) = text_at(alloc, tokens)?;
    let (fields, rest) = braced_fields(alloc, rest)?;
    Ok((FunctionText::AddCase(literal, fields), rest))
}

/// A function that changes the shape of a field or of the choice.
#[tactic(auto, unfolding(crate::specs::Reading::shape_function_at))]
fn shape_function_at<'a, 't>(
    alloc: Global,
    tokens: &'a [Token<'t>],
) -> Result<(FunctionText, &'a [Token<'t>]), ParseError>
    ensures { Gives (λ x. (function_of x.0, toks x.1.now)) result (shape_function_at (toks tokens.now)) }
{
    if begins(Mark::Wrap, tokens) {
        let (name, rest) = text_at(alloc, behind_first(tokens))?;
        return Ok((FunctionText::Wrap(name), rest));
    }
    if begins(Mark::Unify, tokens) {
        return unify_at(alloc, behind_first(tokens));
    }
    if begins(Mark::Retag, tokens) {
        return retag_at(alloc, behind_first(tokens));
    }
    let rest = behind(Mark::AddCase, tokens)?;
    add_case_at(alloc, rest)
}

/// A function that changes what a field holds, where it stands, or whether it has to be there; or one of another shape.
#[tactic(auto, unfolding(crate::specs::Reading::field_function_at))]
fn field_function_at<'a, 't>(
    alloc: Global,
    tokens: &'a [Token<'t>],
) -> Result<(FunctionText, &'a [Token<'t>]), ParseError>
    ensures { Gives (λ x. (function_of x.0, toks x.1.now)) result (field_function_at (toks tokens.now)) }
{
    if begins(Mark::Default, tokens) {
        return default_at(alloc, behind_first(tokens));
    }
    if begins(Mark::MayBe, tokens) {
        let (name, rest) = text_at(alloc, behind_first(tokens))?;
        return Ok((FunctionText::MayBe(name), rest));
    }
    if begins(Mark::Map, tokens) {
        return map_at(alloc, behind_first(tokens));
    }
    if begins(Mark::Nest, tokens) {
        return nest_at(alloc, behind_first(tokens));
    }
    if begins(Mark::Unnest, tokens) {
        let (name, rest) = text_at(alloc, behind_first(tokens))?;
        return Ok((FunctionText::Unnest(name), rest));
    }
    shape_function_at(alloc, tokens)
}

/// The field function that comes, and the tokens behind it.
#[tactic(auto, unfolding(crate::specs::Reading::function_at))]
pub fn function_at<'a, 't>(
    alloc: Global,
    tokens: &'a [Token<'t>],
) -> Result<(FunctionText, &'a [Token<'t>]), ParseError>
    ensures { Gives (λ x. (function_of x.0, toks x.1.now)) result (function_at (toks tokens.now)) }
{
    if begins(Mark::Rename, tokens) {
        return rename_at(alloc, behind_first(tokens));
    }
    if begins(Mark::Drop, tokens) {
        let (name, rest) = text_at(alloc, behind_first(tokens))?;
        return Ok((FunctionText::Drop(name), rest));
    }
    if begins(Mark::Add, tokens) {
        return add_at(alloc, behind_first(tokens));
    }
    if begins(Mark::Learn, tokens) {
        return learn_at(alloc, behind_first(tokens));
    }
    if begins(Mark::Forget, tokens) {
        let (name, rest) = text_at(alloc, behind_first(tokens))?;
        return Ok((FunctionText::Forget(name), rest));
    }
    field_function_at(alloc, tokens)
}
