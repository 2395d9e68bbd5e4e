//! What a `fix` does, and the steps of a path.
ghost use Rattle.std.specs.Prelude.{◌≡◌, length, map};
ghost use Rattle.mig_token.specs.Token.{toks};
ghost use Rattle.mig_syntax.specs.DeclView.{step_of, fix_of};
ghost use Rattle.mig_reader.specs.Reading.{Gives};
ghost use Rattle.mig_parse.specs.Reading.{step_at, steps_at, new_type_at, deep_at, fix_text_at};

use mig_parse_leaf::leaf_at;
use mig_parse_rule::rule;
use mig_parse_template::template;
use mig_reader::{ParseError, begins, behind, behind_first, name_at, text_at};
use mig_syntax::{FixText, StepText};
use mig_token::{Mark, Token};
use std::alloc::Global;

/// A step of a path.
#[tactic(auto, unfolding(crate::specs::Reading::step_at))]
fn step_at<'a, 't>(
    alloc: Global,
    tokens: &'a [Token<'t>],
) -> Result<(StepText, &'a [Token<'t>]), ParseError>
    ensures { Gives (λ x. (step_of x.0, toks x.1.now)) result (step_at (toks tokens.now)) }
{
    if begins(Mark::Each, tokens) {
        return Ok((StepText::Each, behind_first(tokens)));
    }
    if begins(Mark::Left, tokens) {
        return Ok((StepText::Left, behind_first(tokens)));
    }
    if begins(Mark::Right, tokens) {
        return Ok((StepText::Right, behind_first(tokens)));
    }
    if begins(Mark::Case, tokens) {
        let (literal, rest) = text_at(alloc, behind_first(tokens))?;
        return Ok((StepText::Case(literal), rest));
    }
    let (name, rest) = text_at(alloc, tokens)?;
    Ok((StepText::Named(name), rest))
}

/// The same tokens. A loop goes on with them by this call, since the proof follows no variable that is set to another.
fn onward<'a, 't>(tokens: &'a [Token<'t>]) -> &'a [Token<'t>]
    ensures { toks result.now ≡ toks tokens.now }
{
    tokens
}

/// The steps up to a `:`. Each turn takes a token at least, so the count of the tokens bounds the turns.
fn steps_at<'a, 't>(
    alloc: Global,
    tokens: &'a [Token<'t>],
) -> Result<(Vec<StepText>, &'a [Token<'t>]), ParseError>
    ensures { Gives (λ x. (map step_of x.0.items, toks x.1.now)) result
        (steps_at (length tokens.now) (toks tokens.now)) }
{
    let mut steps = Vec::new(alloc);
    let mut rest = tokens;
    for _ in 0..tokens.len() {
        let (step, after) = step_at(alloc, rest)?;
        steps.push(step)?;
        if begins(Mark::Colon, after) {
            return Ok((steps, after));
        }
        rest = onward(after);
    }
    Err(ParseError::Wrong)
}

/// The name and the template, which is an outermost one, behind `newtype`.
#[tactic(auto, unfolding(crate::specs::Reading::new_type_at))]
fn new_type_at<'a, 't>(
    alloc: Global,
    tokens: &'a [Token<'t>],
) -> Result<(FixText, &'a [Token<'t>]), ParseError>
    ensures { Gives (λ x. (fix_of x.0, toks x.1.now)) result (new_type_at (toks tokens.now)) }
{
    let (name, rest) = name_at(alloc, tokens)?;
    let rest = behind(Mark::Equals, rest)?;
    let (named, rest) = template(alloc, rest)?;
    Ok((FixText::NewType(name, named), rest))
}

/// The steps and the function, behind `deep`.
#[tactic(auto, unfolding(crate::specs::Reading::deep_at))]
fn deep_at<'a, 't>(
    alloc: Global,
    tokens: &'a [Token<'t>],
) -> Result<(FixText, &'a [Token<'t>]), ParseError>
    ensures { Gives (λ x. (fix_of x.0, toks x.1.now)) result (deep_at (toks tokens.now)) }
{
    let (steps, rest) = steps_at(alloc, tokens)?;
    let rest = behind(Mark::Colon, rest)?;
    let (leaf, rest) = leaf_at(alloc, rest)?;
    Ok((FixText::Deep(steps, leaf), rest))
}

/// What a fix does, behind its number.
#[tactic(auto, unfolding(crate::specs::Reading::fix_text_at))]
pub(crate) fn fix_text_at<'a, 't>(
    alloc: Global,
    tokens: &'a [Token<'t>],
) -> Result<(FixText, &'a [Token<'t>]), ParseError>
    ensures { Gives (λ x. (fix_of x.0, toks x.1.now)) result (fix_text_at (toks tokens.now)) }
{
    if begins(Mark::NewType, tokens) {
        return new_type_at(alloc, behind_first(tokens));
    }
    if begins(Mark::DropType, tokens) {
        let (name, rest) = name_at(alloc, behind_first(tokens))?;
        return Ok((FixText::DropType(name), rest));
    }
    if begins(Mark::Deep, tokens) {
        return deep_at(alloc, behind_first(tokens));
    }
    let (read, rest) = rule(alloc, tokens)?;
    Ok((FixText::Rule(read), rest))
}
