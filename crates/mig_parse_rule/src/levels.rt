//! Rules: each reader has a number that says how many levels are free.
ghost use Rattle.std.specs.Prelude.{◌≡◌, map};
ghost use Rattle.mig_token.specs.Token.{toks};
ghost use Rattle.mig_syntax.specs.RuleView.{rule_of};
ghost use Rattle.mig_reader.specs.Reading.{Gives};
ghost use Rattle.mig_parse_template.specs.Grammar.{max_levels};
ghost use Rattle.mig_parse_rule.specs.Reading.{scoped_at, on_at, places_at, seq_at, or_else_at, joined_with, rule_with, rule_at, rules_at};

use mig_parse_function::function_at;
use mig_parse_template::MAX_LEVELS;
use mig_reader::{ParseError, begins, behind, behind_first, name_at, text_at};
use mig_syntax::{RuleBox, RuleList, RuleText};
use mig_token::{Mark, Token};
use std::alloc::Global;

/// The literal of a case and a function for it, behind `in`.
#[tactic(auto, unfolding(crate::specs::Reading::scoped_at))]
fn scoped_at<'a, 't>(
    alloc: Global,
    tokens: &'a [Token<'t>],
) -> Result<(RuleText, &'a [Token<'t>]), ParseError>
    ensures { Gives (λ x. (rule_of x.0, toks x.1.now)) result (scoped_at (toks tokens.now)) }
{
    let (literal, rest) = text_at(alloc, tokens)?;
    let (function, rest) = function_at(alloc, rest)?;
    Ok((RuleText::Fn(Some(literal), function), rest))
}

/// Rules parted by commas. The first has so many levels at most, and each further one a level less.
#[cycle(rule)]
fn rules_at<'a, 't>(
    alloc: Global,
    levels: u32,
    tokens: &'a [Token<'t>],
) -> Result<(Vec<RuleText>, &'a [Token<'t>]), ParseError>
    ensures { Gives (λ x. (map rule_of x.0.items, toks x.1.now)) result (rules_at levels (toks tokens.now)) }
{
    let mut rules = Vec::new(alloc);
    let mut rest = tokens;
    for used in 0..levels {
        let (rule, after) = rule_at(alloc, levels - used, rest)?;
        rules.push(rule)?;
        if !begins(Mark::Comma, after) {
            return Ok((rules, after));
        }
        rest = behind_first(after);
    }
    Err(ParseError::Wrong)
}

/// A rule for a type behind `on`.
#[cycle(rule)]
#[tactic(auto, unfolding(crate::specs::Reading::on_at))]
fn on_at<'a, 't>(
    alloc: Global,
    levels: u32,
    tokens: &'a [Token<'t>],
) -> Result<(RuleText, &'a [Token<'t>]), ParseError>
    ensures { Gives (λ x. (rule_of x.0, toks x.1.now)) result (on_at (rule_at levels) (toks tokens.now)) }
{
    let (name, rest) = name_at(alloc, tokens)?;
    let (rule, rest) = rule_at(alloc, levels, rest)?;
    Ok((RuleText::On(name, RuleBox::new(alloc, rule)?), rest))
}

/// A rule for the places of a field, behind `at`.
#[cycle(rule)]
#[tactic(auto, unfolding(crate::specs::Reading::places_at))]
fn places_at<'a, 't>(
    alloc: Global,
    levels: u32,
    tokens: &'a [Token<'t>],
) -> Result<(RuleText, &'a [Token<'t>]), ParseError>
    ensures { Gives (λ x. (rule_of x.0, toks x.1.now)) result (places_at (rule_at levels) (toks tokens.now)) }
{
    let (name, rest) = text_at(alloc, tokens)?;
    let (rule, rest) = rule_at(alloc, levels, rest)?;
    Ok((RuleText::At(name, RuleBox::new(alloc, rule)?), rest))
}

/// Rules in order, behind `seq`.
#[cycle(rule)]
#[tactic(auto, unfolding(crate::specs::Reading::seq_at))]
fn seq_at<'a, 't>(
    alloc: Global,
    levels: u32,
    tokens: &'a [Token<'t>],
) -> Result<(RuleText, &'a [Token<'t>]), ParseError>
    ensures { Gives (λ x. (rule_of x.0, toks x.1.now)) result (seq_at (rules_at levels) (toks tokens.now)) }
{
    let rest = behind(Mark::Open, tokens)?;
    let (list, rest) = rules_at(alloc, levels, rest)?;
    let rest = behind(Mark::Close, rest)?;
    Ok((RuleText::Seq(RuleList::new(list)), rest))
}

/// The two rules behind `orelse`.
#[cycle(rule)]
#[tactic(auto, unfolding(crate::specs::Reading::or_else_at))]
fn or_else_at<'a, 't>(
    alloc: Global,
    levels: u32,
    tokens: &'a [Token<'t>],
) -> Result<(RuleText, &'a [Token<'t>]), ParseError>
    ensures { Gives (λ x. (rule_of x.0, toks x.1.now)) result (or_else_at (rule_at levels) (toks tokens.now)) }
{
    let rest = behind(Mark::Open, tokens)?;
    let (first, rest) = rule_at(alloc, levels, rest)?;
    let rest = behind(Mark::Comma, rest)?;
    let (second, rest) = rule_at(alloc, levels, rest)?;
    let rest = behind(Mark::Close, rest)?;
    let first = RuleBox::new(alloc, first)?;
    let second = RuleBox::new(alloc, second)?;
    Ok((RuleText::OrElse(first, second), rest))
}

/// A rule for places, one that joins rules, or a function, with so many levels below it.
#[cycle(rule)]
#[tactic(auto, unfolding(crate::specs::Reading::joined_with))]
fn joined_at<'a, 't>(
    alloc: Global,
    levels: u32,
    tokens: &'a [Token<'t>],
) -> Result<(RuleText, &'a [Token<'t>]), ParseError>
    ensures { Gives (λ x. (rule_of x.0, toks x.1.now)) result
        (joined_with (rule_at levels) (rules_at levels) (toks tokens.now)) }
{
    if begins(Mark::At, tokens) {
        return places_at(alloc, levels, behind_first(tokens));
    }
    if begins(Mark::Seq, tokens) {
        return seq_at(alloc, levels, behind_first(tokens));
    }
    if begins(Mark::OrElse, tokens) {
        return or_else_at(alloc, levels, behind_first(tokens));
    }
    if begins(Mark::In, tokens) {
        return scoped_at(alloc, behind_first(tokens));
    }
    let (function, rest) = function_at(alloc, tokens)?;
    Ok((RuleText::Fn(None, function), rest))
}

/// A rule with so many levels below it.
#[cycle(rule)]
#[tactic(auto, unfolding(crate::specs::Reading::rule_with))]
fn rule_with<'a, 't>(
    alloc: Global,
    levels: u32,
    tokens: &'a [Token<'t>],
) -> Result<(RuleText, &'a [Token<'t>]), ParseError>
    ensures { Gives (λ x. (rule_of x.0, toks x.1.now)) result
        (rule_with (rule_at levels) (rules_at levels) (toks tokens.now)) }
{
    if begins(Mark::Nop, tokens) {
        return Ok((RuleText::Nop, behind_first(tokens)));
    }
    if begins(Mark::All, tokens) {
        let (rule, rest) = rule_at(alloc, levels, behind_first(tokens))?;
        return Ok((RuleText::All(RuleBox::new(alloc, rule)?), rest));
    }
    if begins(Mark::Everywhere, tokens) {
        let (rule, rest) = rule_at(alloc, levels, behind_first(tokens))?;
        return Ok((RuleText::Everywhere(RuleBox::new(alloc, rule)?), rest));
    }
    if begins(Mark::On, tokens) {
        return on_at(alloc, levels, behind_first(tokens));
    }
    joined_at(alloc, levels, tokens)
}

/// A rule, which has so many levels at most.
#[cycle(rule)]
#[tactic(auto, unfolding(crate::specs::Reading::rule_at))]
fn rule_at<'a, 't>(
    alloc: Global,
    levels: u32,
    tokens: &'a [Token<'t>],
) -> Result<(RuleText, &'a [Token<'t>]), ParseError>
    ensures { Gives (λ x. (rule_of x.0, toks x.1.now)) result (rule_at levels (toks tokens.now)) }
{
    if levels == 0 {
        return Err(ParseError::Wrong);
    }
    rule_with(alloc, levels - 1, tokens)
}

/// The rule that comes, at the outermost level, and the tokens behind it.
pub fn rule<'a, 't>(
    alloc: Global,
    tokens: &'a [Token<'t>],
) -> Result<(RuleText, &'a [Token<'t>]), ParseError>
    ensures { Gives (λ x. (rule_of x.0, toks x.1.now)) result (rule_at max_levels (toks tokens.now)) }
{
    rule_at(alloc, MAX_LEVELS, tokens)
}
