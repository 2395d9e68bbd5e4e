//! Rules out of their syntax.
ghost use Rattle.std.specs.Prelude.{◌≡◌, ◌||◌, false, not, is_some, map, IfOk, IfSome};
ghost use Rattle.mig_resolve_rule.specs.Functions.{function_in_range, function_is_twice};
ghost use Rattle.mig_resolve_rule.specs.Rules.{rule_from, rules_from, any_function, any_function_of};
ghost use Rattle.mig_rule.specs.Rule as model;
ghost use Rattle.mig_rule.specs.View as values;
ghost use Rattle.mig_syntax.specs.RuleSyntax.{rules_of};
ghost use Rattle.mig_syntax.specs.RuleView.{rule_of};

use crate::functions::function;
use mig_model::Memory;
use mig_rule::{Rule, RuleBox};
use mig_syntax::RuleText;
use std::alloc::Global;

/// The rule that the syntax stands for; `None` where names in it that must be distinct aren't.
#[cycle(resolving)]
pub fn rule(alloc: Global, text: &RuleText) -> Result<Option<Rule>, Memory>
    requires { any_function (λ f. not (function_in_range f)) (rule_of text.now) ≡ false }
    ensures some { IfOk result (λ o. IfSome o (λ r. values.rule_of r ≡ rule_from (rule_of text.now))) }
    ensures twice { IfOk result (λ o. is_some o ≡ not (any_function function_is_twice (rule_of text.now))) }
{
    match text {
        RuleText::Nop => Ok(Some(Rule::Nop)),
        RuleText::All(part) => match on_heap(alloc, part.get())? {
            Some(part) => Ok(Some(Rule::All(part))),
            None => Ok(None),
        },
        RuleText::Everywhere(part) => match on_heap(alloc, part.get())? {
            Some(part) => Ok(Some(Rule::Everywhere(part))),
            None => Ok(None),
        },
        RuleText::On(name, part) => match on_heap(alloc, part.get())? {
            Some(part) => Ok(Some(Rule::On(name.copy(alloc)?, part))),
            None => Ok(None),
        },
        RuleText::At(name, part) => match on_heap(alloc, part.get())? {
            Some(part) => Ok(Some(Rule::At(name.copy(alloc)?, part))),
            None => Ok(None),
        },
        RuleText::Seq(parts) => in_order(alloc, parts.as_slice()),
        RuleText::OrElse(first, second) => either(alloc, first.get(), second.get()),
        RuleText::Fn(literal, text) => match function(alloc, literal, text)? {
            Some(function) => Ok(Some(Rule::Fn(function))),
            None => Ok(None),
        },
    }
}

/// The rule on the heap.
#[cycle(resolving)]
fn on_heap(alloc: Global, text: &RuleText) -> Result<Option<RuleBox>, Memory>
    requires { any_function (λ f. not (function_in_range f)) (rule_of text.now) ≡ false }
    ensures some { IfOk result (λ o. IfSome o (λ r. r ≡ rule_from (rule_of text.now))) }
    ensures twice { IfOk result (λ o. is_some o ≡ not (any_function function_is_twice (rule_of text.now))) }
{
    match rule(alloc, text)? {
        Some(rule) => Ok(Some(RuleBox::new(alloc, rule)?)),
        None => Ok(None),
    }
}

/// The first where it fits, else the second.
#[cycle(resolving)]
fn either(alloc: Global, one: &RuleText, other: &RuleText) -> Result<Option<Rule>, Memory>
    requires first { any_function (λ f. not (function_in_range f)) (rule_of one.now) ≡ false }
    requires second { any_function (λ f. not (function_in_range f)) (rule_of other.now) ≡ false }
    ensures some { IfOk result (λ o. IfSome o (λ r.
        values.rule_of r ≡ model.or_else (rule_from (rule_of one.now)) (rule_from (rule_of other.now)))) }
    ensures twice { IfOk result (λ o. is_some o ≡ not (any_function function_is_twice (rule_of one.now)
        || any_function function_is_twice (rule_of other.now))) }
{
    let Some(first) = on_heap(alloc, one)? else {
        return Ok(None);
    };
    match on_heap(alloc, other)? {
        Some(second) => Ok(Some(Rule::OrElse(first, second))),
        None => Ok(None),
    }
}

/// The rules one after the other. Each further rule is one level of recursion more, as it is in the grammar.
#[cycle(resolving)]
fn in_order(alloc: Global, rules: &[RuleText]) -> Result<Option<Rule>, Memory>
    requires { any_function_of (λ f. not (function_in_range f)) (rules_of (map rule_of rules.now)) ≡ false }
    ensures some { IfOk result (λ o. IfSome o (λ r.
        values.rule_of r ≡ rules_from (rules_of (map rule_of rules.now)))) }
    ensures twice { IfOk result (λ o. is_some o
        ≡ not (any_function_of function_is_twice (rules_of (map rule_of rules.now)))) }
{
    match rules {
        [] => Ok(Some(Rule::Nop)),
        [only] => rule(alloc, only),
        [first, later @ ..] => then(alloc, first, later),
    }
}

/// The first and then the others, of which there are some.
#[cycle(resolving)]
fn then(alloc: Global, first: &RuleText, later: &[RuleText]) -> Result<Option<Rule>, Memory>
    requires first { any_function (λ f. not (function_in_range f)) (rule_of first.now) ≡ false }
    requires later { any_function_of (λ f. not (function_in_range f)) (rules_of (map rule_of later.now)) ≡ false }
    ensures some { IfOk result (λ o. IfSome o (λ r. values.rule_of r
        ≡ model.seq (rule_from (rule_of first.now)) (rules_from (rules_of (map rule_of later.now))))) }
    ensures twice { IfOk result (λ o. is_some o ≡ not (any_function function_is_twice (rule_of first.now)
        || any_function_of function_is_twice (rules_of (map rule_of later.now)))) }
{
    let Some(first) = on_heap(alloc, first)? else {
        return Ok(None);
    };
    match in_order(alloc, later)? {
        Some(second) => Ok(Some(Rule::Seq(first, RuleBox::new(alloc, second)?))),
        None => Ok(None),
    }
}
