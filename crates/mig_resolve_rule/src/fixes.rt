//! Fixes out of their syntax, and what may be wrong with them.
ghost use Rattle.std.specs.Prelude.{◌≡◌, true, false, not, is_some, map, IfOk, IfSome};
ghost use Rattle.mig_resolve_rule.specs.Rules.{step_from, fix_from, fix_is_wrong, fix_is_out_of_range, fix_is_twice, fix_is_deep};
ghost use Rattle.mig_resolve_template.specs.Constants.{leaf_from, leaf_in_range, leaf_is_twice};
ghost use Rattle.mig_resolve_template.specs.Templates.{template_from, template_is_twice};
ghost use Rattle.mig_rule.specs.Rule as model;
ghost use Rattle.mig_rule.specs.View as values;
ghost use Rattle.mig_syntax.specs.DeclView.{step_of, fix_of};
ghost use Rattle.mig_syntax.specs.RuleView.{leaf_of};
ghost use Rattle.mig_syntax.specs.TemplateView.{template_of};

use crate::faults::MOST_LEVELS;
use crate::rules::rule;
use crate::walk::{rule_is_deep, rule_is_out_of_range, rule_is_wrong};
use mig_model::{Form, Memory, Name};
use mig_resolve_template::{
    leaf_function, leaf_in_range, leaf_is_wrong, nests_above, template, template_is_wrong,
};
use mig_rule::{Fix, PathStep};
use mig_syntax::{FixText, LeafText, StepText, TemplateText};
use std::alloc::Global;

/// Whether a kind word in the fix is no leaf kind of the form.
pub fn fix_is_wrong(form: Form, change: &FixText) -> bool
    ensures { result ≡ fix_is_wrong form (fix_of change.now) }
{
    match change {
        FixText::NewType(_, template) => template_is_wrong(form, template),
        FixText::DropType(_) => false,
        FixText::Deep(_, function) => leaf_is_wrong(form, function),
        FixText::Rule(rule) => rule_is_wrong(form, rule),
    }
}

/// Whether a number in the fix is outside the range of its place.
pub fn fix_is_out_of_range(change: &FixText) -> bool
    ensures { result ≡ fix_is_out_of_range (fix_of change.now) }
{
    match change {
        FixText::NewType(_, _) | FixText::DropType(_) => false,
        FixText::Deep(_, function) => !leaf_in_range(function),
        FixText::Rule(rule) => rule_is_out_of_range(rule),
    }
}

/// Whether a template that the fix brings nests too deep.
pub fn fix_is_deep(change: &FixText) -> bool
    ensures { result ≡ fix_is_deep (fix_of change.now) }
{
    match change {
        FixText::NewType(_, template) => nests_above(MOST_LEVELS, template),
        FixText::DropType(_) | FixText::Deep(_, _) => false,
        FixText::Rule(rule) => rule_is_deep(rule),
    }
}

/// The step that the syntax stands for.
fn step(alloc: Global, text: &StepText) -> Result<PathStep, Memory>
    ensures { IfOk result (λ s. values.step_of s ≡ step_from (step_of text.now)) }
{
    Ok(match text {
        StepText::Named(name) => PathStep::Named(name.copy(alloc)?),
        StepText::Each => PathStep::Each,
        StepText::Left => PathStep::Left,
        StepText::Right => PathStep::Right,
        StepText::Case(literal) => PathStep::Case(literal.copy(alloc)?),
    })
}

/// The steps of a path, in order.
fn steps(alloc: Global, texts: &[StepText]) -> Result<Vec<PathStep>, Memory>
    ensures { IfOk result (λ list. map values.step_of list.items ≡ map step_from (map step_of texts.now)) }
{
    let mut list = Vec::new(alloc);
    for text in texts {
        list.push(step(alloc, text)?)?;
    }
    Ok(list)
}

/// A leaf function at the end of a path.
fn deep(alloc: Global, path: &[StepText], text: &LeafText) -> Result<Option<Fix>, Memory>
    requires { leaf_in_range (leaf_of text.now) ≡ true }
    ensures some { IfOk result (λ o. IfSome o (λ x. values.fix_of x
        ≡ model.deep (map step_from (map step_of path.now)) (leaf_from (leaf_of text.now)))) }
    ensures twice { IfOk result (λ o. is_some o ≡ not (leaf_is_twice (leaf_of text.now))) }
{
    match leaf_function(alloc, text)? {
        Some(function) => Ok(Some(Fix::Deep(steps(alloc, path)?, function))),
        None => Ok(None),
    }
}

/// A named type more.
fn new_type(alloc: Global, name: &Name, text: &TemplateText) -> Result<Option<Fix>, Memory>
    ensures some { IfOk result (λ o. IfSome o (λ x. values.fix_of x
        ≡ model.new_type name.now (template_from (template_of text.now)))) }
    ensures twice { IfOk result (λ o. is_some o ≡ not (template_is_twice (template_of text.now))) }
{
    match template(alloc, text)? {
        Some(body) => Ok(Some(Fix::NewType(name.copy(alloc)?, body))),
        None => Ok(None),
    }
}

/// The fix that the syntax stands for, where its numbers are in the ranges of their places; `None` exactly where names in it that must be distinct
/// aren't.
pub fn fix(alloc: Global, change: &FixText) -> Result<Option<Fix>, Memory>
    requires { fix_is_out_of_range (fix_of change.now) ≡ false }
    ensures some { IfOk result (λ o. IfSome o (λ x. values.fix_of x ≡ fix_from (fix_of change.now))) }
    ensures twice { IfOk result (λ o. is_some o ≡ not (fix_is_twice (fix_of change.now))) }
{
    match change {
        FixText::NewType(name, template) => new_type(alloc, name, template),
        FixText::DropType(name) => Ok(Some(Fix::DropType(name.copy(alloc)?))),
        FixText::Deep(path, function) => deep(alloc, path, function),
        FixText::Rule(text) => match rule(alloc, text)? {
            Some(rule) => Ok(Some(Fix::Rule(rule))),
            None => Ok(None),
        },
    }
}
