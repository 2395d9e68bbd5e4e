//! The template that a rule makes of another.
ghost use Rattle.std.specs.Prelude.{◌≡◌, Some, None, IfOk, IfErr, option_map};
ghost use Rattle.mig_template.specs.View.{template_of};
ghost use Rattle.mig_func.specs.View.{field_fn_of};
ghost use Rattle.mig_rule.specs.Fault.{IsFault};
ghost use Rattle.mig_rule.specs.Rule as model;
ghost use Rattle.mig_rule.specs.Target.{new_template, target};
ghost use Rattle.mig_rule.specs.View.{rule_of};

use crate::levels::levels;
use crate::retyping::{all_children, everywhere, places};
use crate::{Rule, TargetFault};
use mig_func::{FieldFn, FuncFault};
use mig_template::Template;
use mig_tree::{Memory, Name};
use std::alloc::Global;

/// The template of a record that the function fits.
fn by_function(
    alloc: Global,
    function: &FieldFn,
    template: &Template,
) -> Result<Option<Template>, Memory>
    ensures { IfOk result (λ x. option_map template_of x ≡ new_template (field_fn_of function.now)
        (template_of template.now)) }
{
    let Template::Rec(record) = template else {
        return Ok(None);
    };
    match function.target(alloc, record) {
        Ok(record) => Ok(Some(Template::Rec(record))),
        Err(FuncFault::Misfit) => Ok(None),
        Err(FuncFault::Memory) => Err(Memory),
    }
}

/// The rule at each child that it fits.
#[cycle(rewriting)]
fn in_children(
    alloc: Global,
    rule: &Rule,
    name: &Name,
    template: &Template,
) -> Result<Option<Template>, Memory>
    ensures { IfOk result (λ x. option_map template_of x ≡ target (model.all (rule_of rule.now)) name.now
        (template_of template.now)) }
{
    let retype = |part: &Template|
        ensures { IfOk result (λ x. option_map template_of x ≡ target (rule_of rule.entry.now) name.entry.now
            (template_of part.now)) }
    { rewritten(alloc, rule, name, part) };
    all_children(alloc, &retype, template)
}

/// The rule at each part that it fits, from below.
#[cycle(rewriting)]
fn in_all_parts(
    alloc: Global,
    rule: &Rule,
    name: &Name,
    template: &Template,
) -> Result<Option<Template>, Memory>
    ensures { IfOk result (λ x. option_map template_of x ≡ target (model.everywhere (rule_of rule.now)) name.now
        (template_of template.now)) }
{
    let most = levels(template)?;
    let retype = |part: &Template|
        ensures { IfOk result (λ x. option_map template_of x ≡ target (rule_of rule.entry.now) name.entry.now
            (template_of part.now)) }
    { rewritten(alloc, rule, name, part) };
    everywhere(alloc, &retype, most, template)
}

/// The rule at each place of the name, all of which it has to fit.
#[cycle(rewriting)]
fn at_places(
    alloc: Global,
    place: &Name,
    rule: &Rule,
    name: &Name,
    template: &Template,
) -> Result<Option<Template>, Memory>
    ensures { IfOk result (λ x. option_map template_of x ≡ target (model.at place.now (rule_of rule.now)) name.now
        (template_of template.now)) }
{
    let most = levels(template)?;
    let retype = |part: &Template|
        ensures { IfOk result (λ x. option_map template_of x ≡ target (rule_of rule.entry.now) name.entry.now
            (template_of part.now)) }
    { rewritten(alloc, rule, name, part) };
    let outcome = places(alloc, &retype, place, most, template)?;
    Ok(outcome.changed())
}

/// The first rule and then the second.
#[cycle(rewriting)]
fn in_turn(
    alloc: Global,
    first: &Rule,
    second: &Rule,
    name: &Name,
    template: &Template,
) -> Result<Option<Template>, Memory>
    ensures { IfOk result (λ x. option_map template_of x ≡ target (model.seq (rule_of first.now)
        (rule_of second.now)) name.now (template_of template.now)) }
{
    match rewritten(alloc, first, name, template)? {
        Some(template) => rewritten(alloc, second, name, &template),
        None => Ok(None),
    }
}

/// The first rule where it fits, else the second.
#[cycle(rewriting)]
fn by_either(
    alloc: Global,
    first: &Rule,
    second: &Rule,
    name: &Name,
    template: &Template,
) -> Result<Option<Template>, Memory>
    ensures { IfOk result (λ x. option_map template_of x ≡ target (model.or_else (rule_of first.now)
        (rule_of second.now)) name.now (template_of template.now)) }
{
    match rewritten(alloc, first, name, template)? {
        Some(template) => Ok(Some(template)),
        None => rewritten(alloc, second, name, template),
    }
}

/// The rule at the named type of one name alone.
#[cycle(rewriting)]
fn at_type(
    alloc: Global,
    only: &Name,
    rule: &Rule,
    name: &Name,
    template: &Template,
) -> Result<Option<Template>, Memory>
    ensures { IfOk result (λ x. option_map template_of x ≡ target (model.on only.now (rule_of rule.now)) name.now
        (template_of template.now)) }
{
    if name.bytes().cmp(only.bytes()).is_eq() {
        rewritten(alloc, rule, name, template)
    } else {
        Ok(None)
    }
}

/// The template after the rule, and `None` where it doesn't fit.
#[cycle(rewriting)]
pub fn rewritten(
    alloc: Global,
    rule: &Rule,
    name: &Name,
    template: &Template,
) -> Result<Option<Template>, Memory>
    ensures { IfOk result (λ x. option_map template_of x ≡ target (rule_of rule.now) name.now
        (template_of template.now)) }
{
    match rule {
        Rule::Nop => Ok(Some(template.copy(alloc)?)),
        Rule::Fn(function) => by_function(alloc, function, template),
        Rule::On(only, rule) => at_type(alloc, only, rule.get(), name, template),
        Rule::At(place, rule) => at_places(alloc, place, rule.get(), name, template),
        Rule::Seq(first, second) => in_turn(alloc, first.get(), second.get(), name, template),
        Rule::OrElse(first, second) => by_either(alloc, first.get(), second.get(), name, template),
        Rule::All(rule) => in_children(alloc, rule.get(), name, template),
        Rule::Everywhere(rule) => in_all_parts(alloc, rule.get(), name, template),
    }
}

/// The new template of a part of the body of the named type. `Unfit` comes exactly where the rule doesn't fit. The rules are this project's own, after DataFixerUpper's.
pub fn target(
    alloc: Global,
    rule: &Rule,
    name: &Name,
    template: &Template,
) -> Result<Template, TargetFault>
    ensures made { IfOk result (λ t. target (rule_of rule.now) name.now (template_of template.now)
        ≡ Some (template_of t)) }
    ensures unfit { IfErr result (λ e. IsFault e (target (rule_of rule.now) name.now (template_of template.now)
        ≡ None)) }
{
    match rewritten(alloc, rule, name, template) {
        Ok(Some(template)) => Ok(template),
        Ok(None) => Err(TargetFault::Unfit),
        Err(Memory) => Err(TargetFault::Memory),
    }
}
