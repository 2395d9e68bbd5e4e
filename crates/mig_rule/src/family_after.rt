//! The family after a fix.
ghost use Rattle.std.specs.Prelude.{◌≡◌, ◌<◌, ◌++◌, Some, Ok, length, map, not, option_map, IfOk, IfErr};
ghost use Rattle.std.specs.List.{slice_get, list_any, filter};
ghost use Rattle.mig_schema.specs.Types.{named_all, named_of};
ghost use Rattle.mig_template.specs.View.{template_of};
ghost use Rattle.mig_rule.specs.Fix.{fits_type, type_after, with_types, if_formed, keeps_kind, next};
ghost use Rattle.mig_rule.specs.Fault.{IsRefused, refused_by};
ghost use Rattle.mig_rule.specs.Rule as model;
ghost use Rattle.mig_model.specs.Family.{first_flaw};
ghost use Rattle.mig_model.specs.Names.{same_name};
ghost use Rattle.mig_leaf.specs.View.{leaf_fn_of};
ghost use Rattle.mig_rule.specs.View.{rule_of, step_of, fix_of};

use crate::names::rule_lacks;
use crate::path::end_kind;
use crate::rewriting::rewritten;
use crate::{Fix, PathStep, Rule, StepFault};
use mig_leaf::LeafFn;
use mig_schema::{Family, SchemaFault};
use mig_template::Template;
use mig_tree::{Kind, Memory, Name};
use std::alloc::Global;

/// The type at the place after the rule, and whether the rule fits it.
fn type_after(
    alloc: Global,
    family: &Family,
    place: usize,
    rule: &Rule,
) -> Result<((Name, Template), bool), Memory>
    requires { place < length family.now.types }
    ensures new { IfOk result (λ x. option_map (type_after (rule_of rule.now)) (slice_get family.now.types place)
        ≡ Some (x.0.0, template_of x.0.1)) }
    ensures fits { IfOk result (λ x. option_map (fits_type (rule_of rule.now)) (slice_get family.now.types place)
        ≡ Some x.1) }
{
    let Some(name) = family.name_at(place) else {
        unreachable!()
    };
    let body = family.body_at(place);
    match rewritten(alloc, rule, name, body)? {
        Some(template) => Ok(((name.copy(alloc)?, template), true)),
        None => Ok(((name.copy(alloc)?, body.copy(alloc)?), false)),
    }
}

/// The types after the rule, in the same order, and whether it fits one of them.
fn types_after(
    alloc: Global,
    family: &Family,
    rule: &Rule,
) -> Result<(Vec<(Name, Template)>, bool), Memory>
    ensures types { IfOk result (λ x. named_all x.0.items ≡ map (type_after (rule_of rule.now)) family.now.types) }
    ensures fits { IfOk result (λ x. x.1 ≡ list_any (fits_type (rule_of rule.now)) family.now.types) }
{
    let mut types = Vec::new(alloc);
    let mut fits = false;
    for place in 0..family.len() {
        let (named, fitting) = type_after(alloc, family, place, rule)?;
        types.push(named)?;
        fits = fits || fitting;
    }
    Ok((types, fits))
}

/// The type at the place.
fn type_at(alloc: Global, family: &Family, place: usize) -> Result<(Name, Template), Memory>
    requires { place < length family.now.types }
    ensures { IfOk result (λ x. slice_get family.now.types place ≡ Some (named_of x)) }
{
    let Some(name) = family.name_at(place) else {
        unreachable!()
    };
    let body = family.body_at(place);
    Ok((name.copy(alloc)?, body.copy(alloc)?))
}

/// The types in the same order.
fn types_of(alloc: Global, family: &Family) -> Result<Vec<(Name, Template)>, Memory>
    ensures { IfOk result (λ x. named_all x.items ≡ family.now.types) }
{
    let mut types = Vec::new(alloc);
    for place in 0..family.len() {
        types.push(type_at(alloc, family, place)?)?;
    }
    Ok(types)
}

/// Whether the type at the place has another name.
fn is_other(family: &Family, place: usize, name: &Name) -> bool
    requires { place < length family.now.types }
    ensures { option_map (λ t. not (same_name name.now t.0)) (slice_get family.now.types place) ≡ Some result }
{
    let Some(own) = family.name_at(place) else {
        unreachable!()
    };
    !name.bytes().cmp(own.bytes()).is_eq()
}

/// The types in the same order, without the one of the name.
fn types_without(
    alloc: Global,
    family: &Family,
    name: &Name,
) -> Result<Vec<(Name, Template)>, Memory>
    ensures { IfOk result (λ x. named_all x.items ≡ filter (λ t. not (same_name name.now t.0)) family.now.types) }
{
    let mut types = Vec::new(alloc);
    for place in 0..family.len() {
        if is_other(family, place, name) {
            types.push(type_at(alloc, family, place)?)?;
        }
    }
    Ok(types)
}

/// What a fault of the family after a fix says of the fix.
fn refused(fault: SchemaFault) -> StepFault
    ensures { result ≡ refused_by fault }
{
    if fault == SchemaFault::Memory {
        StepFault::Memory
    } else {
        StepFault::IllFormed(fault)
    }
}

/// The family with these types, if it is formed.
fn with_types(
    alloc: Global,
    family: &Family,
    types: Vec<(Name, Template)>,
) -> Result<Family, StepFault>
    ensures made { IfOk result (λ f. if_formed (with_types (named_all types.items) family.now) (first_flaw (with_types
        (named_all types.items) family.now)) ≡ Ok f) }
    ensures fault { IfErr result (λ e. IsRefused e (if_formed (with_types (named_all types.items) family.now)
        (first_flaw (with_types (named_all types.items) family.now)))) }
{
    let version = family.version_path().copy(alloc)?;
    let root = family.root().copy(alloc)?;
    match Family::new(alloc, family.form(), version, types, root) {
        Ok(family) => Ok(family),
        Err(fault) => Err(refused(fault)),
    }
}

/// The family after a rule.
fn after_rule(alloc: Global, family: &Family, rule: &Rule) -> Result<Family, StepFault>
    ensures made { IfOk result (λ f. next (model.rule (rule_of rule.now)) family.now ≡ Ok f) }
    ensures fault { IfErr result (λ e. IsRefused e (next (model.rule (rule_of rule.now)) family.now)) }
{
    if rule_lacks(family, rule) {
        return Err(StepFault::NoName);
    }
    let (types, fits) = types_after(alloc, family, rule)?;
    if !fits {
        return Err(StepFault::Missed);
    }
    with_types(alloc, family, types)
}

/// Whether the function fits the kind and gives it again.
fn keeps_kind(function: &LeafFn, kind: Kind) -> bool
    ensures { result ≡ keeps_kind (leaf_fn_of function.now) (Some kind) }
{
    match function.fits(kind) {
        Some(out) => out == kind,
        None => false,
    }
}

/// The family after a deep fix, which is the same.
fn after_deep(
    alloc: Global,
    family: &Family,
    steps: &[PathStep],
    function: &LeafFn,
) -> Result<Family, StepFault>
    ensures made { IfOk result (λ f. next (model.deep (map step_of steps.now) (leaf_fn_of function.now)) family.now
        ≡ Ok f) }
    ensures fault { IfErr result (λ e. IsRefused e (next (model.deep (map step_of steps.now)
        (leaf_fn_of function.now)) family.now)) }
{
    family.keeps();
    let Some(kind) = end_kind(family, steps) else {
        return Err(StepFault::NoName);
    };
    if !keeps_kind(function, kind) {
        return Err(StepFault::Missed);
    }
    Ok(family.copy(alloc)?)
}

/// The family with one more type, the last in order.
fn with_type(
    alloc: Global,
    family: &Family,
    name: &Name,
    template: &Template,
) -> Result<Family, StepFault>
    ensures made { IfOk result (λ f. next (model.new_type name.now (template_of template.now)) family.now ≡ Ok f) }
    ensures fault { IfErr result (λ e. IsRefused e (next (model.new_type name.now
        (template_of template.now)) family.now)) }
{
    if family.is_named(name) {
        return Err(StepFault::NoName);
    }
    let mut types = types_of(alloc, family)?;
    types.push((name.copy(alloc)?, template.copy(alloc)?))?;
    with_types(alloc, family, types)
}

/// The family with one type fewer.
fn without_type(alloc: Global, family: &Family, name: &Name) -> Result<Family, StepFault>
    ensures made { IfOk result (λ f. next (model.drop_type name.now) family.now ≡ Ok f) }
    ensures fault { IfErr result (λ e. IsRefused e (next (model.drop_type name.now) family.now)) }
{
    if name.bytes().cmp(family.root().bytes()).is_eq() || !family.is_named(name) {
        return Err(StepFault::NoName);
    }
    let types = types_without(alloc, family, name)?;
    with_types(alloc, family, types)
}

/// The family after the fix. `NoName`, `Missed` and `IllFormed` come in this order. The rules are this project's own, after DataFixerUpper's.
pub fn next(alloc: Global, family: &Family, fix: &Fix) -> Result<Family, StepFault>
    ensures made { IfOk result (λ f. next (fix_of fix.now) family.now ≡ Ok f) }
    ensures fault { IfErr result (λ e. IsRefused e (next (fix_of fix.now) family.now)) }
{
    match fix {
        Fix::Rule(rule) => after_rule(alloc, family, rule),
        Fix::Deep(steps, function) => after_deep(alloc, family, steps, function),
        Fix::NewType(name, template) => with_type(alloc, family, name, template),
        Fix::DropType(name) => without_type(alloc, family, name),
    }
}
