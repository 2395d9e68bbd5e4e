//! Small chains: the test, and what their fix does.
ghost use Rattle.std.specs.Prelude.{◌≡◌, ◌&&◌, IfOk, is_some, map, not, option_map, slice_get};
ghost use Rattle.std.specs.List.{list_all};
ghost use Rattle.std.specs.Map.{values_of};
ghost use Rattle.mig_model.specs.Template.{is_open};
ghost use Rattle.mig_template.specs.View.{template_of};
ghost use Rattle.mig_template.specs.View as templates;
ghost use Rattle.mig_func.specs.View.{field_fn_of};
ghost use Rattle.mig_leaf.specs.View.{const_of};
ghost use Rattle.mig_rule.specs.Chain.{fixes};
ghost use Rattle.mig_rule.specs.View.{rule_of};
ghost use Rattle.mig_lift.specs.Small.{is_must_leaf, is_flat_record, is_flat, is_small, rename_parts, add_parts, rule_edits, numbered_edits};
ghost use Rattle.mig_lift.specs.View.{edits_of, numbered_of};

use mig_func::{FieldFn, FieldOp, Fill, Scope};
use mig_leaf::Const;
use mig_rule::{Chain, Fix, Rule};
use mig_schema::Family;
use mig_template::{Field, Presence, Record, Rest, Template};
use mig_tree::{Memory, Name};
use std::alloc::Global;

/// What the fix of a small chain does: one field gets another name, and one is added.
#[derive(Clone, Copy, Debug, Drop)]
pub struct SmallEdits<'c> {
    pub old_name: &'c Name,
    pub new_name: &'c Name,
    pub added: &'c Name,
    pub constant: &'c Const,
}

/// Whether the field has to be there and is a leaf.
fn is_must_leaf(field: &Field) -> bool
    ensures { result ≡ is_must_leaf (templates.field_of field.now).1 }
{
    match &field.template {
        Template::Leaf(_) => field.presence == Presence::Must,
        Template::Any
        | Template::List(_)
        | Template::Point(_)
        | Template::Rec(_)
        | Template::Sum(_, _) => false,
    }
}

/// Whether each of the fields has to be there and is a leaf.
fn are_must_leaves(fields: &[Field]) -> bool
    ensures { result ≡ list_all is_must_leaf (values_of (map templates.field_of fields.now)) }
{
    for field in fields {
        if !is_must_leaf(field) {
            return false;
        }
    }
    true
}

/// Whether it is open and has no choice.
fn is_open_record(record: &Record) -> bool
    ensures { result ≡ (is_open record.now.rest && not (is_some record.now.choice)) }
{
    match record.rest() {
        Rest::Open => record.choice().is_none(),
        Rest::Closed => false,
    }
}

/// Whether it is an open record of such fields, without a choice.
fn is_flat_record(template: &Template) -> bool
    ensures { result ≡ is_flat_record (template_of template.now) }
{
    match template {
        Template::Rec(record) => {
            is_open_record(record) && are_must_leaves(record.fields().as_slice())
        }
        Template::Leaf(_)
        | Template::Any
        | Template::List(_)
        | Template::Point(_)
        | Template::Sum(_, _) => false,
    }
}

/// Whether there is one named type, which is such a record.
fn is_flat(family: &Family) -> bool
    ensures { result ≡ is_flat family.now }
{
    if family.len() != 1 {
        return false;
    }
    match family.body(family.root()) {
        Some(template) => is_flat_record(template),
        None => false,
    }
}

/// The names of a renaming of a common field.
fn rename_parts(function: &FieldFn) -> Option<(&Name, &Name)>
    ensures { option_map (λ x. (x.0.now, x.1.now)) result
        ≡ rename_parts (field_fn_of function.now).scope (field_fn_of function.now).op }
{
    match (&function.scope, &function.op) {
        (Scope::Common, FieldOp::Rename(old_name, new_name)) => Some((old_name, new_name)),
        _ => None,
    }
}

/// The name and the constant of a common field that is added.
fn add_parts(function: &FieldFn) -> Option<(&Name, &Const)>
    ensures { option_map (λ x. (x.0.now, const_of x.1.now)) result
        ≡ add_parts (field_fn_of function.now).scope (field_fn_of function.now).op }
{
    match (&function.scope, &function.op) {
        (Scope::Common, FieldOp::Add(name, Fill::Const(constant))) => Some((name, constant)),
        _ => None,
    }
}

/// The renaming and the addition that the rule is, if it is these.
fn rule_edits(rule: &Rule) -> Option<SmallEdits<'_>>
    ensures { option_map edits_of result ≡ rule_edits (rule_of rule.now) }
{
    let Rule::Seq(first, second) = rule else {
        return None;
    };
    let (Rule::Fn(first), Rule::Fn(second)) = (first.get(), second.get()) else {
        return None;
    };
    let (old_name, new_name) = rename_parts(first)?;
    let (added, constant) = add_parts(second)?;
    Some(SmallEdits {
        old_name,
        new_name,
        added,
        constant,
    })
}

/// The number of the first fix, and the renaming and the addition that it is, if it is these.
pub fn small_fix(chain: &Chain) -> Option<(u32, SmallEdits<'_>)>
    ensures { option_map numbered_of result ≡ numbered_edits (slice_get (fixes chain.now.steps) 0) }
{
    let (number, fix) = chain.fix_at(0)?;
    let Fix::Rule(rule) = fix else {
        return None;
    };
    let edits = rule_edits(rule)?;
    Some((number, edits))
}

/// Whether the chain is small. It takes the memory of the first family.
pub fn is_small(alloc: Global, chain: &Chain) -> Result<bool, Memory>
    ensures { IfOk result (λ small. small ≡ is_small chain.now) }
{
    chain.keeps();
    if chain.schemas() != 2 || chain.fixes() != 1 {
        return Ok(false);
    }
    let Some(_edits) = small_fix(chain) else {
        return Ok(false);
    };
    let family = chain.family(alloc, 0)?;
    Ok(is_flat(&family))
}
