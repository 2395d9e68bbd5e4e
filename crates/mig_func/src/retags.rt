//! Records whose tag has another literal, or one more.
ghost use Rattle.std.specs.Prelude.{◌≡◌, Some, None, true, false, map, IfOk, IfErr};
ghost use Rattle.mig_field.specs.FieldFn.{common, retag, add_case};
ghost use Rattle.mig_field.specs.NewRecord.{new_by, is_easy, are_easy, can_be_settled};
ghost use Rattle.mig_model.specs.Record.{found_case};
ghost use Rattle.mig_template.specs.View.{field_of};
ghost use Rattle.mig_func.specs.New.{IsMisfit, are_clear};

use crate::FuncFault;
use crate::clear::is_clear;
use crate::copies::copy_fields;
use crate::records::{cases_but, copy_cases, with_more};
use mig_template::{Choice, Field, Fields, Presence, Record, Template};
use mig_tree::Name;
use std::alloc::Global;

/// Whether any tree can be given the field: a leaf, which its zero stands for, or any tree that may be away.
fn is_easy(field: &Field) -> bool
    ensures { result ≡ is_easy (field_of field.now).1 }
{
    match &field.template {
        Template::Leaf(kind) => kind.is_leaf(),
        Template::Any => field.presence == Presence::May,
        Template::List(_) | Template::Point(_) | Template::Rec(_) | Template::Sum(_, _) => false,
    }
}

/// Whether each of the fields is easy.
fn are_easy(fields: &[Field]) -> bool
    ensures { result ≡ are_easy (map field_of fields.now) }
{
    for field in fields {
        if !is_easy(field) {
            return false;
        }
    }
    true
}

/// Whether saves that were kept with a tag can be given these fields; where none are kept, nothing is asked.
fn can_be_settled(kept: bool, fields: &[Field]) -> bool
    ensures { result ≡ can_be_settled kept (map field_of fields.now) }
{
    !kept || are_easy(fields)
}

/// The record where the case of the first literal has the second.
fn retag_case(
    alloc: Global,
    on: &Record,
    choice: &Choice,
    fields: &Fields,
    from: &Name,
    to: &Name,
) -> Result<Record, FuncFault>
    requires same { on.now.choice ≡ Some choice.now }
    requires settles { can_be_settled choice.now.2 fields.now ≡ true }
    requires found { found_case from.now on.now.choice ≡ Some fields.now }
    requires apart { found_case to.now on.now.choice ≡ None }
    ensures made { IfOk result (λ r. new_by (retag from.now to.now) common on.now ≡ Some r) }
    ensures misfit { IfErr result (λ e. IsMisfit e (new_by (retag from.now to.now) common on.now ≡ None)) }
{
    on.keeps();
    let list = fields.copy(alloc)?.into_vec();
    let literal = to.copy(alloc)?;
    let cases = cases_but(alloc, choice, from.bytes())?;
    with_more(alloc, on, choice, cases, literal, list)
}

/// The same, where the first literal has a case and the second none, and saves that were kept with the second can be given the case's fields.
pub fn retagged(alloc: Global, on: &Record, from: &Name, to: &Name) -> Result<Record, FuncFault>
    ensures made { IfOk result (λ r. new_by (retag from.now to.now) common on.now ≡ Some r) }
    ensures misfit { IfErr result (λ e. IsMisfit e (new_by (retag from.now to.now) common on.now ≡ None)) }
{
    let Some(choice) = on.choice() else {
        return Err(FuncFault::Misfit);
    };
    let Some(fields) = on.case(from.bytes()) else {
        return Err(FuncFault::Misfit);
    };
    if !can_be_settled(choice.kept(), fields.as_slice()) {
        return Err(FuncFault::Misfit);
    }
    match on.case(to.bytes()) {
        Some(_) => Err(FuncFault::Misfit),
        None => retag_case(alloc, on, choice, fields, from, to),
    }
}

/// Whether each of the templates is clear.
fn are_clear(fields: &[Field]) -> bool
    ensures { result ≡ are_clear (map field_of fields.now) }
{
    for field in fields {
        if !is_clear(&field.template) {
            return false;
        }
    }
    true
}

/// The record with one case more.
fn add_case(
    alloc: Global,
    on: &Record,
    choice: &Choice,
    literal: &Name,
    fields: &[Field],
) -> Result<Record, FuncFault>
    requires same { on.now.choice ≡ Some choice.now }
    requires settles { can_be_settled choice.now.2 (map field_of fields.now) ≡ true }
    requires apart { found_case literal.now on.now.choice ≡ None }
    requires clear { are_clear (map field_of fields.now) ≡ true }
    ensures made { IfOk result (λ r. new_by (add_case literal.now (map field_of fields.now)) common on.now ≡ Some r) }
    ensures misfit { IfErr result (λ e.
        IsMisfit e (new_by (add_case literal.now (map field_of fields.now)) common on.now ≡ None)) }
{
    on.keeps();
    let list = copy_fields(alloc, fields)?;
    let name = literal.copy(alloc)?;
    let cases = copy_cases(alloc, choice)?;
    with_more(alloc, on, choice, cases, name, list)
}

/// The same, where there is a choice, the literal has no case, the sums of the fields are clear, and saves that were kept with the literal can be given the fields.
pub fn with_new_case(
    alloc: Global,
    on: &Record,
    literal: &Name,
    fields: &[Field],
) -> Result<Record, FuncFault>
    ensures made { IfOk result (λ r. new_by (add_case literal.now (map field_of fields.now)) common on.now ≡ Some r) }
    ensures misfit { IfErr result (λ e.
        IsMisfit e (new_by (add_case literal.now (map field_of fields.now)) common on.now ≡ None)) }
{
    let Some(choice) = on.choice() else {
        return Err(FuncFault::Misfit);
    };
    if !can_be_settled(choice.kept(), fields) || !are_clear(fields) {
        return Err(FuncFault::Misfit);
    }
    match on.case(literal.bytes()) {
        Some(_) => Err(FuncFault::Misfit),
        None => add_case(alloc, on, choice, literal, fields),
    }
}
