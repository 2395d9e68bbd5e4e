//! The new fields of the other functions.
ghost use Rattle.std.specs.Prelude.{◌≡◌, None, IfOk, IfErr, map};
ghost use Rattle.mig_field.specs.FieldFn.{rename, drop, add, learn, forget};
ghost use Rattle.mig_field.specs.NewRecord.{at_field};
ghost use Rattle.mig_model.specs.declared.rest.Rest as rests;
ghost use Rattle.mig_model.specs.Template.{is_open};
ghost use Rattle.mig_template.specs.View.{field_of};
ghost use Rattle.mig_func.specs.New.{IsMisfit, Offers, Refuses, OffersList};
ghost use Rattle.mig_func.specs.Slot.{slot_after};
ghost use Rattle.mig_func.specs.View.{fill_of, field_op_of};

use crate::clear::is_clear;
use crate::lists::{all_but, appended, replaced};
use crate::slots::{can_be_learned, learned, slot_after};
use crate::{FieldOp, Fill, FuncFault};
use mig_template::{Field, Fields, Presence, Rest};
use mig_tree::{Kind, Name};
use std::alloc::Global;

/// What stands under the first name stands under the second.
pub fn rename_field(
    alloc: Global,
    fields: &Fields,
    from: &Name,
    to: &Name,
) -> Result<Vec<Field>, FuncFault>
    ensures offers { IfOk result (λ es. (r : rests.Rest) →
        Offers (rename from.now to.now) r fields.now (map field_of es.items)) }
    ensures misfit { IfErr result (λ e. IsMisfit e ((r : rests.Rest) → Refuses (rename from.now to.now) r fields.now)) }
{
    let Some(field) = fields.get(from.bytes()) else {
        return Err(FuncFault::Misfit);
    };
    if fields.has(to.bytes()) {
        return Err(FuncFault::Misfit);
    }
    let template = field.template.copy(alloc)?;
    let list = replaced(alloc, fields, from, to, field.presence, template)?;
    Ok(list)
}

/// The fields without the one of the name.
pub fn drop_field(alloc: Global, fields: &Fields, name: &Name) -> Result<Vec<Field>, FuncFault>
    ensures offers { IfOk result (λ es. (r : rests.Rest) →
        Offers (drop name.now) r fields.now (map field_of es.items)) }
    ensures misfit { IfErr result (λ e. IsMisfit e ((r : rests.Rest) → Refuses (drop name.now) r fields.now)) }
{
    if !fields.has(name.bytes()) {
        return Err(FuncFault::Misfit);
    }
    let list = all_but(alloc, fields, name.bytes())?;
    Ok(list)
}

/// The same, where the record is open.
pub fn forget_field(
    alloc: Global,
    fields: &Fields,
    rest: Rest,
    name: &Name,
) -> Result<Vec<Field>, FuncFault>
    ensures offers { IfOk result (λ es. Offers (forget name.now) rest fields.now (map field_of es.items)) }
    ensures misfit { IfErr result (λ e. IsMisfit e (Refuses (forget name.now) rest fields.now)) }
{
    if !is_open(rest) {
        return Err(FuncFault::Misfit);
    }
    if !fields.has(name.bytes()) {
        return Err(FuncFault::Misfit);
    }
    let list = all_but(alloc, fields, name.bytes())?;
    Ok(list)
}

/// Whether other names may stand there.
fn is_open(rest: Rest) -> bool
    ensures { result ≡ is_open rest }
{
    rest == Rest::Open
}

/// The fields and one that each map gets.
pub fn add_field(
    alloc: Global,
    fields: &Fields,
    name: &Name,
    fill: &Fill,
) -> Result<Vec<Field>, FuncFault>
    ensures offers { IfOk result (λ es. (r : rests.Rest) →
        Offers (add name.now (fill_of fill.now)) r fields.now (map field_of es.items)) }
    ensures misfit { IfErr result (λ e. IsMisfit e ((r : rests.Rest) →
        Refuses (add name.now (fill_of fill.now)) r fields.now)) }
{
    let template = fill.template(alloc)?;
    if !is_clear(&template) {
        drop(template);
        return Err(FuncFault::Misfit);
    }
    let list = appended(alloc, fields, name, Presence::Must, template)?;
    Ok(list)
}

/// The fields and one that open maps may have had already.
pub fn with_learned(
    alloc: Global,
    fields: &Fields,
    rest: Rest,
    name: &Name,
    kind: Option<Kind>,
) -> Result<Vec<Field>, FuncFault>
    ensures offers { IfOk result (λ es. Offers (learn name.now kind) rest fields.now (map field_of es.items)) }
    ensures misfit { IfErr result (λ e. IsMisfit e (Refuses (learn name.now kind) rest fields.now)) }
{
    if !is_open(rest) {
        return Err(FuncFault::Misfit);
    }
    if !can_be_learned(kind) {
        return Err(FuncFault::Misfit);
    }
    let list = appended(alloc, fields, name, Presence::May, learned(kind))?;
    Ok(list)
}

/// The fields with the operation done to the one of the name alone.
pub fn at_field(
    alloc: Global,
    op: &FieldOp,
    fields: &Fields,
    name: &Name,
) -> Result<Vec<Field>, FuncFault>
    ensures offers { IfOk result (λ es.
        OffersList (at_field name.now (slot_after (field_op_of op.now)) fields.now) fields.now
        (map field_of es.items)) }
    ensures misfit { IfErr result (λ e. IsMisfit e (at_field name.now (slot_after (field_op_of op.now)) fields.now
        ≡ None)) }
{
    let Some(field) = fields.get(name.bytes()) else {
        return Err(FuncFault::Misfit);
    };
    let (presence, template) = slot_after(alloc, op, field)?;
    let list = replaced(alloc, fields, name, name, presence, template)?;
    Ok(list)
}
