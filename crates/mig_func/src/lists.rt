//! Lists of fields without some, or with one more.
ghost use Rattle.std.specs.Prelude.{◌≡◌, ◌∷◌, ◌++◌, [], IfOk, map};
ghost use Rattle.mig_model.specs.Names.{without, those, others, same_name, Ascends};
ghost use Rattle.mig_template.specs.View.{template_of, field_of};

use crate::Names;
use crate::copies::copy_field;
use mig_template::{Field, Fields, Presence, Template};
use mig_tree::{Memory, Name};
use std::alloc::Global;
use std::cmp::Ordering;

/// Whether the field has the name.
fn is_named(field: &Field, name: &[u8]) -> bool
    ensures { result ≡ same_name field.now.name name.now }
{
    field.name.bytes().cmp(name) == Ordering::Equal
}

/// Copies of the fields but the one of the name.
pub fn all_but(alloc: Global, fields: &Fields, name: &[u8]) -> Result<Vec<Field>, Memory>
    ensures list { IfOk result (λ es. map field_of es.items ≡ without name.now fields.now) }
    ensures ascend { IfOk result (λ es. Ascends fields.now) }
{
    let mut list = Vec::new(alloc);
    for field in fields.as_slice() {
        if !is_named(field, name) {
            list.push(copy_field(alloc, field)?)?;
        }
    }
    Ok(list)
}

/// Copies of the fields of the names.
pub fn those(alloc: Global, fields: &Fields, names: &Names) -> Result<Vec<Field>, Memory>
    ensures list { IfOk result (λ es. map field_of es.items ≡ those names.now fields.now) }
    ensures ascend { IfOk result (λ es. Ascends fields.now) }
{
    let mut list = Vec::new(alloc);
    for field in fields.as_slice() {
        if names.contains(field.name.bytes()) {
            list.push(copy_field(alloc, field)?)?;
        }
    }
    Ok(list)
}

/// Copies of all other fields.
pub fn others(alloc: Global, fields: &Fields, names: &Names) -> Result<Vec<Field>, Memory>
    ensures list { IfOk result (λ es. map field_of es.items ≡ others names.now fields.now) }
    ensures ascend { IfOk result (λ es. Ascends fields.now) }
{
    let mut list = Vec::new(alloc);
    for field in fields.as_slice() {
        if !names.contains(field.name.bytes()) {
            list.push(copy_field(alloc, field)?)?;
        }
    }
    Ok(list)
}

/// Copies of the fields but the one that goes, and this field behind them.
pub fn replaced(
    alloc: Global,
    fields: &Fields,
    out: &Name,
    name: &Name,
    presence: Presence,
    template: Template,
) -> Result<Vec<Field>, Memory>
    ensures list { IfOk result (λ es. map field_of es.items
        ≡ without out.now fields.now ++ (name.now, (presence, template_of template)) ∷ []) }
    ensures ascend { IfOk result (λ es. Ascends fields.now) }
{
    let name = name.copy(alloc)?;
    let mut list = all_but(alloc, fields, out.bytes())?;
    list.push(Field {
        name,
        presence,
        template,
    })?;
    Ok(list)
}

/// Copies of the fields, and this field behind them.
pub fn appended(
    alloc: Global,
    fields: &Fields,
    name: &Name,
    presence: Presence,
    template: Template,
) -> Result<Vec<Field>, Memory>
    ensures list { IfOk result (λ es. map field_of es.items
        ≡ fields.now ++ (name.now, (presence, template_of template)) ∷ []) }
    ensures ascend { IfOk result (λ es. Ascends fields.now) }
{
    let name = name.copy(alloc)?;
    let mut list = fields.copy(alloc)?.into_vec();
    list.push(Field {
        name,
        presence,
        template,
    })?;
    Ok(list)
}
