//! Copies of fields.
ghost use Rattle.std.specs.Prelude.{◌≡◌, IfOk, map};
ghost use Rattle.mig_template.specs.View.{field_of};

use mig_template::Field;
use mig_tree::Memory;
use std::alloc::Global;

/// An equal field.
pub fn copy_field(alloc: Global, field: &Field) -> Result<Field, Memory>
    ensures { IfOk result (λ f. field_of f ≡ field_of field.now) }
{
    Ok(Field {
        name: field.name.copy(alloc)?,
        presence: field.presence,
        template: field.template.copy(alloc)?,
    })
}

/// Equal fields, in the same order.
pub fn copy_fields(alloc: Global, fields: &[Field]) -> Result<Vec<Field>, Memory>
    ensures { IfOk result (λ fs. map field_of fs.items ≡ map field_of fields.now) }
{
    let mut list = Vec::new(alloc);
    for field in fields {
        list.push(copy_field(alloc, field)?)?;
    }
    Ok(list)
}
