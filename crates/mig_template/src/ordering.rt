//! Fields that are given in any order.
ghost use Rattle.std.specs.Prelude.{◌≡◌, map, false, true, IsTrue, IfSome, IfNone};
ghost use Rattle.std.specs.Map.{keys_of};
ghost use Rattle.mig_model.specs.Names.{has_twice};
ghost use Rattle.mig_model.specs.Template.{fields_of};
ghost use Rattle.mig_model.specs.Record.{IsOrderOf};
ghost use Rattle.mig_model.specs.TemplateKept.{FieldsKept};
ghost use Rattle.mig_template.specs.View.{field_of};

use crate::{Field, Fields};
use mig_model::{ascends, sort_by_key};

/// Tells what the templates of the fields keep. It is called in a `prove!`, and costs nothing at run time.
fn fields_are_kept(list: &[Field]) -> bool
    ensures always { IsTrue result }
    ensures kept { FieldsKept (fields_of (map field_of list.now)) }
{
    for field in list {
        field.template.keeps();
    }
    true
}

/// The fields in the order of their names, and `None` where two names are equal. It sorts in place.
pub fn order_fields(mut list: Vec<Field>) -> Option<Fields>
    ensures found { IfSome result (IsOrderOf (map field_of list.items)) }
    ensures keep { IfSome result (λ fs. FieldsKept (fields_of fs)) }
    ensures once { IfSome result (λ fs. has_twice (keys_of (map field_of list.items)) ≡ false) }
    ensures twice { IfNone result (has_twice (keys_of (map field_of list.items)) ≡ true) }
{
    sort_by_key(&mut list);
    if !ascends(&list) {
        drop(list);
        return None;
    }
    prove!(fields_are_kept(&list));
    Some(Fields::new(list))
}
