//! Whether a template is deeper than it may be.
ghost use Rattle.std.specs.Prelude.{◌≡◌, nat_lt};
ghost use Rattle.mig_model.specs.Family.{nests, fields_nest, cases_nest};
ghost use Rattle.mig_model.specs.Template.{fields_of, cases_of};
ghost use Rattle.mig_template.specs.View.{template_of};

use crate::Template;
use mig_template::{Choice, Fields};

/// Whether it nests more templates than `room`, itself counted. It goes down at most so far.
#[cycle(depth)]
pub fn is_deeper(template: &Template, room: usize) -> bool
    ensures { result ≡ nat_lt room (nests (template_of template.now)) }
{
    if room == 0 {
        return true;
    }
    let room = room - 1;
    match template {
        Template::Leaf(_) | Template::Any | Template::Point(_) => false,
        Template::List(part) => is_deeper(part.get(), room),
        Template::Rec(record) => {
            if is_any_field_deeper(record.fields(), room) {
                return true;
            }
            match record.choice() {
                Some(choice) => is_any_case_deeper(choice, room),
                None => false,
            }
        }
        Template::Sum(left, right) => is_deeper(left.get(), room) || is_deeper(right.get(), room),
    }
}

/// Whether a field's template nests more than `room`.
#[cycle(depth)]
fn is_any_field_deeper(fields: &Fields, room: usize) -> bool
    ensures { result ≡ nat_lt room (fields_nest (fields_of fields.now)) }
{
    for field in fields.as_slice() {
        if is_deeper(&field.template, room) {
            return true;
        }
    }
    false
}

/// Whether the template of a case's field nests more than `room`.
#[cycle(depth)]
fn is_any_case_deeper(choice: &Choice, room: usize) -> bool
    ensures { result ≡ nat_lt room (cases_nest (cases_of choice.now.1)) }
{
    for case in choice.cases() {
        if is_any_field_deeper(&case.fields, room) {
            return true;
        }
    }
    false
}
