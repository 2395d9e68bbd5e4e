//! Slots of a record value that was kept with an unknown tag, which is given the fields of a case.
ghost use Rattle.std.specs.Prelude.{◌≡◌, ℕ, List, [], Some, IfOk, OnOk, IsTrue, option_map, map, false, if◌then◌else◌};
ghost use Rattle.std.specs.Map.{keys_of};
ghost use Rattle.mig_model.specs.Const.{const_tree};
ghost use Rattle.mig_model.specs.Names.{Ascends, same_name, is_among, under, others};
ghost use Rattle.mig_model.specs.Template as template;
ghost use Rattle.mig_model.specs.Template.{is_open};
ghost use Rattle.mig_template.specs.View.{field_of};
ghost use Rattle.mig_tree.specs.View.{plain_of};
ghost use Rattle.mig_value.specs.View.{typed_of, slot_of};
ghost use Rattle.mig_slots.specs.Behind.{with_behind};
ghost use Rattle.mig_field.specs.FieldFn.{zero};
ghost use Rattle.mig_field.specs.Act.{by_field};
ghost use Rattle.mig_action.specs.Moves.{learned_value, settled_value};

use crate::edits::{place, take_value_at};
use crate::naming::leaf_of_kind;
use crate::nesting::keep_undeclared;
use crate::{Memory, Slot, Text, Tree, Value};
use mig_template::{Field, Fields, Presence, Rest, Template};
use mig_tree::Kind;
use std::alloc::Global;

/// The zero of a leaf kind: 0, zero bits, the empty text, false, null or the empty array. The kinds of lists and maps have none, and get null.
fn zero<'a>(kind: Kind) -> Tree<'a>
    ensures { plain_of result ≡ const_tree (zero kind) }
{
    match kind {
        Kind::Byte => Tree::Byte(0),
        Kind::Short => Tree::Short(0),
        Kind::Int => Tree::Int(0),
        Kind::Long => Tree::Long(0),
        Kind::Float => Tree::Float(0),
        Kind::Double => Tree::Double(0),
        Kind::Text => Tree::Text(Text::lent(b"")),
        Kind::Bytes => Tree::Bytes(b""),
        Kind::Ints => Tree::Ints(b""),
        Kind::Longs => Tree::Longs(b""),
        Kind::Bool => Tree::Bool(false),
        Kind::Whole => Tree::Whole(0),
        Kind::Null | Kind::List | Kind::Map => Tree::Null,
    }
}

/// The leaf of a kind that stands there, or else its zero, where the field has to be there.
fn settled_leaf<'a>(presence: Presence, kind: Kind, value: Option<Value<'a>>) -> Option<Value<'a>>
    ensures { option_map typed_of result ≡ settled_value (presence, template.leaf kind) (option_map typed_of value.entry) }
{
    let found = match value {
        Some(value) => leaf_of_kind(value, kind),
        None => None,
    };
    match found {
        Some(leaf) => Some(leaf),
        None => match presence {
            Presence::Must => Some(Value::Atom(zero(kind))),
            Presence::May => None,
        },
    }
}

/// What the field has once it is settled.
fn settled_value<'a>(field: &Field, value: Option<Value<'a>>) -> Option<Value<'a>>
    ensures { option_map typed_of result ≡ settled_value (field_of field.now).1 (option_map typed_of value.entry) }
{
    match &field.template {
        Template::Leaf(kind) => settled_leaf(field.presence, *kind, value),
        Template::Any
        | Template::List(_)
        | Template::Point(_)
        | Template::Rec(_)
        | Template::Sum(_, _) => value,
    }
}

/// Takes the value of the name out, and leaves a null there. No slot moves.
fn take_named<'a>(slots: &mut Vec<Slot<'a>>, name: &[u8]) -> Option<Value<'a>>
    requires { Ascends (map slot_of slots.old.items) }
    ensures taken { option_map typed_of result ≡ under name.now (map slot_of slots.old.items) }
    ensures elsewhere { (n : List ℕ) → same_name n name.now ≡ false →
        under n (map slot_of slots.new.items) ≡ under n (map slot_of slots.old.items) }
    ensures others { (xs : List (List ℕ)) → IsTrue (is_among xs name.now) →
        others xs (map slot_of slots.new.items) ≡ others xs (map slot_of slots.old.items) }
    ensures ascend { Ascends (map slot_of slots.new.items) }
{
    match place(slots.as_slice(), name) {
        Ok(at) => Some(take_value_at(slots, at)),
        Err(_) => None,
    }
}

/// Puts the field's value behind the slots, with a name of its own, where there is a value.
fn push_slot<'a>(
    alloc: Global,
    slots: &mut Vec<Slot<'a>>,
    field: &Field,
    value: Option<Value<'a>>,
) -> Result<(), Memory>
    ensures { OnOk result (map slot_of slots.new.items
        ≡ with_behind (field_of field.now).0 (option_map typed_of value.entry) (map slot_of slots.old.items)) }
{
    let Some(value) = value else {
        return Ok(());
    };
    let name = Text::copied(alloc, field.name.bytes())?;
    slots.push(Slot { name, value })?;
    Ok(())
}

/// The slots of the fields, of which the values are taken from those given, and those given, with nulls in their place.
fn taken<'a>(
    alloc: Global,
    fields: &Fields,
    given: Vec<Slot<'a>>,
) -> Result<(Vec<Slot<'a>>, Vec<Slot<'a>>), Memory>
    requires { Ascends (map slot_of given.items) }
    ensures taken { IfOk result (λ p. map slot_of p.0.items ≡ by_field settled_value fields.now (map slot_of given.entry.items)) }
    ensures others { IfOk result (λ p. others (keys_of fields.now) (map slot_of p.1.items)
        ≡ others (keys_of fields.now) (map slot_of given.entry.items)) }
{
    let mut rest = given;
    let mut list = Vec::new(alloc);
    for field in fields.as_slice() {
        let value = take_named(&mut rest, field.name.bytes());
        push_slot(alloc, &mut list, field, settled_value(field, value))?;
    }
    Ok((list, rest))
}

/// The slots of the fields, settled, and what is left of those given: all other names where the rest is open, and none where it is closed.
pub fn settle<'a>(
    alloc: Global,
    fields: &Fields,
    openness: Rest,
    given: Vec<Slot<'a>>,
) -> Result<(Vec<Slot<'a>>, Vec<Slot<'a>>), Memory>
    requires { Ascends (map slot_of given.items) }
    ensures settled { IfOk result (λ p. map slot_of p.0.items
        ≡ by_field settled_value fields.now (map slot_of given.entry.items)) }
    ensures rest { IfOk result (λ p. map slot_of p.1.items
        ≡ (if is_open openness then others (keys_of fields.now) (map slot_of given.entry.items) else [])) }
{
    let (settled, mut rest) = taken(alloc, fields, given)?;
    match openness {
        Rest::Open => {
            keep_undeclared(&mut rest, fields);
            Ok((settled, rest))
        }
        Rest::Closed => {
            drop(rest);
            Ok((settled, Vec::new(alloc)))
        }
    }
}
