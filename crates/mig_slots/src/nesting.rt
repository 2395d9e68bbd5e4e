//! Slots that become one record, and a record whose fields become slots.
ghost use Rattle.std.specs.Prelude.{◌≡◌, ◌++◌, ◌∷◌, [], not, map, IfOk, OnOk, option_map, if◌then◌else◌};
ghost use Rattle.std.specs.Map.{keys_of};
ghost use Rattle.mig_model.specs.Names.{Ascends, is_among, under, without, put_all, those, others};
ghost use Rattle.mig_value.specs.View.{typed_of, slot_of};
ghost use Rattle.mig_field.specs.FieldFn as op;
ghost use Rattle.mig_action.specs.Moves.{move, open_record, inner_slots};
ghost use Rattle.mig_slots.specs.View.{moving_of, IsOrdered};

use crate::edits::{drop_slot, put_value, take_value};
use crate::{Memory, Moving, Name, Names, Slot, Value};
use mig_model::sort_by_key;
use mig_template::Fields;
use mig_value::{RecValue, Slots};
use std::alloc::Global;

/// Puts the slot to those whose names are among these, or to the others.
fn put_apart<'a>(
    slot: Slot<'a>,
    names: &Names,
    inside: &mut Vec<Slot<'a>>,
    outside: &mut Vec<Slot<'a>>,
) -> Result<(), Memory>
    ensures inside { OnOk result (inside.new.items
        ≡ (if is_among names.now slot.entry.name then inside.old.items ++ slot.entry ∷ [] else inside.old.items)) }
    ensures outside { OnOk result (outside.new.items
        ≡ (if is_among names.now slot.entry.name then outside.old.items else outside.old.items ++ slot.entry ∷ [])) }
{
    if names.contains(slot.name.bytes()) {
        inside.push(slot)?;
        Ok(())
    } else {
        outside.push(slot)?;
        Ok(())
    }
}

/// The slots whose names are among these, and the others, each in the order in which they stood.
fn parted<'a>(
    alloc: Global,
    slots: Vec<Slot<'a>>,
    names: &Names,
) -> Result<(Vec<Slot<'a>>, Vec<Slot<'a>>), Memory>
    ensures those { IfOk result (λ p. map slot_of p.0.items ≡ those names.now (map slot_of slots.entry.items)) }
    ensures others { IfOk result (λ p. map slot_of p.1.items ≡ others names.now (map slot_of slots.entry.items)) }
{
    let mut inside = Vec::new(alloc);
    let mut outside = Vec::new(alloc);
    for slot in slots {
        put_apart(slot, names, &mut inside, &mut outside)?;
    }
    Ok((inside, outside))
}

/// The value of a record that has these fields alone.
fn open_record<'a>(fields: Vec<Slot<'a>>) -> Value<'a>
    requires { Ascends (map slot_of fields.items) }
    ensures { typed_of result ≡ open_record (map slot_of fields.entry.items) }
{
    Value::Rec(RecValue::of_fields(Slots::new(fields)))
}

/// Moves the fields of these names into a record of their own.
pub fn nest<'a>(
    alloc: Global,
    moving: Moving<'a>,
    xs: &Names,
    y: &Name,
) -> Result<Moving<'a>, Memory>
    requires { IsOrdered (moving_of moving) }
    ensures { IfOk result (λ m. moving_of m ≡ move (op.nest xs.now y.now) [] (moving_of moving.entry)) }
{
    let Moving { slots, mut rest } = moving;
    let (inside, mut outside) = parted(alloc, slots, xs)?;
    put_value(alloc, &mut outside, y.bytes(), open_record(inside))?;
    drop_slot(&mut rest, y.bytes());
    Ok(Moving {
        slots: outside,
        rest,
    })
}

/// Whether the slot's name is none of theirs.
fn is_other(fields: &Slots, slot: &Slot) -> bool
    ensures { result ≡ not (is_among (keys_of fields.now) slot.now.name) }
{
    fields.place(slot.name.bytes()).is_none()
}

/// Keeps the slots whose names aren't among those of the others.
fn keep_others(slots: &mut Vec<Slot>, fields: &Slots)
    ensures { map slot_of slots.new.items ≡ others (keys_of fields.now) (map slot_of slots.old.items) }
{
    slots.retain(|slot| is_other(fields, slot));
}

/// Keeps the slots whose names aren't declared.
pub(crate) fn keep_undeclared(slots: &mut Vec<Slot>, fields: &Fields)
    ensures { map slot_of slots.new.items ≡ others (keys_of fields.now) (map slot_of slots.old.items) }
{
    slots.retain(|slot| !fields.has(slot.name.bytes()));
}

/// The slots with these fields put among them, which stand instead of those of the same names.
fn merged<'a>(mut slots: Vec<Slot<'a>>, fields: Slots<'a>) -> Result<Vec<Slot<'a>>, Memory>
    requires { Ascends (map slot_of slots.items) }
    ensures { IfOk result (λ v. map slot_of v.items ≡ put_all fields.entry (map slot_of slots.entry.items)) }
{
    keep_others(&mut slots, &fields);
    let mut list = fields.into_vec();
    list.append(&mut slots)?;
    sort_by_key(&mut list);
    Ok(list)
}

/// The slots with the fields of the record put among them; a value that is no record has none.
fn with_inner<'a>(
    alloc: Global,
    slots: Vec<Slot<'a>>,
    value: Option<Value<'a>>,
) -> Result<Vec<Slot<'a>>, Memory>
    requires { Ascends (map slot_of slots.items) }
    ensures { IfOk result (λ v. map slot_of v.items
        ≡ put_all (inner_slots (option_map typed_of value.entry)) (map slot_of slots.entry.items)) }
{
    match value {
        Some(Value::Rec(record)) => {
            let (fields, tag, cased, rest) = record.into_parts(alloc);
            drop(tag);
            drop(cased);
            drop(rest);
            merged(slots, fields)
        }
        other => {
            drop(other);
            Ok(slots)
        }
    }
}

/// Moves the fields of the record under the name out of it. What was unknown to it is let go, as are unknown slots of the names that it declares.
pub fn unnest<'a>(
    alloc: Global,
    mut moving: Moving<'a>,
    y: &Name,
    inner: &Fields,
) -> Result<Moving<'a>, Memory>
    requires { IsOrdered (moving_of moving) }
    ensures { let given = moving_of moving.entry in IfOk result (λ m. moving_of m
        ≡ record {
          slots = put_all (inner_slots (under y.now given.slots))
              (without y.now given.slots);
          rest = others (keys_of inner.now) given.rest;
        }) }
{
    let value = take_value(&mut moving.slots, y.bytes());
    keep_undeclared(&mut moving.rest, inner);
    let Moving { slots, rest } = moving;
    let slots = with_inner(alloc, slots, value)?;
    Ok(Moving { slots, rest })
}
