//! Slots that are found, put and taken out by name.
ghost use Rattle.std.specs.Prelude.{◌≡◌, ◌<◌, length, map, option_map, IfSome, OnOk};
ghost use Rattle.std.specs.List.Sorted.{IsSearchInRange};
ghost use Rattle.std_collections.specs.Layout.BTreeMap.{seek};
ghost use Rattle.mig_model.specs.Names.{Ascends, by_bytes, under, has, without, put};
ghost use Rattle.mig_model.specs.Plain as plain;
ghost use Rattle.mig_value.specs.Places.{value_at, with_value_at};
ghost use Rattle.mig_value.specs.Typed.{atom};
ghost use Rattle.mig_value.specs.View.{typed_of, slot_of};

use crate::{Memory, Slot, Text, Tree, Value};
use mig_model::place_by_key;
use std::alloc::Global;
use std::mem;

/// Where the name is, or where it would go. It takes log n comparisons.
pub(crate) fn place(slots: &[Slot], name: &[u8]) -> Result<usize, usize>
    requires { Ascends (map slot_of slots.now) }
    ensures bound { IsSearchInRange result (length slots.now) }
    ensures place { result ≡ seek (by_bytes name.now) (map slot_of slots.now) }
{
    place_by_key(slots, name)
}

/// Whether a slot has the name. It takes log n comparisons.
pub(crate) fn has_slot(slots: &[Slot], name: &[u8]) -> bool
    requires { Ascends (map slot_of slots.now) }
    ensures { result ≡ has name.now (map slot_of slots.now) }
{
    place(slots, name).is_ok()
}

/// Takes the slot of the name out. The slots behind it move up.
pub(crate) fn take_slot<'a>(slots: &mut Vec<Slot<'a>>, name: &[u8]) -> Option<Slot<'a>>
    requires { Ascends (map slot_of slots.old.items) }
    ensures taken { option_map (λ s. typed_of s.value) result ≡ under name.now (map slot_of slots.old.items) }
    ensures named { IfSome result (λ s. s.name ≡ name.now) }
    ensures rest { map slot_of slots.new.items ≡ without name.now (map slot_of slots.old.items) }
    ensures ascend { Ascends (map slot_of slots.new.items) }
{
    match place(slots.as_slice(), name) {
        Ok(at) => Some(slots.remove(at)),
        Err(_) => None,
    }
}

/// Takes the slot of the name out, and lets it go.
pub(crate) fn drop_slot(slots: &mut Vec<Slot>, name: &[u8])
    requires { Ascends (map slot_of slots.old.items) }
    ensures rest { map slot_of slots.new.items ≡ without name.now (map slot_of slots.old.items) }
    ensures ascend { Ascends (map slot_of slots.new.items) }
{
    let slot = take_slot(slots, name);
    drop(slot);
}

/// Takes the value of the name out, and lets its name go.
pub(crate) fn take_value<'a>(slots: &mut Vec<Slot<'a>>, name: &[u8]) -> Option<Value<'a>>
    requires { Ascends (map slot_of slots.old.items) }
    ensures taken { option_map typed_of result ≡ under name.now (map slot_of slots.old.items) }
    ensures rest { map slot_of slots.new.items ≡ without name.now (map slot_of slots.old.items) }
    ensures ascend { Ascends (map slot_of slots.new.items) }
{
    match take_slot(slots, name) {
        Some(slot) => {
            let Slot { name, value } = slot;
            drop(name);
            Some(value)
        }
        None => None,
    }
}

/// Puts the slot at its place, instead of one of its name.
pub(crate) fn put_slot<'a>(slots: &mut Vec<Slot<'a>>, slot: Slot<'a>) -> Result<(), Memory>
    requires { Ascends (map slot_of slots.old.items) }
    ensures put { OnOk result (map slot_of slots.new.items
        ≡ put slot.entry.name (typed_of slot.entry.value) (map slot_of slots.old.items)) }
    ensures ascend { OnOk result (Ascends (map slot_of slots.new.items)) }
{
    match place(slots.as_slice(), slot.name.bytes()) {
        Ok(at) => {
            let old = mem::replace(&mut slots[at], slot);
            drop(old);
            Ok(())
        }
        Err(at) => {
            slots.insert(at, slot)?;
            Ok(())
        }
    }
}

/// Puts the value at the place of the name, of which it makes a copy, instead of what stands there.
pub(crate) fn put_value<'a>(
    alloc: Global,
    slots: &mut Vec<Slot<'a>>,
    name: &[u8],
    value: Value<'a>,
) -> Result<(), Memory>
    requires { Ascends (map slot_of slots.old.items) }
    ensures put { OnOk result (map slot_of slots.new.items
        ≡ put name.now (typed_of value.entry) (map slot_of slots.old.items)) }
    ensures ascend { OnOk result (Ascends (map slot_of slots.new.items)) }
{
    let name = Text::copied(alloc, name)?;
    put_slot(slots, Slot { name, value })
}

/// Takes the value at a place out, and leaves a null there. No slot moves.
pub(crate) fn take_value_at<'a>(slots: &mut Vec<Slot<'a>>, at: usize) -> Value<'a>
    requires { at < length slots.old.items }
    ensures value { typed_of result ≡ value_at at (map slot_of slots.old.items) }
    ensures rest { map slot_of slots.new.items ≡ with_value_at at (atom plain.null) (map slot_of slots.old.items) }
    ensures len { length slots.new.items ≡ length slots.old.items }
{
    mem::replace(&mut slots[at].value, Value::Atom(Tree::Null))
}

/// Puts the value at a place, and lets go what was there. No slot moves.
pub(crate) fn set_value_at<'a>(slots: &mut Vec<Slot<'a>>, at: usize, value: Value<'a>)
    requires { at < length slots.old.items }
    ensures { map slot_of slots.new.items ≡ with_value_at at (typed_of value.entry) (map slot_of slots.old.items) }
{
    let old = mem::replace(&mut slots[at].value, value);
    drop(old);
}
