//! Slots that get another name, and slots that are forgotten or learned.
ghost use Rattle.std.specs.Prelude.{◌≡◌, [], IfOk, option_map};
ghost use Rattle.mig_value.specs.View.{typed_of};
ghost use Rattle.mig_field.specs.FieldFn as op;
ghost use Rattle.mig_action.specs.Moves.{move, learned_value};
ghost use Rattle.mig_slots.specs.View.{moving_of, IsOrdered};

use crate::edits::{drop_slot, put_slot, put_value, take_slot, take_value};
use crate::{Memory, Moving, Name, Slot, Value};
use mig_tree::Kind;
use std::alloc::Global;

/// Moves the slot of one name to another, which nothing else keeps.
pub fn rename<'a>(
    alloc: Global,
    mut moving: Moving<'a>,
    x: &Name,
    y: &Name,
) -> Result<Moving<'a>, Memory>
    requires { IsOrdered (moving_of moving) }
    ensures { IfOk result (λ m. moving_of m ≡ move (op.rename x.now y.now) [] (moving_of moving.entry)) }
{
    let taken = take_value(&mut moving.slots, x.bytes());
    drop_slot(&mut moving.slots, y.bytes());
    drop_slot(&mut moving.rest, y.bytes());
    match taken {
        Some(value) => {
            put_value(alloc, &mut moving.slots, y.bytes(), value)?;
            Ok(moving)
        }
        None => Ok(moving),
    }
}

/// The value's leaf, where it has the kind; any other value is let go.
pub(crate) fn leaf_of_kind<'a>(value: Value<'a>, kind: Kind) -> Option<Value<'a>>
    ensures { option_map typed_of result ≡ learned_value (Some kind) (typed_of value.entry) }
{
    match value.leaf() {
        Ok(tree) => {
            if tree.kind() == kind {
                Some(Value::Atom(tree))
            } else {
                drop(tree);
                None
            }
        }
        Err(value) => {
            drop(value);
            None
        }
    }
}

/// What is learned of an unknown value: its leaf of a kind, or the value as it is.
fn learned<'a>(value: Value<'a>, kind: Option<Kind>) -> Option<Value<'a>>
    ensures { option_map typed_of result ≡ learned_value kind (typed_of value.entry) }
{
    match kind {
        Some(kind) => leaf_of_kind(value, kind),
        None => Some(value),
    }
}

/// Moves the unknown slot to the known ones; where a kind is given, only a leaf of that kind is kept.
pub fn learn<'a>(mut moving: Moving<'a>, x: &Name, kind: Option<Kind>) -> Result<Moving<'a>, Memory>
    requires { IsOrdered (moving_of moving) }
    ensures { IfOk result (λ m. moving_of m ≡ move (op.learn x.now kind) [] (moving_of moving.entry)) }
{
    let Some(slot) = take_slot(&mut moving.rest, x.bytes()) else {
        return Ok(moving);
    };
    let Slot { name, value } = slot;
    match learned(value, kind) {
        Some(value) => {
            put_slot(&mut moving.slots, Slot { name, value })?;
            Ok(moving)
        }
        None => {
            drop(name);
            Ok(moving)
        }
    }
}

/// Moves the slot to the unknown ones, with its own name.
pub fn forget<'a>(mut moving: Moving<'a>, x: &Name) -> Result<Moving<'a>, Memory>
    requires { IsOrdered (moving_of moving) }
    ensures { IfOk result (λ m. moving_of m ≡ move (op.forget x.now) [] (moving_of moving.entry)) }
{
    match take_slot(&mut moving.slots, x.bytes()) {
        Some(slot) => {
            put_slot(&mut moving.rest, slot)?;
            Ok(moving)
        }
        None => Ok(moving),
    }
}
