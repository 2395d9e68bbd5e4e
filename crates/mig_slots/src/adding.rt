//! Slots that are dropped, added, and filled where they are absent.
ghost use Rattle.std.specs.Prelude.{◌≡◌, [], IfOk, if◌then◌else◌};
ghost use Rattle.mig_value.specs.View.{typed_of};
ghost use Rattle.mig_model.specs.Names.{has, without, put};
ghost use Rattle.mig_field.specs.FieldFn as op;
ghost use Rattle.mig_action.specs.Moves.{move};
ghost use Rattle.mig_slots.specs.View.{moving_of, IsOrdered};

use crate::edits::{drop_slot, has_slot, put_value};
use crate::{Memory, Moving, Name, Value};
use std::alloc::Global;

/// Takes the field out, and lets its value go.
pub fn drop_field<'a>(mut moving: Moving<'a>, x: &Name) -> Moving<'a>
    requires { IsOrdered (moving_of moving) }
    ensures { moving_of result ≡ move (op.drop x.now) [] (moving_of moving.entry) }
{
    drop_slot(&mut moving.slots, x.bytes());
    moving
}

/// Puts the value under a new name, which no unknown slot keeps.
pub fn add<'a>(
    alloc: Global,
    mut moving: Moving<'a>,
    x: &Name,
    value: Value<'a>,
) -> Result<Moving<'a>, Memory>
    requires { IsOrdered (moving_of moving) }
    ensures { let given = moving_of moving.entry in IfOk result (λ m. moving_of m
        ≡ record { slots = put x.now (typed_of value.entry) given.slots; rest = without x.now given.rest }) }
{
    put_value(alloc, &mut moving.slots, x.bytes(), value)?;
    drop_slot(&mut moving.rest, x.bytes());
    Ok(moving)
}

/// Puts the value under the name where nothing stands there; otherwise lets it go.
pub fn fill_absent<'a>(
    alloc: Global,
    mut moving: Moving<'a>,
    x: &Name,
    value: Value<'a>,
) -> Result<Moving<'a>, Memory>
    requires { IsOrdered (moving_of moving) }
    ensures { let given = moving_of moving.entry in IfOk result (λ m. moving_of m
        ≡ record {
          slots = (if has x.now given.slots then given.slots else put x.now
              (typed_of value.entry) given.slots);
          rest = given.rest;
        }) }
{
    if has_slot(moving.slots.as_slice(), x.bytes()) {
        drop(value);
        return Ok(moving);
    }
    put_value(alloc, &mut moving.slots, x.bytes(), value)?;
    Ok(moving)
}
