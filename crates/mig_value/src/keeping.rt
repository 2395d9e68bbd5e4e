//! What the values of a list keep, told to a proof.
ghost use Rattle.std.specs.Prelude.{IsTrue, map};
ghost use Rattle.mig_value.specs.Typed.{items_of, slots_of};
ghost use Rattle.mig_value.specs.Kept.{ItemsKept, SlotsKept};
ghost use Rattle.mig_value.specs.View.{typed_of, slot_of};

use crate::{Slot, Value};

/// Tells what each value of the list keeps. It is called where a proof needs it, in a `prove!`, which costs nothing at run time.
pub fn are_kept(list: &[Value]) -> bool
    ensures always { IsTrue result }
    ensures kept { ItemsKept (items_of (map typed_of list.now)) }
{
    for value in list {
        value.keeps();
    }
    true
}

/// Tells what each value of the slots keeps, in the same way.
pub fn slots_are_kept(list: &[Slot]) -> bool
    ensures always { IsTrue result }
    ensures kept { SlotsKept (slots_of (map slot_of list.now)) }
{
    for slot in list {
        slot.value.keeps();
    }
    true
}
