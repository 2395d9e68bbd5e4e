//! The slots of a record value, in the order of their names.
ghost use Rattle.std.specs.Prelude.{◌≡◌, ◌<◌, [], eqb, length, map};
ghost use Rattle.mig_model.specs.Names.{Ascends};

use crate::keeping::slots_are_kept;
use crate::{Text, Value};
use mig_model::{Keyed, place_by_key};
use std::alloc::Global;
use std::marker::Model;
use std::mem;

/// A name and its value.
#[cycle(value)]
#[derive(Debug, Drop)]
pub struct Slot<'a> {
    pub name: Text<'a>,
    pub value: Value<'a>,
}

impl<'a> Keyed for Slot<'a> {
    ghost key = { λ s. s.name };

    fn key(&self) -> &[u8] {
        self.name.bytes()
    }
}

/// Slots whose names are distinct and ascend by bytes. Contracts see the list of the names and the plain values.
#[cycle(value)]
#[derive(Debug)]
pub struct Slots<'a> {
    list: Vec<Slot<'a>>,
}

impl Drop for Slots<'_> {
    #[cycle(drops)]
    fn drop(self) {
        let Slots { list } = self;
        drop(list);
    }
}

impl<'a> Model for Slots<'a> {
    ghost use Rattle.std.specs.Prelude.{List, map};
    ghost use Rattle.mig_value.specs.Typed as typed;
    ghost use Rattle.mig_value.specs.Code.{coded_slots};

    ghost Value = { List typed.Slot };

    ghost coded = { coded_slots };

    ghost use Rattle.mig_value.specs.View.{slot_of};

    ghost view = { λ a. map slot_of a.list.items };

    ghost use Rattle.mig_value.specs.Kept.{SlotListKept};

    ghost invariant = { λ a. SlotListKept (map slot_of a.list.items) };

    ghost use Rattle.mig_value.specs.Typed.{slot_list_size};

    ghost size = { slot_list_size };

    ghost use Rattle.std.proofs.Common.{arith};
    ghost use Rattle.mig_value.specs.Falls.{most_slots};

    ghost size_decreases = { λ a h. omega (arith, most_slots a.list.items) };
}

impl<'a> Slots<'a> {
    ghost use Rattle.mig_value.specs.Kept.{SlotListKept};
    ghost use Rattle.mig_value.specs.Places.{place_in, value_at, with_value_at};
    ghost use Rattle.mig_value.specs.View.{slot_of, typed_of};

    /// No slots.
    pub fn empty(alloc: Global) -> Slots<'a>
        ensures { result ≡ [] }
    {
        Slots {
            list: Vec::new(alloc),
        }
    }

    /// Whether there are none.
    pub fn is_empty(&self) -> bool
        ensures { result ≡ eqb (length self.now) 0 }
    {
        self.list.is_empty()
    }

    /// These slots, whose names are distinct and ascend.
    pub fn new(list: Vec<Slot<'a>>) -> Slots<'a>
        requires { Ascends (map slot_of list.items) }
        ensures { result ≡ map slot_of list.entry.items }
    {
        prove!(slots_are_kept(&list));
        Slots { list }
    }

    /// The slots, ascending by name.
    pub fn as_slice(&self) -> &[Slot<'a>]
        ensures slots { map slot_of result.now ≡ self.now }
        ensures keep { SlotListKept self.now }
    {
        self.list.as_slice()
    }

    /// The place of the name. It takes log n comparisons.
    pub fn place(&self, name: &[u8]) -> Option<usize>
        ensures { result ≡ place_in name.now self.now }
    {
        place_by_key(&self.list, name).ok()
    }

    /// Takes the value at a place out and leaves this one there. It takes no memory.
    pub fn swap(&mut self, at: usize, value: Value<'a>) -> Value<'a>
        requires { at < length self.old }
        ensures value { typed_of result ≡ value_at at self.old }
        ensures rest { self.new ≡ with_value_at at (typed_of value.entry) self.old }
        ensures keep { SlotListKept self.new }
    {
        value.keeps();
        mem::replace(&mut self.list[at].value, value)
    }

    /// Gives the slots up.
    pub fn into_vec(self) -> Vec<Slot<'a>>
        ensures slots { map slot_of result.items ≡ self.entry }
        ensures keep { SlotListKept self.entry }
    {
        let Slots { list } = self;
        list
    }
}
