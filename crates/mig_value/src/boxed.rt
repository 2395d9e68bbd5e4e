//! A value behind a box, as values hold values.
ghost use Rattle.std.specs.Prelude.{◌≡◌, IfOk};

use crate::{Memory, Value};
use std::alloc::Global;
use std::marker::Model;
use std::mem;

/// A value on the heap.
#[cycle(value)]
#[derive(Debug)]
pub struct ValueBox<'a> {
    value: Box<Value<'a>>,
}

impl Drop for ValueBox<'_> {
    #[cycle(drops)]
    fn drop(self) {
        let ValueBox { value } = self;
        drop(value);
    }
}

impl<'a> Model for ValueBox<'a> {
    ghost use Rattle.mig_value.specs.Typed.{Typed};
    ghost use Rattle.mig_value.specs.Code.{coded_typed};

    ghost Value = { Typed };

    ghost coded = { coded_typed };

    ghost use Rattle.mig_value.specs.View.{typed_of};

    ghost view = { λ a. typed_of a.value.value };

    ghost use Rattle.mig_value.specs.Kept.{ValueKept};

    ghost invariant = { λ a. ValueKept (typed_of a.value.value) };

    ghost use Rattle.mig_value.specs.Typed.{typed_size};

    ghost size = { typed_size };

    ghost use Rattle.std.proofs.Common.{arith};
    ghost use Rattle.mig_value.specs.Falls.{deep_le};

    ghost size_decreases = { λ a h. omega (arith, deep_le a.value.value) };
}

impl<'a> ValueBox<'a> {
    ghost use Rattle.mig_value.specs.Kept.{ValueKept};
    ghost use Rattle.mig_value.specs.View.{typed_of};

    /// The value, on the heap.
    pub fn new(alloc: Global, value: Value<'a>) -> Result<ValueBox<'a>, Memory>
        ensures { IfOk result (λ b. b ≡ typed_of value.entry) }
    {
        value.keeps();
        Ok(ValueBox {
            value: Box::new(alloc, value)?,
        })
    }

    /// The value itself.
    pub fn get(&self) -> &Value<'a>
        ensures value { typed_of result.now ≡ self.now }
        ensures keep { ValueKept self.now }
    {
        &*self.value
    }

    /// Takes the value out and leaves this one there. It takes no memory.
    pub fn swap(&mut self, value: Value<'a>) -> Value<'a>
        ensures value { typed_of result ≡ self.old }
        ensures rest { self.new ≡ typed_of value.entry }
    {
        value.keeps();
        mem::replace(&mut *self.value, value)
    }

    /// Gives the value up.
    pub fn into_value(self) -> Value<'a>
        ensures { typed_of result ≡ self.entry }
    {
        let ValueBox { value } = self;
        Box::into_inner(value)
    }
}
