//! The value of a record.
ghost use Rattle.std.specs.Prelude.{◌≡◌, [], None, option_map, map, IfOk};

use crate::extras::{ExtraParts, Extras, boxed, unboxed};
use crate::{Memory, Slot, SlotPlace, Slots, Text, Value};
use std::alloc::Global;
use std::marker::Model;

/// The value of a record: the fields that are there, the tag's name and literal, the fields of its case that are there, and the unknown fields. Contracts see its parts as lists.
///
/// All but the fields stand behind one box, which a value without them doesn't have.
#[cycle(value)]
#[derive(Debug)]
pub struct RecValue<'a> {
    fields: Slots<'a>,
    extras: Option<Extras<'a>>,
}

impl Drop for RecValue<'_> {
    #[cycle(drops)]
    fn drop(self) {
        let RecValue { fields, extras } = self;
        drop(fields);
        drop(extras);
    }
}

impl<'a> Model for RecValue<'a> {
    ghost use Rattle.mig_value.specs.Parts.{RecordParts};
    ghost use Rattle.mig_value.specs.Code.{coded_record};

    ghost Value = { RecordParts };

    ghost coded = { coded_record };

    ghost use Rattle.mig_value.specs.Parts.{beside, with_besides};

    ghost view = { λ a. with_besides a.fields (beside a.extras) };

    ghost use Rattle.mig_value.specs.Kept.{RecordValueKept};

    ghost invariant = { λ a. RecordValueKept (with_besides a.fields (beside a.extras)) };

    ghost use Rattle.mig_value.specs.Parts.{record_size};

    ghost size = { record_size };

    ghost use Rattle.std.proofs.Common.{arith};

    ghost size_decreases = { λ a h. Prim.grind arith };
}

impl<'a> RecValue<'a> {
    ghost use Rattle.std.specs.Prelude.{false};
    ghost use Rattle.mig_model.specs.Names.{has_twice};
    ghost use Rattle.mig_value.specs.Parts.{names_in};
    ghost use Rattle.mig_value.specs.Kept.{RecordValueKept};
    ghost use Rattle.mig_value.specs.Places.{place_in, slot_place, IsPlace, value_there, with_value_there};
    ghost use Rattle.mig_value.specs.View.{typed_of, slot_of};
    ghost use Rattle.mig_value.specs.declared.place.SlotPlace.TheVariants.{Cased};

    /// The record value of these parts, of which no two names are equal. It takes memory only where there is more than fields.
    pub fn new(
        alloc: Global,
        fields: Slots<'a>,
        tag: Option<(Text<'a>, Text<'a>)>,
        cased: Slots<'a>,
        rest: Slots<'a>,
    ) -> Result<RecValue<'a>, Memory>
        requires { has_twice (names_in (record { fields = fields; tag = tag; cased = cased; rest = rest })) ≡ false }
        ensures { IfOk result (λ r. r
            ≡ record { fields = fields.entry; tag = tag.entry; cased = cased.entry; rest = rest.entry }) }
    {
        let _fields = fields.as_slice();
        let _cased = cased.as_slice();
        let _rest = rest.as_slice();
        let parts = ExtraParts { tag, cased, rest };
        let extras = boxed(alloc, parts)?;
        Ok(RecValue { fields, extras })
    }

    /// The record value of fields alone. It takes no memory.
    pub fn of_fields(fields: Slots<'a>) -> RecValue<'a>
        ensures { result ≡ record { fields = fields.entry; tag = None; cased = []; rest = [] } }
    {
        let _fields = fields.as_slice();
        RecValue {
            fields,
            extras: None,
        }
    }

    /// The common fields that are there.
    pub fn fields(&self) -> &Slots<'a>
        ensures { result.now ≡ self.now.fields }
    {
        &self.fields
    }

    /// The tag's name and its literal, where there is a choice.
    pub fn tag(&self) -> Option<&(Text<'a>, Text<'a>)>
        ensures { option_map (λ t. (t.now.0, t.now.1)) result ≡ self.now.tag }
    {
        match &self.extras {
            Some(extras) => extras.tag(),
            None => None,
        }
    }

    /// The fields of the tag's case that are there.
    pub fn cased(&self) -> &[Slot<'a>]
        ensures { map slot_of result.now ≡ self.now.cased }
    {
        match &self.extras {
            Some(extras) => extras.cased().as_slice(),
            None => &[],
        }
    }

    /// The unknown fields.
    pub fn rest(&self) -> &[Slot<'a>]
        ensures { map slot_of result.now ≡ self.now.rest }
    {
        match &self.extras {
            Some(extras) => extras.rest().as_slice(),
            None => &[],
        }
    }

    /// Where the name is among the fields of the case.
    fn cased_place(&self, name: &[u8]) -> Option<SlotPlace>
        ensures { result ≡ option_map (λ n. Cased n) (place_in name.now self.now.cased) }
    {
        match &self.extras {
            Some(extras) => extras.cased().place(name).map(SlotPlace::Cased),
            None => None,
        }
    }

    /// Where the name is among the fields and the fields of the case. It takes log n comparisons.
    pub fn place(&self, name: &[u8]) -> Option<SlotPlace>
        ensures { result ≡ slot_place name.now self.now }
    {
        match self.fields.place(name) {
            Some(at) => Some(SlotPlace::Field(at)),
            None => self.cased_place(name),
        }
    }

    /// Takes the value at a place out and leaves this one there. It takes no memory.
    pub fn swap(&mut self, place: SlotPlace, value: Value<'a>) -> Value<'a>
        requires { IsPlace place self.old }
        ensures value { typed_of result ≡ value_there place self.old }
        ensures rest { self.new ≡ with_value_there place (typed_of value.entry) self.old }
    {
        match place {
            SlotPlace::Field(at) => self.fields.swap(at, value),
            SlotPlace::Cased(at) => match &mut self.extras {
                Some(extras) => extras.swap_cased(at, value),
                None => unreachable!(),
            },
        }
    }

    /// Gives the parts up. It takes no memory.
    pub fn into_parts(
        self,
        alloc: Global,
    ) -> (
        Slots<'a>,
        Option<(Text<'a>, Text<'a>)>,
        Slots<'a>,
        Slots<'a>,
    )
        ensures fields { result.0 ≡ self.entry.fields }
        ensures tag { result.1 ≡ self.entry.tag }
        ensures cased { result.2 ≡ self.entry.cased }
        ensures rest { result.3 ≡ self.entry.rest }
        ensures keep { RecordValueKept self.entry }
    {
        let RecValue { fields, extras } = self;
        let ExtraParts { tag, cased, rest } = unboxed(alloc, extras);
        (fields, tag, cased, rest)
    }

    /// Does nothing. Its contract tells what every record value keeps at every depth.
    pub fn keeps(&self)
        ensures { RecordValueKept self.now }
    {
        let _fields = &self.fields;
    }
}
