//! What a record value has besides its common fields.
ghost use Rattle.std.specs.Prelude.{◌≡◌, ◌<◌, length, option_map, IfOk};
ghost use Rattle.mig_value.specs.Parts.{beside};

use crate::{Memory, Slots, Text, Value};
use std::alloc::Global;
use std::marker::Model;

/// The tag, the fields of its case that are there, and the unknown fields.
#[cycle(value)]
#[derive(Debug, Drop)]
pub struct ExtraParts<'a> {
    pub tag: Option<(Text<'a>, Text<'a>)>,
    pub cased: Slots<'a>,
    pub rest: Slots<'a>,
}

/// The same on the heap, so that the value of a record without them is small.
#[cycle(value)]
#[derive(Debug)]
pub struct Extras<'a> {
    parts: Box<ExtraParts<'a>>,
}

impl Drop for Extras<'_> {
    #[cycle(drops)]
    fn drop(self) {
        let Extras { parts } = self;
        drop(parts);
    }
}

impl<'a> Model for Extras<'a> {
    ghost use Rattle.mig_value.specs.Parts.{Besides};
    ghost use Rattle.mig_value.specs.Code.{coded_besides};

    ghost Value = { Besides };

    ghost coded = { coded_besides };

    ghost view = { λ a. record { tag = a.parts.value.tag; cased = a.parts.value.cased; rest = a.parts.value.rest } };

    ghost use Rattle.mig_value.specs.Parts.{besides_size};

    ghost size = { besides_size };

    ghost use Rattle.std.proofs.Common.{arith};

    ghost size_decreases = { λ a h. Prim.grind arith };
}

impl<'a> Extras<'a> {
    ghost use Rattle.mig_value.specs.Places.{value_at, with_value_at};
    ghost use Rattle.mig_value.specs.Kept.{SlotListKept};
    ghost use Rattle.mig_value.specs.View.{typed_of};

    /// These parts, on the heap.
    pub fn new(alloc: Global, parts: ExtraParts<'a>) -> Result<Extras<'a>, Memory>
        ensures { IfOk result (λ e. e
            ≡ record { tag = parts.entry.tag; cased = parts.entry.cased; rest = parts.entry.rest }) }
    {
        Ok(Extras {
            parts: Box::new(alloc, parts)?,
        })
    }

    /// The tag's name and its literal.
    pub fn tag(&self) -> Option<&(Text<'a>, Text<'a>)>
        ensures { option_map (λ t. (t.now.0, t.now.1)) result ≡ self.now.tag }
    {
        self.parts.tag.as_ref()
    }

    /// The fields of the tag's case that are there.
    pub fn cased(&self) -> &Slots<'a>
        ensures { result.now ≡ self.now.cased }
    {
        &self.parts.cased
    }

    /// The unknown fields.
    pub fn rest(&self) -> &Slots<'a>
        ensures { result.now ≡ self.now.rest }
    {
        &self.parts.rest
    }

    /// Takes the value at a place of the case's fields out and leaves this one there.
    pub fn swap_cased(&mut self, at: usize, value: Value<'a>) -> Value<'a>
        requires { at < length self.old.cased }
        ensures value { typed_of result ≡ value_at at self.old.cased }
        ensures rest { self.new ≡ record self.old { cased = with_value_at at (typed_of value.entry) self.old.cased } }
        ensures keep { SlotListKept self.new.cased }
    {
        self.parts.cased.swap(at, value)
    }

    /// Gives the parts up.
    pub fn into_parts(self) -> ExtraParts<'a>
        ensures tag { result.tag ≡ self.entry.tag }
        ensures cased { result.cased ≡ self.entry.cased }
        ensures rest { result.rest ≡ self.entry.rest }
    {
        let Extras { parts } = self;
        Box::into_inner(parts)
    }
}

/// The parts on the heap, where there are any.
pub fn boxed<'a>(alloc: Global, parts: ExtraParts<'a>) -> Result<Option<Extras<'a>>, Memory>
    ensures { IfOk result (λ o. beside o
        ≡ record { tag = parts.entry.tag; cased = parts.entry.cased; rest = parts.entry.rest }) }
{
    if parts.tag.is_none() && parts.cased.is_empty() && parts.rest.is_empty() {
        return Ok(None);
    }
    Ok(Some(Extras::new(alloc, parts)?))
}

/// The parts, or none of them.
pub fn unboxed<'a>(alloc: Global, extras: Option<Extras<'a>>) -> ExtraParts<'a>
    ensures tag { result.tag ≡ (beside extras.entry).tag }
    ensures cased { result.cased ≡ (beside extras.entry).cased }
    ensures rest { result.rest ≡ (beside extras.entry).rest }
{
    match extras {
        Some(extras) => extras.into_parts(),
        None => ExtraParts {
            tag: None,
            cased: Slots::empty(alloc),
            rest: Slots::empty(alloc),
        },
    }
}
