//! What was read of a record's map so far. A pair is added by a small function for each list, so that `add` has one way out.
ghost use Rattle.std.specs.Prelude.{◌≡◌, ◌++◌, ◌∷◌, [], Some, map, OnOk};
ghost use Rattle.mig_value.specs.View.{slot_of};

use mig_tree::{Memory, Text};
use mig_value::{RecValue, Slot, Slots};
use std::alloc::Global;

/// What was read of a record's map so far.
#[derive(Drop)]
pub struct Pieces<'a> {
    pub fields: Vec<Slot<'a>>,
    pub tag: Option<(Text<'a>, Text<'a>)>,
    pub cased: Vec<Slot<'a>>,
    pub rest: Vec<Slot<'a>>,
}

/// A pair of a record's map that was read, where its name belongs.
#[derive(Drop)]
pub enum Placed<'a> {
    Field(Slot<'a>),
    Tag(Text<'a>, Text<'a>),
    Cased(Slot<'a>),
    Unknown(Slot<'a>),
}

/// Adds the slot behind those that are there.
fn push<'a>(slots: &mut Vec<Slot<'a>>, slot: Slot<'a>) -> Result<(), Memory>
    ensures { OnOk result (map slot_of slots.new.items ≡ map slot_of slots.old.items ++ slot_of slot.entry ∷ []) }
{
    slots.push(slot)?;
    Ok(())
}

/// Puts the tag in place of what is there.
fn set_tag<'a>(tag: &mut Option<(Text<'a>, Text<'a>)>, name: Text<'a>, literal: Text<'a>)
    ensures { tag.new ≡ Some (name.entry, literal.entry) }
{
    drop(tag.replace((name, literal)));
}

impl<'a> Pieces<'a> {
    ghost use Rattle.std.specs.Prelude.{◌≡◌, [], None, OnOk, IfOk};
    ghost use Rattle.mig_value.specs.Parts.{IsRecordValue};
    ghost use Rattle.mig_codec.specs.Parted.{pieces_of, added};

    /// Nothing yet.
    pub fn new(alloc: Global) -> Pieces<'a>
        ensures { pieces_of result ≡ record { fields = []; tag = None; cased = []; rest = [] } }
    {
        Pieces {
            fields: Vec::new(alloc),
            tag: None,
            cased: Vec::new(alloc),
            rest: Vec::new(alloc),
        }
    }

    /// One more pair, behind those that are there.
    pub fn add(&mut self, placed: Placed<'a>) -> Result<(), Memory>
        ensures { OnOk result (pieces_of self.new ≡ added (pieces_of self.old) placed.entry) }
    {
        match placed {
            Placed::Field(slot) => push(&mut self.fields, slot),
            Placed::Tag(name, literal) => {
                set_tag(&mut self.tag, name, literal);
                Ok(())
            }
            Placed::Cased(slot) => push(&mut self.cased, slot),
            Placed::Unknown(slot) => push(&mut self.rest, slot),
        }
    }

    /// The record value of these pieces, whose lists ascend and whose names are distinct.
    pub fn into_record(self, alloc: Global) -> Result<RecValue<'a>, Memory>
        requires { IsRecordValue (pieces_of self) }
        ensures { IfOk result (λ r. r ≡ pieces_of self.entry) }
    {
        let Pieces {
            fields,
            tag,
            cased,
            rest,
        } = self;
        let parts = RecValue::new(
            alloc,
            Slots::new(fields),
            tag,
            Slots::new(cased),
            Slots::new(rest),
        )?;
        Ok(parts)
    }
}
