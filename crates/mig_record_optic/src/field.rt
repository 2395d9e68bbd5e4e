//! The optics to a field, and record values with a hole in place of one.
ghost use Rattle.std.specs.Prelude.{◌≡◌, None, Some, IfErr, IfOk, length, map};
ghost use Rattle.mig_value.specs.View.{typed_of};
ghost use Rattle.mig_path.specs.Rest.{FitsFoci, join};

use mig_path::{Counter, Memory, Name, Optic, Value, only, single};
use mig_value::{RecValue, SlotPlace, Tree};
use std::alloc::Global;
use std::marker::Model;

/// The value under a name of a record value, among its fields and the fields of its case. It takes those that have it.
#[derive(Debug, Drop)]
pub struct FieldAt {
    pub name: Name,
}

/// The value under a name of a record value, where there is one, among its fields and the fields of its case.
#[derive(Debug, Drop)]
pub struct MayField {
    pub name: Name,
}

/// A record value with Null in place of one of its values. Contracts see the name and the record value with Null there.
#[derive(Debug)]
pub struct Hole<'a> {
    parts: RecValue<'a>,
    place: SlotPlace,
}

impl Drop for Hole<'_> {
    fn drop(self) {
        let Hole { parts, place: _ } = self;
        drop(parts);
    }
}

impl<'a> Model for Hole<'a> {
    ghost use Rattle.mig_value.specs.Typed.{Slot};
    ghost use Rattle.mig_value.specs.Code.{coded_node};

    ghost Value = { Slot };

    ghost coded = { coded_node };

    ghost use Rattle.mig_value.specs.Parts.{record_of};
    ghost use Rattle.mig_record_optic.specs.Holes.{name_there, IsFirst};

    ghost view = { λ a. (name_there a.place a.parts, record_of a.parts) };

    ghost invariant = { λ a. IsFirst a.place a.parts };
}

impl<'a> Hole<'a> {
    ghost use Rattle.mig_value.specs.Parts.{record_of};
    ghost use Rattle.mig_path.specs.Fields.{null, value_under, with_value_under};

    /// Takes the value under the name out. A record value without it comes back in `Err`.
    /// It takes log n comparisons, and no memory.
    pub fn open(value: RecValue<'a>, name: &Name) -> Result<(Value<'a>, Hole<'a>), RecValue<'a>>
        ensures focus { IfOk result (λ x. value_under name.now (record_of value.entry) ≡ Some (typed_of x.0)) }
        ensures hole { IfOk result (λ x. x.1 ≡ (name.now, with_value_under name.now null (record_of value.entry))) }
        ensures absent { IfErr result (λ _. value_under name.now (record_of value.entry) ≡ None) }
        ensures same { IfErr result (λ r. r ≡ value.entry) }
    {
        match value.place(name.bytes()) {
            Some(place) => {
                let mut parts = value;
                let focus = parts.swap(place, Value::Atom(Tree::Null));
                Ok((focus, Hole { parts, place }))
            }
            None => Err(value),
        }
    }

    /// The record value with this value in the hole. It takes no memory.
    pub fn fill(self, value: Value<'a>) -> Value<'a>
        ensures { typed_of result ≡ with_value_under self.entry.0 (typed_of value.entry) self.entry.1 }
    {
        let Hole { mut parts, place } = self;
        drop(parts.swap(place, value));
        Value::Rec(parts)
    }
}

/// The record value with a hole, or the value that has no such field.
#[derive(Debug, Drop)]
pub enum MayRest<'a> {
    There(Hole<'a>),
    Absent(Value<'a>),
}

impl<'a> MayRest<'a> {
    ghost use Rattle.mig_record_optic.specs.Residues.{may_rest};

    /// The value of these foci and this residue. It takes no memory.
    pub fn rejoin(self, foci: Vec<Value<'a>>) -> Value<'a>
        requires { FitsFoci (may_rest self) (length foci.items) }
        ensures { typed_of result ≡ join (may_rest self.entry) (map typed_of foci.entry.items) }
    {
        match self {
            MayRest::There(hole) => hole.fill(only(foci)),
            MayRest::Absent(value) => value,
        }
    }
}

impl<'a> Optic<'a> for FieldAt {
    ghost use Rattle.mig_path.specs.Path.{field_at};
    ghost use Rattle.mig_record_optic.specs.Residues.{hole_rest};

    type Residue = Hole<'a>;

    ghost path = { λ o. field_at o.name };

    ghost rest = { hole_rest };

    fn part<C: Counter>(
        &self,
        alloc: Global,
        value: Value<'a>,
        steps: &mut C,
    ) -> Result<(Vec<Value<'a>>, Hole<'a>), Memory> {
        let Value::Rec(record) = value else {
            unreachable!()
        };
        let Ok((focus, hole)) = Hole::open(record, &self.name) else {
            unreachable!()
        };
        Ok((single(alloc, focus)?, hole))
    }

    fn rejoin(
        &self,
        alloc: Global,
        foci: Vec<Value<'a>>,
        residue: Hole<'a>,
    ) -> Result<Value<'a>, Memory> {
        Ok(residue.fill(only(foci)))
    }
}

impl<'a> Optic<'a> for MayField {
    ghost use Rattle.mig_path.specs.Path.{may_field};
    ghost use Rattle.mig_record_optic.specs.Residues.{may_rest};

    type Residue = MayRest<'a>;

    ghost path = { λ o. may_field o.name };

    ghost rest = { may_rest };

    fn part<C: Counter>(
        &self,
        alloc: Global,
        value: Value<'a>,
        steps: &mut C,
    ) -> Result<(Vec<Value<'a>>, MayRest<'a>), Memory> {
        let Value::Rec(record) = value else {
            unreachable!()
        };
        match Hole::open(record, &self.name) {
            Ok((focus, hole)) => Ok((single(alloc, focus)?, MayRest::There(hole))),
            Err(record) => Ok((Vec::new(alloc), MayRest::Absent(Value::Rec(record)))),
        }
    }

    fn rejoin(
        &self,
        alloc: Global,
        foci: Vec<Value<'a>>,
        residue: MayRest<'a>,
    ) -> Result<Value<'a>, Memory> {
        Ok(residue.rejoin(foci))
    }
}
