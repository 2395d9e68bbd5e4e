//! The optic to a side of a sum.
ghost use Rattle.std.specs.Prelude.{◌≡◌, length, map};
ghost use Rattle.mig_value.specs.View.{typed_of};
ghost use Rattle.mig_path.specs.Rest.{FitsFoci, join};

use crate::lists::{only, single};
use crate::{Counter, Memory, Optic, Value};
use mig_value::{Tree, ValueBox};
use std::alloc::Global;

/// The value of a sum where it is on this side. It takes both sides.
#[derive(Clone, Copy, Debug, Drop, PartialEq, Eq)]
pub enum Side {
    Left,
    Right,
}

/// The side's box with Null in it, or the value of the other side.
#[derive(Debug, Drop)]
pub enum SideRest<'a> {
    Left(ValueBox<'a>),
    Right(ValueBox<'a>),
    Other(Value<'a>),
}

/// The value of a box, and the box with Null in it.
fn emptied<'a>(inner: ValueBox<'a>) -> (Value<'a>, ValueBox<'a>)
    ensures { typed_of result.0 ≡ inner.entry }
{
    let mut rest = inner;
    let focus = rest.swap(Value::Atom(Tree::Null));
    (focus, rest)
}

/// The box with this value in it.
fn refilled<'a>(inner: ValueBox<'a>, value: Value<'a>) -> ValueBox<'a>
    ensures { result ≡ typed_of value.entry }
{
    let mut full = inner;
    drop(full.swap(value));
    full
}

impl<'a> SideRest<'a> {
    ghost use Rattle.mig_path.specs.Residues.{side_rest};

    /// The value of these foci and this residue. It takes no memory.
    pub fn rejoin(self, foci: Vec<Value<'a>>) -> Value<'a>
        requires { FitsFoci (side_rest self) (length foci.items) }
        ensures { typed_of result ≡ join (side_rest self.entry) (map typed_of foci.entry.items) }
    {
        match self {
            SideRest::Left(inner) => Value::Left(refilled(inner, only(foci))),
            SideRest::Right(inner) => Value::Right(refilled(inner, only(foci))),
            SideRest::Other(value) => value,
        }
    }
}

impl<'a> Optic<'a> for Side {
    ghost use Rattle.mig_path.specs.Path.{side};
    ghost use Rattle.mig_path.specs.Residues.{side_rest};

    type Residue = SideRest<'a>;

    ghost path = { side };

    ghost rest = { side_rest };

    fn part<C: Counter>(
        &self,
        alloc: Global,
        value: Value<'a>,
        steps: &mut C,
    ) -> Result<(Vec<Value<'a>>, SideRest<'a>), Memory> {
        match (*self, value) {
            (Side::Left, Value::Left(inner)) => {
                let (focus, rest) = emptied(inner);
                Ok((single(alloc, focus)?, SideRest::Left(rest)))
            }
            (Side::Right, Value::Right(inner)) => {
                let (focus, rest) = emptied(inner);
                Ok((single(alloc, focus)?, SideRest::Right(rest)))
            }
            (_, value) => Ok((Vec::new(alloc), SideRest::Other(value))),
        }
    }

    fn rejoin(
        &self,
        alloc: Global,
        foci: Vec<Value<'a>>,
        residue: SideRest<'a>,
    ) -> Result<Value<'a>, Memory> {
        Ok(residue.rejoin(foci))
    }
}
