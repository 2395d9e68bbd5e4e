//! Each optic's residue as that of an `AnyOptic`, so that all are parted by one function.
ghost use Rattle.std.specs.Prelude.{◌≡◌, ◌+◌, ◌≤◌, IfOk, map};
ghost use Rattle.mig_value.specs.View.{typed_of};
ghost use Rattle.mig_path.specs.Path.{foci, Takes, crossed};
ghost use Rattle.mig_path.specs.Rest.{rest_for};

use crate::AnyResidue;
use crate::any_residue::Held;
use mig_path::{Counter, Here, HereRest, Memory, Optic, Side, SideRest, Value};
use mig_record_optic::{CaseOf, CaseRest, FieldAt, Hole, MayField, MayRest};
use mig_typed_optic::{Cross, CrossRest, Each, EachRest};
use std::alloc::Global;

/// An optic whose residue an `AnyResidue` holds.
pub trait HeldOptic<'a>: Optic<'a> {
    /// The residue as that of an `AnyOptic`.
    fn hold(residue: Self::Residue) -> AnyResidue<'a>
        ensures { result ≡ Self.rest residue };
}

impl<'a> HeldOptic<'a> for Here {
    fn hold(residue: HereRest) -> AnyResidue<'a> {
        AnyResidue::new(Held::Whole)
    }
}

impl<'a> HeldOptic<'a> for FieldAt {
    fn hold(residue: Hole<'a>) -> AnyResidue<'a> {
        AnyResidue::new(Held::Field(residue))
    }
}

impl<'a> HeldOptic<'a> for MayField {
    fn hold(residue: MayRest<'a>) -> AnyResidue<'a> {
        AnyResidue::new(Held::May(residue))
    }
}

impl<'a> HeldOptic<'a> for CaseOf {
    fn hold(residue: CaseRest<'a>) -> AnyResidue<'a> {
        AnyResidue::new(Held::Case(residue))
    }
}

impl<'a> HeldOptic<'a> for Each {
    fn hold(residue: EachRest) -> AnyResidue<'a> {
        AnyResidue::new(Held::Each(residue))
    }
}

impl<'a> HeldOptic<'a> for Side {
    fn hold(residue: SideRest<'a>) -> AnyResidue<'a> {
        AnyResidue::new(Held::Side(residue))
    }
}

impl<'a> HeldOptic<'a> for Cross {
    fn hold(residue: CrossRest<'a>) -> AnyResidue<'a> {
        AnyResidue::new(Held::Cross(residue))
    }
}

/// Parts a value by one optic.
pub fn part_held<'a, O: HeldOptic<'a>, C: Counter>(
    optic: &O,
    alloc: Global,
    value: Value<'a>,
    steps: &mut C,
) -> Result<(Vec<Value<'a>>, AnyResidue<'a>), Memory>
    requires { Takes (O.path optic.now) (typed_of value) }
    ensures foci { IfOk result (λ x. map typed_of x.0.items ≡ foci (O.path optic.now) (typed_of value.entry)) }
    ensures rest { IfOk result (λ x. x.1 ≡ rest_for (O.path optic.now) (typed_of value.entry)) }
    ensures exact { IfOk result (λ _. C.counted steps.new ≡ C.counted steps.old
        + crossed (O.path optic.now) (typed_of value.entry)) }
    ensures count { C.counted steps.new ≤ C.counted steps.old + crossed (O.path optic.now) (typed_of value.entry) }
    ensures grows { C.counted steps.old ≤ C.counted steps.new }
{
    let (foci, residue) = optic.part(alloc, value, steps)?;
    Ok((foci, O::hold(residue)))
}
