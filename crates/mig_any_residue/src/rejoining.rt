//! The residue of any optic is rejoined with foci.
ghost use Rattle.std.specs.Prelude.{◌≡◌, IfOk, length, map};
ghost use Rattle.mig_value.specs.View.{typed_of};
ghost use Rattle.mig_path.specs.Rest.{join, joins, FitsFoci, groups_of, total, AreFormed};
ghost use Rattle.mig_any_residue.specs.HeldView.{group_pair};

use crate::AnyResidue;
use crate::any_residue::{AnyGroup, Held};
use mig_path::{Memory, Optic, Value, only};
use mig_typed_optic::{Cross, Each, take_front};
use std::alloc::Global;

/// Rejoins the foci with the residue of any optic.
#[cycle(rejoin)]
pub fn rejoin_any<'a>(
    alloc: Global,
    foci: Vec<Value<'a>>,
    residue: AnyResidue<'a>,
) -> Result<Value<'a>, Memory>
    requires { FitsFoci residue (length foci.items) }
    ensures { IfOk result (λ w. typed_of w ≡ join residue.entry (map typed_of foci.entry.items)) }
{
    match residue.into_held() {
        Held::Whole => Ok(only(foci)),
        Held::Field(hole) => Ok(hole.fill(only(foci))),
        Held::May(rest) => Ok(rest.rejoin(foci)),
        Held::Case(rest) => Ok(rest.rejoin(foci)),
        Held::Each(rest) => Each.rejoin(alloc, foci, rest),
        Held::Side(rest) => Ok(rest.rejoin(foci)),
        Held::Cross(rest) => Cross.rejoin(alloc, foci, rest),
        Held::Both(outer, inner) => {
            let values = rejoin_each(alloc, foci, inner.into_vec())?;
            rejoin_any(alloc, values, Box::into_inner(outer))
        }
    }
}

/// Rejoins each residue with its foci, which follow one another in the list.
#[cycle(rejoin)]
fn rejoin_each<'a>(
    alloc: Global,
    foci: Vec<Value<'a>>,
    groups: Vec<AnyGroup<'a>>,
) -> Result<Vec<Value<'a>>, Memory>
    requires formed { AreFormed (groups_of (map group_pair groups.items)) }
    requires enough { length foci.items ≡ total (groups_of (map group_pair groups.items)) }
    ensures { IfOk result (λ values. map typed_of values.items
        ≡ joins (groups_of (map group_pair groups.entry.items)) (map typed_of foci.entry.items)) }
{
    let mut reversed = foci;
    reversed.reverse();
    let mut values = Vec::new(alloc);
    for group in groups {
        let AnyGroup { count, residue } = group;
        let front = take_front(alloc, &mut reversed, count)?;
        values.push(rejoin_any(alloc, front, residue)?)?;
    }
    Ok(values)
}
