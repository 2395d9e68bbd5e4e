//! A tree is read by a named type of a family.
ghost use Rattle.std.specs.Prelude.{◌≡◌, Option, IfOk, IfErr, IsTrue, true};
ghost use Rattle.mig_model.specs.Family.{body, is_named};
ghost use Rattle.mig_model.specs.Inhabits.{Inhabits, is_in_form};
ghost use Rattle.mig_model.specs.Place as model;
ghost use Rattle.mig_tree.specs.View.{plain_of};
ghost use Rattle.mig_value.specs.Fit.{FitAsRead};
ghost use Rattle.mig_value.specs.Typed.{out};
ghost use Rattle.mig_value.specs.View.{typed_of};
ghost use Rattle.mig_codec.specs.Reading.{HasNodesOf, IsUnfit, FaultAt, StopsAt};

use crate::ReadFault;
use crate::reading::read_part;
use crate::stop::Stop;
use mig_schema::Family;
use mig_tree::{Name, Place, Tree};
use mig_value::Value;
use std::alloc::Global;

/// The place of what stopped, outermost step first.
fn fault_of(stop: Stop) -> ReadFault
    ensures { (o : Option model.Place) → StopsAt stop o → FaultAt result o }
{
    match stop {
        Stop::Wrong(mut steps) => {
            steps.reverse();
            ReadFault::Unfit(Place::new(steps))
        }
        Stop::Memory => ReadFault::Memory,
    }
}

/// The typed value of the tree at the body of the named type. `Unfit` comes exactly where the tree doesn't inhabit it, with the first wrong place.
///
/// It takes time linear in the tree, apart from log n comparisons for each name of a map, where a record has n fields; only where a Must field is missing are all its fields looked at. Texts and arrays are moved.
pub fn read<'a>(
    alloc: Global,
    family: &Family,
    name: &Name,
    tree: Tree<'a>,
) -> Result<Value<'a>, ReadFault>
    requires known { IsTrue (is_named family.now name.now) }
    requires form { is_in_form family.now.form (plain_of tree) ≡ true }
    ensures fits { IfOk result (λ v. FitAsRead family.now.form (body family.now) name.now (typed_of v)) }
    ensures tree { IfOk result (λ v. out (typed_of v) ≡ plain_of tree.entry) }
    ensures nodes { IfOk result (λ v. HasNodesOf family.now name.now (plain_of tree.entry) (typed_of v)) }
    ensures inhabits { IfOk result (λ v. Inhabits family.now.form (body family.now) name.now (plain_of tree.entry)) }
    ensures unfit { IfErr result (λ e. IsUnfit e family.now name.now (plain_of tree.entry)) }
{
    family.keeps();
    let Some(body) = family.body(name) else {
        unreachable!()
    };
    match read_part(alloc, family, body, tree) {
        Ok(value) => Ok(value),
        Err(stop) => Err(fault_of(stop)),
    }
}
