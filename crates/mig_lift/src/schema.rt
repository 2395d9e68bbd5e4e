//! The schema of a version, as a family by which a tree is read.
ghost use Rattle.std.specs.Prelude.{◌≡◌, ◌<◌, IfOk, Some, length, slice_get, true};
ghost use Rattle.mig_model.specs.Family as model;
ghost use Rattle.mig_model.specs.Family.{IsFormed, body};
ghost use Rattle.mig_model.specs.Inhabits.{is_in_form};
ghost use Rattle.mig_rule.specs.Chain.{families, versions};
ghost use Rattle.mig_tree.specs.View.{plain_of};
ghost use Rattle.mig_lift.specs.Small.{is_flat_record, is_small};
ghost use Rattle.mig_lift.specs.View.{Checks};

use crate::LiftFault;
use mig_codec::ReadFault;
use mig_rule::Chain;
use mig_schema::Family;
use mig_tree::{Steps, Tree};
use std::alloc::Global;
use std::sync::ledger::Ledger;

/// Reads the tree by the family and writes what was read, which is the same tree.
fn read_by_schema<'a, L: Ledger>(
    alloc: Global,
    family: &Family,
    tree: Tree<'a>,
    steps: &mut Steps<L>,
) -> Result<Tree<'a>, LiftFault>
    requires flat { is_flat_record (body family.now family.now.root) ≡ true }
    requires form { is_in_form family.now.form (plain_of tree) ≡ true }
    ensures checks { Checks result family.now (plain_of tree.entry) }
    ensures count { steps.new ≡ steps.old }
{
    family.keeps();
    match mig_codec::read(alloc, family, family.root(), tree) {
        Ok(value) => Ok(mig_codec::write(alloc, value, steps)?),
        Err(ReadFault::Unfit(place)) => Err(LiftFault::Schema(place)),
        Err(ReadFault::Memory) => Err(LiftFault::Memory),
    }
}

/// Reads the tree by the family of the schema at the place of a small chain, and writes what was read.
pub fn read_at<'a, L: Ledger>(
    alloc: Global,
    chain: &Chain,
    place: usize,
    tree: Tree<'a>,
    steps: &mut Steps<L>,
) -> Result<Tree<'a>, LiftFault>
    requires small { is_small chain.now ≡ true }
    requires place { place < length (versions chain.now.steps) }
    requires form { is_in_form chain.now.form (plain_of tree) ≡ true }
    ensures checks { (f : model.Family) → slice_get (families chain.now.steps) place ≡ Some f
        → Checks result f (plain_of tree.entry) }
    ensures formed { IfOk result (λ t. (f : model.Family) → slice_get (families chain.now.steps) place ≡ Some f
        → IsFormed f) }
    ensures count { steps.new ≡ steps.old }
{
    chain.keeps();
    let family = chain.family(alloc, place)?;
    family.keeps();
    read_by_schema(alloc, &family, tree, steps)
}
