//! One save, from its bytes to those of the lifted save.
ghost use Rattle.std.specs.Prelude.{◌≡◌, ◌≤◌, IfOk, true};
ghost use Rattle.mig_tree.specs.View.{plain_of};
ghost use Rattle.mig_model.specs.declared.form.Form.TheVariants.{Nbt, Json};
ghost use Rattle.mig_model.specs.Kinds.{IsMap};
ghost use Rattle.mig_model.specs.Version.{last_version};
ghost use Rattle.mig_lift.specs.Lift.{lift, lift_tree};
ghost use Rattle.mig_lift.specs.Small.{is_small};
ghost use Rattle.mig_lift.specs.View.{Lifts, LiftsTree};
ghost use Rattle.mig_lift.specs.Writable.{IsWritable};

use crate::fix::fix_if_due;
use crate::schema::read_at;
use crate::version::{strip_version, version_of};
use crate::{LiftFault, VersionKind};
use mig_json::JsonError;
use mig_nbt::NbtError;
use mig_rule::Chain;
use mig_tree::{Steps, Tree};
use std::alloc::Global;
use std::sync::ledger::Ledger;

/// Lifts the tree of a save. What can be written before can be written after.
fn lift_tree<'a, L: Ledger>(
    alloc: Global,
    chain: &'a Chain,
    target: u32,
    mut tree: Tree<'a>,
    steps: &mut Steps<L>,
) -> Result<(Tree<'a>, u32), LiftFault>
    requires small { is_small chain.now ≡ true }
    requires target { target ≤ last_version }
    requires map { IsMap (plain_of tree) }
    requires writable { IsWritable chain.now.form (plain_of tree) }
    ensures lifts { LiftsTree result (lift_tree chain.now target (plain_of tree.entry)) }
    ensures map { IfOk result (λ x. IsMap (plain_of x.0)) }
    ensures writable { IfOk result (λ x. IsWritable chain.now.form (plain_of x.0)) }
    ensures count { steps.new ≡ steps.old }
{
    chain.keeps();
    let path = chain.version_path();
    let version = match version_of(chain, &tree) {
        Ok(version) => version,
        Err(kind) => return Err(LiftFault::Version(kind)),
    };
    strip_version(path, &mut tree);
    let Some(place) = chain.floor(version) else {
        return Err(LiftFault::Version(VersionKind::Below(version)));
    };
    if target < version {
        return Err(LiftFault::Version(VersionKind::Above(version)));
    }
    let mut tree = read_at(alloc, chain, place, tree, steps)?;
    fix_if_due(alloc, chain, version, target, &mut tree)?;
    path.put(alloc, &mut tree, chain.form(), target)?;
    Ok((tree, version))
}

/// Lifts the bytes of a save in the NBT form.
pub fn lift_nbt<L: Ledger>(
    alloc: Global,
    chain: &Chain,
    target: u32,
    bytes: &[u8],
    steps: &mut Steps<L>,
) -> Result<(Vec<u8>, u32), LiftFault>
    requires small { is_small chain.now ≡ true }
    requires target { target ≤ last_version }
    requires form { chain.now.form ≡ Nbt }
    ensures lifts { Lifts result (lift chain.now target bytes.now) }
    ensures count { steps.new ≡ steps.old }
{
    let (name, tree) = match mig_nbt::read(alloc, bytes) {
        Ok(found) => found,
        Err(NbtError::Wrong) => return Err(LiftFault::Bytes),
        Err(NbtError::Memory) => return Err(LiftFault::Memory),
    };
    let (tree, version) = lift_tree(alloc, chain, target, tree, steps)?;
    let written = mig_nbt::write(alloc, name.bytes(), &tree)?;
    Ok((written, version))
}

/// Lifts the bytes of a save in the JSON form.
pub fn lift_json<L: Ledger>(
    alloc: Global,
    chain: &Chain,
    target: u32,
    bytes: &[u8],
    steps: &mut Steps<L>,
) -> Result<(Vec<u8>, u32), LiftFault>
    requires small { is_small chain.now ≡ true }
    requires target { target ≤ last_version }
    requires form { chain.now.form ≡ Json }
    ensures lifts { Lifts result (lift chain.now target bytes.now) }
    ensures count { steps.new ≡ steps.old }
{
    let document = match mig_json::parse(alloc, bytes) {
        Ok(document) => document,
        Err(JsonError::Wrong) => return Err(LiftFault::Bytes),
        Err(JsonError::Memory) => return Err(LiftFault::Memory),
    };
    let tree = document.tree(alloc)?;
    let (tree, version) = lift_tree(alloc, chain, target, tree, steps)?;
    let written = mig_json::write(alloc, &tree)?;
    Ok((written, version))
}
