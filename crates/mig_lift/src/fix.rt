//! The fix of a small chain, done to a map in place.
ghost use Rattle.std.specs.Prelude.{◌≡◌, ◌&&◌, OnOk, true, nat_lt, nat_le, if◌then◌else◌};
ghost use Rattle.mig_tree.specs.View.{plain_of};
ghost use Rattle.mig_model.specs.Const.{const_tree};
ghost use Rattle.mig_model.specs.Kinds.{IsMap, removed};
ghost use Rattle.mig_model.specs.Names.{moved, put, without};
ghost use Rattle.mig_model.specs.Plain.{on_entries};
ghost use Rattle.mig_leaf.specs.View.{const_of};
ghost use Rattle.mig_rule.specs.Lifted.{fixed_by, numbered};
ghost use Rattle.mig_lift.specs.Small.{is_small};
ghost use Rattle.mig_lift.specs.View.{with_edits, edits_of};

use crate::small::{SmallEdits, small_fix};
use mig_leaf::Const;
use mig_rule::Chain;
use mig_tree::{Memory, Name, Text, Tree};
use std::alloc::Global;

/// Takes a name out of a map and lets its tree go.
#[tactic(auto, using(crate::proofs::Edits::map_without))]
fn take_out(tree: &mut Tree, name: &Name)
    requires { IsMap (plain_of tree.old) }
    ensures map { IsMap (plain_of tree.new) }
    ensures rest { plain_of tree.new ≡ removed name.now (plain_of tree.old) }
{
    let removed = tree.remove(name.bytes());
    drop(removed);
}

/// Moves the tree under one name to another, in place of what is there.
fn rename<'a>(tree: &mut Tree<'a>, old_name: &Name, new_name: &'a Name) -> Result<(), Memory>
    requires { IsMap (plain_of tree.old) }
    ensures map { OnOk result (IsMap (plain_of tree.new)) }
    ensures renamed { OnOk result (plain_of tree.new
        ≡ on_entries (moved old_name.now new_name.now) (plain_of tree.old)) }
{
    let moved = tree.remove(old_name.bytes());
    take_out(tree, new_name);
    if let Some(moved) = moved {
        tree.put(Text::lent(new_name.bytes()), moved)?;
    }
    Ok(())
}

/// Puts a constant under a name, in place of what is there.
fn add<'a>(
    alloc: Global,
    tree: &mut Tree<'a>,
    name: &'a Name,
    constant: &Const,
) -> Result<(), Memory>
    requires { IsMap (plain_of tree.old) }
    ensures map { OnOk result (IsMap (plain_of tree.new)) }
    ensures added { OnOk result (plain_of tree.new
        ≡ on_entries (λ es. put name.now (const_tree (const_of constant.now)) (without name.now es))
        (plain_of tree.old)) }
{
    let constant = constant.tree(alloc)?;
    take_out(tree, name);
    tree.put(Text::lent(name.bytes()), constant)?;
    Ok(())
}

/// Does the edits to a map: one field gets another name, and one is added.
fn fix<'a>(alloc: Global, edits: SmallEdits<'a>, tree: &mut Tree<'a>) -> Result<(), Memory>
    requires { IsMap (plain_of tree.old) }
    ensures map { OnOk result (IsMap (plain_of tree.new)) }
    ensures fixed { OnOk result (plain_of tree.new ≡ with_edits (edits_of edits.entry) (plain_of tree.old)) }
{
    rename(tree, edits.old_name, edits.new_name)?;
    add(alloc, tree, edits.added, edits.constant)?;
    Ok(())
}

/// Whether a save of the version gets the fix of the number on the way to the target.
fn is_due(version: u32, number: u32, target: u32) -> bool
    ensures { result ≡ (nat_lt version number && nat_le number target) }
{
    version < number && number <= target
}

/// Does the edits where they are due.
fn fix_if<'a>(
    alloc: Global,
    due: bool,
    edits: SmallEdits<'a>,
    tree: &mut Tree<'a>,
) -> Result<(), Memory>
    requires { IsMap (plain_of tree.old) }
    ensures map { OnOk result (IsMap (plain_of tree.new)) }
    ensures fixed { OnOk result (plain_of tree.new
        ≡ (if due then with_edits (edits_of edits.entry) (plain_of tree.old) else plain_of tree.old)) }
{
    if due {
        return fix(alloc, edits, tree);
    }
    Ok(())
}

/// Does the fix of a small chain where it is due.
pub fn fix_if_due<'a>(
    alloc: Global,
    chain: &'a Chain,
    version: u32,
    target: u32,
    tree: &mut Tree<'a>,
) -> Result<(), Memory>
    requires small { is_small chain.now ≡ true }
    requires map { IsMap (plain_of tree.old) }
    ensures map { OnOk result (IsMap (plain_of tree.new)) }
    ensures fixed { OnOk result (plain_of tree.new
        ≡ fixed_by version target (numbered chain.now.steps) (plain_of tree.old)) }
{
    chain.keeps();
    let Some((number, edits)) = small_fix(chain) else {
        unreachable!()
    };
    fix_if(alloc, is_due(version, number, target), edits, tree)
}
