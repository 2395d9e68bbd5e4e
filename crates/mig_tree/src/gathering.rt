//! The one map of pairs that come in any order.
ghost use Rattle.std.specs.Prelude.{ℕ, List, map, IsTrue, IsPermutation, IfSome, IfNone};
ghost use Rattle.mig_model.specs.Plain.{Plain, pairs_of};
ghost use Rattle.mig_model.specs.Names.{Ascends};
ghost use Rattle.mig_model.specs.Keeps.{IsShort, AllPairsKeep, EntriesKeep};
ghost use Rattle.mig_tree.specs.View.{entry_of};

use crate::{Entries, Entry};
use mig_model::{ascends, sort_by_key};

/// Tells what each tree and each name of the list keeps. It is called in a `prove!`, and costs nothing at run time.
fn entries_are_kept(list: &[Entry]) -> bool
    ensures always { IsTrue result }
    ensures short { IsShort (map entry_of list.now) }
    ensures each { AllPairsKeep (pairs_of (map entry_of list.now)) }
{
    let _len = list.len();
    for entry in list {
        entry.name.keeps();
        entry.tree.keeps();
    }
    true
}

/// The map of these pairs, which may come in any order, and `None` where two names are equal.
pub fn gather<'a>(mut list: Vec<Entry<'a>>) -> Option<Entries<'a>>
    ensures found { IfSome result (IsPermutation (map entry_of list.entry.items)) }
    ensures keep { IfSome result EntriesKeep }
    ensures twice { IfNone result ((ps : List (List ℕ × Plain)) →
        IsPermutation (map entry_of list.entry.items) ps → Ascends ps → ⊥) }
{
    sort_by_key(&mut list);
    if !ascends(&list) {
        drop(list);
        return None;
    }
    prove!(entries_are_kept(&list));
    Some(Entries::new(list))
}
