//! The pairs of a map, in the order of their names.
ghost use Rattle.std.specs.Prelude.{◌≡◌, [], IfOk, OnOk, OnErr, length, map, option_map, is_some, if◌then◌else◌};
ghost use Rattle.std.specs.List.Sorted.{IsSearchInRange};
ghost use Rattle.std_collections.specs.Layout.BTreeMap.{seek};
ghost use Rattle.mig_model.specs.Names.{by_bytes, without, Ascends, put, under};
ghost use Rattle.mig_model.specs.Keeps.{EntriesKeep};

use crate::{Memory, Text, Tree};
use mig_model::{Keyed, place_by_key};
use std::alloc::Global;
use std::marker::Model;
use std::mem;

/// A name and its tree.
#[cycle(tree)]
#[derive(Debug, Drop)]
pub struct Entry<'a> {
    pub name: Text<'a>,
    pub tree: Tree<'a>,
}

impl<'a> Keyed for Entry<'a> {
    ghost key = { λ e. e.name };

    fn key(&self) -> &[u8] {
        self.name.bytes()
    }
}

/// The pairs of a map, whose names are distinct and ascend by bytes. Contracts see the list of the pairs.
#[cycle(tree)]
#[derive(Debug)]
pub struct Entries<'a> {
    list: Vec<Entry<'a>>,
}

impl Drop for Entries<'_> {
    #[cycle(drops)]
    fn drop(self) {
        let Entries { list } = self;
        drop(list);
    }
}

impl<'a> Model for Entries<'a> {
    ghost use Rattle.std.specs.Prelude.{List, map, ℕ};
    ghost use Rattle.mig_model.specs.Plain.{Plain, entries_size};
    ghost use Rattle.mig_model.specs.Code.{coded_entries};

    ghost Value = { List (List ℕ × Plain) };

    ghost coded = { coded_entries };

    ghost use Rattle.mig_tree.specs.View.{entry_of};

    ghost view = { λ a. map entry_of a.list.items };

    ghost use Rattle.mig_model.specs.Keeps.{EntriesKeep};

    ghost invariant = { λ a. EntriesKeep (map entry_of a.list.items) };

    ghost size = { entries_size };

    ghost use Rattle.std.proofs.Common.{arith};
    ghost use Rattle.mig_tree.specs.Falls.{most_entries};

    ghost size_decreases = { λ a h. omega (arith, most_entries a.list.items) };
}

impl<'a> Entries<'a> {
    ghost use Rattle.mig_tree.specs.View.{plain_of, entry_of};

    /// No pairs.
    pub fn empty(alloc: Global) -> Entries<'a>
        ensures { result ≡ [] }
    {
        Entries {
            list: Vec::new(alloc),
        }
    }

    /// The pairs, ascending by name.
    pub fn as_slice(&self) -> &[Entry<'a>]
        ensures pairs { map entry_of result.now ≡ self.now }
        ensures keep { EntriesKeep self.now }
    {
        self.list.as_slice()
    }

    /// Where the name is, or where it would go. It takes log n comparisons.
    fn place(list: &[Entry], name: &[u8]) -> Result<usize, usize>
        requires { Ascends (map entry_of list.now) }
        ensures bound { IsSearchInRange result (length list.now) }
        ensures place { result ≡ seek (by_bytes name.now) (map entry_of list.now) }
    {
        place_by_key(list, name)
    }

    /// These pairs, whose names ascend and whose trees keep what a tree keeps.
    pub fn new(list: Vec<Entry<'a>>) -> Entries<'a>
        requires { EntriesKeep (map entry_of list.items) }
        ensures { result ≡ map entry_of list.entry.items }
    {
        Entries { list }
    }

    /// Gives the pairs up.
    pub fn into_vec(self) -> Vec<Entry<'a>>
        ensures pairs { map entry_of result.items ≡ self.entry }
        ensures keep { EntriesKeep self.entry }
    {
        let Entries { list } = self;
        list
    }

    /// The tree under the name.
    pub fn get(&self, name: &[u8]) -> Option<&Tree<'a>>
        ensures { option_map (λ t. plain_of t.now) result ≡ under name.now self.now }
    {
        match Entries::place(self.list.as_slice(), name) {
            Ok(at) => Some(&self.list[at].tree),
            Err(_) => None,
        }
    }

    /// Puts the tree under the name, in place of an earlier one. An `Err` changes nothing.
    pub fn put(&mut self, name: Text<'a>, tree: Tree<'a>) -> Result<(), Memory>
        ensures ok { OnOk result (self.new ≡ put name.entry (plain_of tree.entry) self.old) }
        ensures err { OnErr result (self.new ≡ self.old) }
    {
        name.keeps();
        tree.keeps();
        match Entries::place(self.list.as_slice(), name.bytes()) {
            Ok(at) => {
                let old = mem::replace(&mut self.list[at], Entry { name, tree });
                drop(old);
                Ok(())
            }
            Err(at) => {
                self.list.insert(at, Entry { name, tree })?;
                let _len = self.list.len();
                Ok(())
            }
        }
    }

    /// Puts the tree in place of the one that stands under the name, which is answered; where the name isn't there, nothing changes. It takes no memory.
    pub fn swap(&mut self, name: &[u8], tree: Tree<'a>) -> Option<Tree<'a>>
        ensures tree { option_map plain_of result ≡ under name.now self.old }
        ensures rest { self.new
            ≡ (if is_some (under name.now self.old) then put name.now
            (plain_of tree.entry) self.old else self.old) }
    {
        tree.keeps();
        let _length = name.len();
        match Entries::place(self.list.as_slice(), name) {
            Ok(at) => Some(mem::replace(&mut self.list[at].tree, tree)),
            Err(_) => {
                drop(tree);
                None
            }
        }
    }

    /// Takes the pair of the name out and answers its tree.
    pub fn remove(&mut self, name: &[u8]) -> Option<Tree<'a>>
        ensures tree { option_map plain_of result ≡ under name.now self.old }
        ensures rest { self.new ≡ without name.now self.old }
    {
        match Entries::place(self.list.as_slice(), name) {
            Ok(at) => {
                let Entry { name, tree } = self.list.remove(at);
                drop(name);
                Some(tree)
            }
            Err(_) => None,
        }
    }
}
