//! The items of a list.
ghost use Rattle.std.specs.Prelude.{◌≡◌, ◌++◌, ◌∷◌, [], OnOk, OnErr, length, map};

use crate::{Memory, Tree};
use std::alloc::Global;
use std::marker::Model;

/// The items of a list, which contracts see as a list of plain trees.
#[cycle(tree)]
#[derive(Debug)]
pub struct Items<'a> {
    items: Vec<Tree<'a>>,
}

impl Drop for Items<'_> {
    #[cycle(drops)]
    fn drop(self) {
        let Items { items } = self;
        drop(items);
    }
}

impl<'a> Model for Items<'a> {
    ghost use Rattle.std.specs.Prelude.{List, map};
    ghost use Rattle.mig_model.specs.Plain.{Plain, items_size};
    ghost use Rattle.mig_model.specs.Code.{coded_items};

    ghost Value = { List Plain };

    ghost coded = { coded_items };

    ghost use Rattle.mig_tree.specs.View.{plain_of};

    ghost view = { λ a. map plain_of a.items.items };

    ghost use Rattle.mig_model.specs.Keeps.{ItemsKeep};

    ghost invariant = { λ a. ItemsKeep (map plain_of a.items.items) };

    ghost size = { items_size };

    ghost use Rattle.std.proofs.Common.{arith};
    ghost use Rattle.mig_tree.specs.Falls.{most_items};

    ghost size_decreases = { λ a h. omega (arith, most_items a.items.items) };
}

impl<'a> Items<'a> {
    ghost use Rattle.mig_tree.specs.View.{plain_of};
    ghost use Rattle.mig_model.specs.Keeps.{ItemsKeep};

    /// No items.
    pub fn empty(alloc: Global) -> Items<'a>
        ensures { result ≡ [] }
    {
        Items {
            items: Vec::new(alloc),
        }
    }

    /// These items, each of which keeps what a tree keeps.
    pub fn new(list: Vec<Tree<'a>>) -> Items<'a>
        requires { ItemsKeep (map plain_of list.items) }
        ensures { result ≡ map plain_of list.entry.items }
    {
        Items { items: list }
    }

    /// The number of items.
    pub fn len(&self) -> usize
        ensures { result ≡ length self.now }
    {
        self.items.len()
    }

    /// The items.
    pub fn as_slice(&self) -> &[Tree<'a>]
        ensures items { map plain_of result.now ≡ self.now }
        ensures keep { ItemsKeep self.now }
    {
        self.items.as_slice()
    }

    /// Gives the items up.
    pub fn into_vec(self) -> Vec<Tree<'a>>
        ensures items { map plain_of result.items ≡ self.entry }
        ensures keep { ItemsKeep self.entry }
    {
        let Items { items } = self;
        items
    }

    /// One more item, behind the others. An `Err` changes nothing.
    pub fn push(&mut self, tree: Tree<'a>) -> Result<(), Memory>
        ensures ok { OnOk result (self.new ≡ self.old ++ plain_of tree.entry ∷ []) }
        ensures err { OnErr result (self.new ≡ self.old) }
    {
        tree.keeps();
        self.items.push(tree)?;
        let _len = self.items.len();
        Ok(())
    }
}
