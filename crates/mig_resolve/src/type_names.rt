//! The names of the types under one schema.
ghost use Rattle.std.specs.Prelude.{◌≡◌, [], OnOk};
ghost use Rattle.indexmap.specs.IndexSet.{insert_key};
ghost use Rattle.mig_model.specs.Names.{is_among, same_name};

use indexmap::IndexSet;
use mig_tree::{Memory, Name};
use std::alloc::Global;
use std::marker::Model;

/// Names, each once. Contracts see the list of the names.
#[derive(Debug)]
pub struct TypeNames {
    set: IndexSet<Name>,
}

impl Drop for TypeNames {
    fn drop(self) {
        let TypeNames { set } = self;
        drop(set);
    }
}

impl Model for TypeNames {
    ghost use Rattle.std.specs.Prelude.{ℕ, List};

    ghost Value = { List (List ℕ) };

    ghost view = { λ a. a.set.keys };
}

impl TypeNames {
    /// No name.
    pub fn new(alloc: Global) -> TypeNames
        ensures { result ≡ [] }
    {
        TypeNames {
            set: IndexSet::new(alloc),
        }
    }

    /// Whether the name is one of these. It takes one look-up.
    pub fn has(&self, name: &Name) -> bool
        ensures { result ≡ is_among self.now name.now }
    {
        self.set.contains(name)
    }

    /// Adds the name, if it isn't there.
    pub fn add(&mut self, name: Name) -> Result<(), Memory>
        ensures { OnOk result (self.new ≡ insert_key same_name self.old name) }
    {
        let _new = self.set.insert(name)?;
        Ok(())
    }
}
