//! Names in the order in which they were written, which are searched in log n.
ghost use Rattle.std.specs.Prelude.{◌≡◌, IfOk, IsPermutation};
ghost use Rattle.mig_model.specs.Names.{is_among, has_twice};
ghost use Rattle.mig_slots.specs.Sorted.{AreSorted};

use mig_model::{ascends, place_by_key, sort_by_key};
use mig_tree::{Memory, Name};
use std::alloc::Global;
use std::marker::Model;

/// Names in the order in which they were written, possibly repeated. Contracts see the list of the names.
#[derive(Debug, Drop)]
pub struct Names {
    list: Vec<Name>,
    // Equal names in ascending order, for the search.
    sorted: Vec<Name>,
}

impl Model for Names {
    ghost use Rattle.std.specs.Prelude.{ℕ, List};
    ghost use Rattle.mig_slots.specs.Sorted.{AreInOrder};

    ghost Value = { List (List ℕ) };

    ghost view = { λ a. a.list.items };

    ghost invariant = { λ a. AreInOrder a.list.items a.sorted.items };
}

/// Equal names.
fn copy_names(alloc: Global, names: &[Name]) -> Result<Vec<Name>, Memory>
    ensures { IfOk result (λ ns. ns.items ≡ names.now) }
{
    let mut list = Vec::new(alloc);
    for name in names {
        list.push(name.copy(alloc)?)?;
    }
    Ok(list)
}

impl Names {
    /// These names. It copies and sorts them for the search.
    pub fn new(alloc: Global, list: Vec<Name>) -> Result<Names, Memory>
        ensures { IfOk result (λ ns. ns ≡ list.items) }
    {
        let mut sorted = copy_names(alloc, list.as_slice())?;
        sort_by_key(&mut sorted);
        Ok(Names { list, sorted })
    }

    /// The names, as they were written.
    pub fn as_slice(&self) -> &[Name]
        ensures { result.now ≡ self.now }
    {
        self.list.as_slice()
    }

    /// Gives the names up.
    pub fn into_vec(self) -> Vec<Name>
        ensures { result.items ≡ self }
    {
        let Names { list, sorted } = self;
        drop(sorted);
        list
    }

    /// Whether the name is one of these. It takes log n comparisons.
    pub fn contains(&self, name: &[u8]) -> bool
        ensures { result ≡ is_among self.now name.now }
    {
        place_by_key(self.sorted.as_slice(), name).is_ok()
    }

    /// Whether a name is there twice.
    pub fn has_twice(&self) -> bool
        ensures { result ≡ has_twice self.now }
    {
        !ascends(self.sorted.as_slice())
    }

    /// Equal names.
    pub fn copy(&self, alloc: Global) -> Result<Names, Memory>
        ensures { IfOk result (λ ns. ns ≡ self.now) }
    {
        let list = copy_names(alloc, self.as_slice())?;
        Names::new(alloc, list)
    }
}
