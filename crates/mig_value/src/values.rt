//! The values of a list.
ghost use Rattle.std.specs.Prelude.{◌≡◌, map};

use crate::Value;
use crate::keeping::are_kept;
use std::marker::Model;

/// The items of a list, which contracts see as a list of plain values.
#[cycle(value)]
#[derive(Debug)]
pub struct Values<'a> {
    list: Vec<Value<'a>>,
}

impl Drop for Values<'_> {
    #[cycle(drops)]
    fn drop(self) {
        let Values { list } = self;
        drop(list);
    }
}

impl<'a> Model for Values<'a> {
    ghost use Rattle.std.specs.Prelude.{List, map};
    ghost use Rattle.mig_value.specs.Typed.{Typed};
    ghost use Rattle.mig_value.specs.Code.{coded_items};

    ghost Value = { List Typed };

    ghost coded = { coded_items };

    ghost use Rattle.mig_value.specs.View.{typed_of};

    ghost view = { λ a. map typed_of a.list.items };

    ghost use Rattle.mig_value.specs.Kept.{ItemListKept};

    ghost invariant = { λ a. ItemListKept (map typed_of a.list.items) };

    ghost use Rattle.mig_value.specs.Typed.{item_list_size};

    ghost size = { item_list_size };

    ghost use Rattle.std.proofs.Common.{arith};
    ghost use Rattle.mig_value.specs.Falls.{most_items};

    ghost size_decreases = { λ a h. omega (arith, most_items a.list.items) };
}

impl<'a> Values<'a> {
    ghost use Rattle.mig_value.specs.Kept.{ItemListKept};
    ghost use Rattle.mig_value.specs.View.{typed_of};

    /// These items.
    pub fn new(list: Vec<Value<'a>>) -> Values<'a>
        ensures { result ≡ map typed_of list.entry.items }
    {
        prove!(are_kept(&list));
        Values { list }
    }

    /// The items.
    pub fn as_slice(&self) -> &[Value<'a>]
        ensures items { map typed_of result.now ≡ self.now }
        ensures keep { ItemListKept self.now }
    {
        self.list.as_slice()
    }

    /// Gives the items up.
    pub fn into_vec(self) -> Vec<Value<'a>>
        ensures items { map typed_of result.items ≡ self.entry }
        ensures keep { ItemListKept self.entry }
    {
        let Values { list } = self;
        list
    }
}
