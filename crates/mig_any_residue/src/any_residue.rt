//! What any optic leaves of a value.
ghost use Rattle.std.specs.Prelude.{◌≡◌, IfOk, map};
ghost use Rattle.mig_path.specs.Rest.{both, groups_of};
ghost use Rattle.mig_any_residue.specs.HeldView.{held_rest, group_pair};

use mig_path::{Memory, SideRest};
use mig_record_optic::{CaseRest, Hole, MayRest};
use mig_typed_optic::{CrossRest, EachRest};
use std::alloc::Global;
use std::marker::Model;

/// What is left of a value without the foci of an `AnyOptic`. Contracts see the rest that it stands for.
#[cycle(any_residue)]
#[derive(Debug)]
pub struct AnyResidue<'a> {
    held: Held<'a>,
}

impl Drop for AnyResidue<'_> {
    #[cycle(drops)]
    fn drop(self) {
        let AnyResidue { held } = self;
        drop(held);
    }
}

/// The residue of each optic.
#[cycle(any_residue)]
#[derive(Debug, Drop)]
pub(crate) enum Held<'a> {
    Whole,
    Field(Hole<'a>),
    May(MayRest<'a>),
    Case(CaseRest<'a>),
    Each(EachRest),
    Side(SideRest<'a>),
    Cross(CrossRest<'a>),
    Both(Box<AnyResidue<'a>>, AnyGroups<'a>),
}

/// What is left of one focus of the first optic, and how many foci the second has there.
#[cycle(any_residue)]
#[derive(Debug, Drop)]
pub struct AnyGroup<'a> {
    pub count: usize,
    pub residue: AnyResidue<'a>,
}

/// What is left of each focus of the first optic.
#[cycle(any_residue)]
#[derive(Debug)]
pub struct AnyGroups<'a> {
    list: Vec<AnyGroup<'a>>,
}

impl Drop for AnyGroups<'_> {
    #[cycle(drops)]
    fn drop(self) {
        let AnyGroups { list } = self;
        drop(list);
    }
}

impl<'a> Model for AnyResidue<'a> {
    ghost use Rattle.mig_path.specs.Rest.{Residual};
    ghost use Rattle.mig_any_residue.specs.RestCode.{rest_size, coded_rest};

    ghost Value = { Residual };

    ghost coded = { coded_rest };

    ghost use Rattle.mig_any_residue.specs.HeldView.{held_rest};

    ghost view = { λ a. held_rest a.held };

    ghost size = { rest_size };

    ghost use Rattle.std.proofs.Common.{arith};
    ghost use Rattle.mig_any_residue.specs.HeldFalls.{deep_rest};

    ghost size_decreases = { λ a h. omega (arith, deep_rest a.held) };
}

impl<'a> Model for AnyGroups<'a> {
    ghost use Rattle.std.specs.Prelude.{List, ℕ, map};
    ghost use Rattle.mig_path.specs.Rest.{Residual};
    ghost use Rattle.mig_any_residue.specs.RestCode.{list_size, coded_groups};

    ghost Value = { List (ℕ × Residual) };

    ghost coded = { coded_groups };

    ghost use Rattle.mig_any_residue.specs.HeldView.{group_pair};

    ghost view = { λ a. map group_pair a.list.items };

    ghost size = { list_size };

    ghost use Rattle.std.proofs.Common.{arith};
    ghost use Rattle.mig_any_residue.specs.HeldFalls.{most_groups};

    ghost size_decreases = { λ a h. omega (arith, most_groups a.list.items) };
}

impl<'a> AnyResidue<'a> {
    /// The residue that holds this.
    pub(crate) fn new(held: Held<'a>) -> AnyResidue<'a>
        ensures { result ≡ held_rest held.entry }
    {
        AnyResidue { held }
    }

    /// The residue of an optic after another: that of the first, and that of the second at each focus of it.
    pub fn both(
        alloc: Global,
        outer: AnyResidue<'a>,
        inner: Vec<AnyGroup<'a>>,
    ) -> Result<AnyResidue<'a>, Memory>
        ensures { IfOk result (λ r. r ≡ both outer.entry (groups_of (map group_pair inner.entry.items))) }
    {
        let outer = Box::new(alloc, outer)?;
        Ok(AnyResidue::new(Held::Both(outer, AnyGroups::new(inner))))
    }

    /// Gives up what it holds.
    pub(crate) fn into_held(self) -> Held<'a>
        ensures { held_rest result ≡ self.entry }
    {
        let AnyResidue { held } = self;
        held
    }
}

impl<'a> AnyGroups<'a> {
    /// These groups.
    pub(crate) fn new(list: Vec<AnyGroup<'a>>) -> AnyGroups<'a>
        ensures { result ≡ map group_pair list.entry.items }
    {
        AnyGroups { list }
    }

    /// Gives the groups up.
    pub(crate) fn into_vec(self) -> Vec<AnyGroup<'a>>
        ensures { map group_pair result.items ≡ self.entry }
    {
        let AnyGroups { list } = self;
        list
    }
}
