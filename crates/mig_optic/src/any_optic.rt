//! Optics that are chosen at run time.
ghost use Rattle.std.specs.Prelude.{◌≡◌, IfOk};
ghost use Rattle.mig_optic.specs.AnyView.{any_path};
ghost use Rattle.mig_path.specs.Path.{then_};

use crate::{CaseOf, FieldAt, MayField, Memory, Side};
use std::alloc::Global;
use std::marker::Model;

/// Any optic, chosen at run time.
#[cycle(any_optic)]
#[derive(Debug, Drop)]
pub enum AnyOptic {
    Here,
    FieldAt(FieldAt),
    MayField(MayField),
    CaseOf(CaseOf),
    Each,
    Side(Side),
    Cross,
    Then(OpticBox, OpticBox),
}

/// An optic on the heap.
#[cycle(any_optic)]
#[derive(Debug)]
pub struct OpticBox {
    optic: Box<AnyOptic>,
}

impl Drop for OpticBox {
    #[cycle(drops)]
    fn drop(self) {
        let OpticBox { optic } = self;
        drop(optic);
    }
}

impl Model for OpticBox {
    ghost use Rattle.mig_path.specs.Path.{Path};
    ghost use Rattle.mig_optic.specs.Code.{path_size, coded_path};

    ghost Value = { Path };

    ghost coded = { coded_path };

    ghost use Rattle.mig_optic.specs.AnyView.{any_path};

    ghost view = { λ a. any_path a.optic.value };

    ghost size = { path_size };

    ghost use Rattle.std.proofs.Common.{arith};
    ghost use Rattle.mig_optic.specs.AnyFalls.{deep_path};

    ghost size_decreases = { λ a h. omega (arith, deep_path a.optic.value) };
}

impl OpticBox {
    /// The optic, on the heap.
    pub fn new(alloc: Global, optic: AnyOptic) -> Result<OpticBox, Memory>
        ensures { IfOk result (λ b. b ≡ any_path optic) }
    {
        Ok(OpticBox {
            optic: Box::new(alloc, optic)?,
        })
    }

    /// The optic itself.
    pub fn get(&self) -> &AnyOptic
        ensures { any_path result.now ≡ self.now }
    {
        &self.optic
    }
}

impl AnyOptic {
    /// The second optic at each focus of the first. It allocates two boxes.
    pub fn then(alloc: Global, first: AnyOptic, second: AnyOptic) -> Result<AnyOptic, Memory>
        ensures { IfOk result (λ o. any_path o ≡ then_ (any_path first) (any_path second)) }
    {
        Ok(AnyOptic::Then(OpticBox::new(alloc, first)?, OpticBox::new(alloc, second)?))
    }

    /// An equal optic. Its depth is that of the optic.
    pub fn copy(&self, alloc: Global) -> Result<AnyOptic, Memory>
        ensures { IfOk result (λ o. any_path o ≡ any_path self.now) }
    {
        Ok(match self {
            AnyOptic::Here => AnyOptic::Here,
            AnyOptic::FieldAt(optic) => AnyOptic::FieldAt(FieldAt {
                name: optic.name.copy(alloc)?,
            }),
            AnyOptic::MayField(optic) => AnyOptic::MayField(MayField {
                name: optic.name.copy(alloc)?,
            }),
            AnyOptic::CaseOf(optic) => AnyOptic::CaseOf(CaseOf {
                literal: optic.literal.copy(alloc)?,
            }),
            AnyOptic::Each => AnyOptic::Each,
            AnyOptic::Side(side) => AnyOptic::Side(*side),
            AnyOptic::Cross => AnyOptic::Cross,
            AnyOptic::Then(first, second) => AnyOptic::then(
                alloc,
                first.get().copy(alloc)?,
                second.get().copy(alloc)?,
            )?,
        })
    }
}
