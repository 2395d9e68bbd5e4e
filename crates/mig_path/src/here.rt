//! The optic to the value itself.
ghost use Rattle.std.specs.Prelude.{◌≡◌};

use crate::lists::{only, single};
use crate::{Counter, Memory, Optic, Value};
use std::alloc::Global;

/// The value itself.
#[derive(Clone, Copy, Debug, Drop)]
pub struct Here;

/// Nothing is left of a value that is its own focus.
#[derive(Clone, Copy, Debug, Drop)]
pub struct HereRest;

impl<'a> Optic<'a> for Here {
    ghost use Rattle.mig_path.specs.Path.{here};
    ghost use Rattle.mig_path.specs.Rest.{whole};

    type Residue = HereRest;

    ghost path = { λ o. here };

    ghost rest = { λ r. whole };

    fn part<C: Counter>(
        &self,
        alloc: Global,
        value: Value<'a>,
        steps: &mut C,
    ) -> Result<(Vec<Value<'a>>, HereRest), Memory> {
        Ok((single(alloc, value)?, HereRest))
    }

    fn rejoin(
        &self,
        alloc: Global,
        foci: Vec<Value<'a>>,
        residue: HereRest,
    ) -> Result<Value<'a>, Memory> {
        Ok(only(foci))
    }
}
