//! The optic to the items of a list.
ghost use Rattle.std.specs.Prelude.{◌≡◌};

use mig_path::{Counter, Memory, Optic, Value};
use mig_value::Values;
use std::alloc::Global;

/// The items of a list, in order.
#[derive(Clone, Copy, Debug, Drop)]
pub struct Each;

/// How many items the list has.
#[derive(Clone, Copy, Debug, Drop)]
pub struct EachRest {
    pub count: usize,
}

impl<'a> Optic<'a> for Each {
    ghost use Rattle.mig_path.specs.Path.{each};
    ghost use Rattle.mig_path.specs.Rest.{many};

    type Residue = EachRest;

    ghost path = { λ o. each };

    ghost rest = { λ r. many r.count };

    #[tactic(auto, using(mig_value::proofs::Views::items_again, crate::proofs::Views::length_views))]
    fn part<C: Counter>(
        &self,
        alloc: Global,
        value: Value<'a>,
        steps: &mut C,
    ) -> Result<(Vec<Value<'a>>, EachRest), Memory> {
        let Value::List(values) = value else {
            unreachable!()
        };
        let list = values.into_vec();
        let count = list.len();
        Ok((list, EachRest { count }))
    }

    fn rejoin(
        &self,
        alloc: Global,
        foci: Vec<Value<'a>>,
        residue: EachRest,
    ) -> Result<Value<'a>, Memory> {
        Ok(Value::List(Values::new(foci)))
    }
}
