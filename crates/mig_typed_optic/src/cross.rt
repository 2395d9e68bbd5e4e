//! The optic to the body of a node.
ghost use Rattle.std.specs.Prelude.{◌≡◌};

use mig_path::{Counter, Memory, Optic, Value, only, single};
use mig_value::Node;
use std::alloc::Global;

/// The body of a node. Parting counts one.
#[derive(Clone, Copy, Debug, Drop)]
pub struct Cross;

/// A node with Null for its body.
#[derive(Debug, Drop)]
pub struct CrossRest<'a> {
    node: Box<Node<'a>>,
}

impl<'a> Optic<'a> for Cross {
    ghost use Rattle.mig_path.specs.Path.{cross};
    ghost use Rattle.mig_path.specs.Rest.{named};

    type Residue = CrossRest<'a>;

    ghost path = { λ o. cross };

    ghost rest = { λ r. named r.node.value.0 };

    fn part<C: Counter>(
        &self,
        alloc: Global,
        value: Value<'a>,
        steps: &mut C,
    ) -> Result<(Vec<Value<'a>>, CrossRest<'a>), Memory> {
        let Value::Point(node) = value else {
            unreachable!()
        };
        let mut node = node;
        let body = node.open(steps);
        Ok((single(alloc, body)?, CrossRest { node }))
    }

    fn rejoin(
        &self,
        alloc: Global,
        foci: Vec<Value<'a>>,
        residue: CrossRest<'a>,
    ) -> Result<Value<'a>, Memory> {
        let CrossRest { node } = residue;
        let mut node = node;
        node.close(only(foci));
        Ok(Value::Point(node))
    }
}
