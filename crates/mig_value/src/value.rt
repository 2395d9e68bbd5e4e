//! Typed values.
use crate::leaf::{has_leaf, take_leaf};
use crate::{Node, RecValue, Tree, ValueBox, Values};
use std::mem::size_of;

/// A save or a part of one, read by a template. A leaf, an `Any` and an unknown field are an atom; the sides of a sum are `Left` and `Right`.
#[cycle(value)]
#[derive(Debug, Drop)]
pub enum Value<'a> {
    Atom(Tree<'a>),
    List(Values<'a>),
    Left(ValueBox<'a>),
    Right(ValueBox<'a>),
    Rec(RecValue<'a>),
    /// A tree of a named type.
    Point(Box<Node<'a>>),
}

const _: () = prove!(size_of::<Value<'static>>() <= 48);

impl<'a> Value<'a> {
    ghost use Rattle.std.specs.Prelude.{◌≡◌, None, Some, IfErr, IfOk};
    ghost use Rattle.mig_tree.specs.View.{plain_of};
    ghost use Rattle.mig_value.specs.Leaf.{leaf_of};
    ghost use Rattle.mig_value.specs.Kept.{ValueKept};
    ghost use Rattle.mig_value.specs.View.{typed_of};

    /// Does nothing. Its contract tells what every value keeps at every depth.
    pub fn keeps(&self)
        ensures { ValueKept (typed_of self.now) }
    {
        match self {
            Value::Atom(tree) => tree.keeps(),
            Value::List(values) => {
                let _values = values.as_slice();
            }
            Value::Left(value) | Value::Right(value) => {
                let _value = value.get();
            }
            Value::Rec(record) => record.keeps(),
            Value::Point(node) => node.keeps(),
        }
    }

    /// The value's tree, where that has a leaf kind and stands in an atom, also inside a side of a sum or a node; otherwise the value comes back. It counts nothing.
    pub fn leaf(self) -> Result<Tree<'a>, Value<'a>>
        ensures leaf { IfOk result (λ t. leaf_of (typed_of self.entry) ≡ Some (plain_of t)) }
        ensures none { IfErr result (λ v. leaf_of (typed_of self.entry) ≡ None) }
        ensures back { IfErr result (λ v. v ≡ self.entry) }
    {
        if has_leaf(&self) {
            Ok(take_leaf(self))
        } else {
            Err(self)
        }
    }
}
