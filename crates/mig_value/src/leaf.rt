//! Leaves: whether a value is one, and the leaf of a value or of a node in it.
ghost use Rattle.std.specs.Prelude.{◌≡◌, None, Some, IfErr, IfOk, IsTrue, is_some};
ghost use Rattle.mig_tree.specs.View.{plain_of};
ghost use Rattle.mig_model.specs.Kinds.{kind_of};
ghost use Rattle.mig_model.specs.Template.{is_leaf};
ghost use Rattle.mig_value.specs.Leaf.{leaf_of};
ghost use Rattle.mig_value.specs.View.{typed_of};

use crate::{Tree, Value};
use mig_tree::Kind;

/// Whether the tree has a leaf kind: every kind but List and Map.
fn is_leaf(tree: &Tree) -> bool
    ensures { result ≡ is_leaf (kind_of (plain_of tree.now)) }
{
    !matches!(tree.kind(), Kind::List | Kind::Map)
}

/// Whether a tree of a leaf kind stands in an atom, also inside a side or a node.
pub fn has_leaf(value: &Value) -> bool
    ensures { result ≡ is_some (leaf_of (typed_of value.now)) }
{
    match value {
        Value::Atom(tree) => is_leaf(tree),
        Value::Left(value) | Value::Right(value) => has_leaf(value.get()),
        Value::Point(node) => has_leaf(node.body()),
        Value::List(_) | Value::Rec(_) => false,
    }
}

/// The leaf that is there.
pub fn take_leaf<'a>(value: Value<'a>) -> Tree<'a>
    requires { IsTrue (is_some (leaf_of (typed_of value))) }
    ensures { leaf_of (typed_of value.entry) ≡ Some (plain_of result) }
{
    match value {
        Value::Atom(tree) => tree,
        Value::Left(value) | Value::Right(value) => take_leaf(value.into_value()),
        Value::Point(node) => take_leaf(Box::into_inner(node).into_body()),
        Value::List(_) | Value::Rec(_) => unreachable!(),
    }
}
