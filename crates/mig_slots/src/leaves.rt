//! Leaf functions at slots, slots that become lists, and sums that become one leaf.
ghost use Rattle.std.specs.Prelude.{◌≡◌, [], IfOk, IfSome};
ghost use Rattle.mig_model.specs.Leaf.{leaf_value};
ghost use Rattle.mig_leaf.specs.View.{leaf_fn_of};
ghost use Rattle.mig_value.specs.View.{typed_of};
ghost use Rattle.mig_value.specs.Typed as typed;
ghost use Rattle.mig_model.specs.Names.{under, changed};
ghost use Rattle.mig_field.specs.FieldFn as op;
ghost use Rattle.mig_field.specs.Act.{unified};
ghost use Rattle.mig_action.specs.Moves.{move, at_leaf, at_side};
ghost use Rattle.mig_slots.specs.View.{moving_of, IsOrdered};
ghost use Rattle.mig_slots.specs.Fitting.{FitsAtom, OneFitsAtom, OneFitsSide};

use crate::edits::{place, set_value_at, take_value_at};
use crate::{Memory, Moving, Name, Value};
use mig_leaf::LeafFn;
use mig_tree::Kind;
use mig_value::Values;
use std::alloc::Global;

/// An atom with another tree; any other value as it is.
fn mapped<'a>(alloc: Global, value: Value<'a>, function: &LeafFn) -> Result<Value<'a>, Memory>
    requires { FitsAtom (leaf_fn_of function.now) (typed_of value) }
    ensures { IfOk result (λ v. typed_of v ≡ at_leaf (leaf_value (leaf_fn_of function.now)) (typed_of value.entry)) }
{
    match value {
        Value::Atom(tree) => Ok(Value::Atom(function.apply(alloc, tree)?)),
        other => Ok(other),
    }
}

/// Does the function to the leaf of the field, where an atom stands there.
pub fn map_leaf<'a>(
    alloc: Global,
    mut moving: Moving<'a>,
    x: &Name,
    function: &LeafFn,
) -> Result<Moving<'a>, Memory>
    requires ordered { IsOrdered (moving_of moving) }
    requires fits { IfSome (under x.now (moving_of moving).slots) (FitsAtom (leaf_fn_of function.now)) }
    ensures { IfOk result (λ m. moving_of m
        ≡ move (op.map_leaf x.now (leaf_fn_of function.now)) [] (moving_of moving.entry)) }
{
    let Ok(at) = place(moving.slots.as_slice(), x.bytes()) else {
        return Ok(moving);
    };
    let value = take_value_at(&mut moving.slots, at);
    let value = mapped(alloc, value, function)?;
    set_value_at(&mut moving.slots, at, value);
    Ok(moving)
}

/// An atom with another tree, by the first function where it has the kind, and else by the second; any other value as it is.
fn one_mapped<'a>(
    alloc: Global,
    value: Value<'a>,
    kind: Kind,
    first: &LeafFn,
    second: &LeafFn,
) -> Result<Value<'a>, Memory>
    requires { OneFitsAtom (leaf_fn_of first.now) (leaf_fn_of second.now) kind (typed_of value) }
    ensures { IfOk result (λ v. typed_of v
        ≡ at_leaf (unified (leaf_fn_of first.now) (leaf_fn_of second.now) kind) (typed_of value.entry)) }
{
    match value {
        Value::Atom(tree) => {
            if tree.kind() == kind {
                Ok(Value::Atom(first.apply(alloc, tree)?))
            } else {
                Ok(Value::Atom(second.apply(alloc, tree)?))
            }
        }
        other => Ok(other),
    }
}

/// What stands in a side, with its leaf changed; any other value as it is.
fn side_mapped<'a>(
    alloc: Global,
    value: Value<'a>,
    kind: Kind,
    first: &LeafFn,
    second: &LeafFn,
) -> Result<Value<'a>, Memory>
    requires { OneFitsSide (leaf_fn_of first.now) (leaf_fn_of second.now) kind (typed_of value) }
    ensures { IfOk result (λ v. typed_of v
        ≡ at_side (unified (leaf_fn_of first.now) (leaf_fn_of second.now) kind) (typed_of value.entry)) }
{
    match value {
        Value::Left(side) | Value::Right(side) => {
            one_mapped(alloc, side.into_value(), kind, first, second)
        }
        other => Ok(other),
    }
}

/// Makes one leaf of the sum of two in the field: the first function changes a leaf of that kind, the second any other.
pub fn unify<'a>(
    alloc: Global,
    mut moving: Moving<'a>,
    x: &Name,
    kind: Kind,
    first: &LeafFn,
    second: &LeafFn,
) -> Result<Moving<'a>, Memory>
    requires ordered { IsOrdered (moving_of moving) }
    requires fits { IfSome (under x.now (moving_of moving).slots) (OneFitsSide (leaf_fn_of first.now)
        (leaf_fn_of second.now) kind) }
    ensures { let given = moving_of moving.entry in IfOk result (λ m. moving_of m
        ≡ record {
          slots = changed x.now (at_side (unified (leaf_fn_of first.now)
              (leaf_fn_of second.now) kind)) given.slots;
          rest = given.rest;
        }) }
{
    let Ok(at) = place(moving.slots.as_slice(), x.bytes()) else {
        return Ok(moving);
    };
    let value = take_value_at(&mut moving.slots, at);
    let value = side_mapped(alloc, value, kind, first, second)?;
    set_value_at(&mut moving.slots, at, value);
    Ok(moving)
}

/// The list of this value alone.
fn list_of_one<'a>(alloc: Global, value: Value<'a>) -> Result<Value<'a>, Memory>
    ensures { IfOk result (λ v. typed_of v ≡ typed.list (typed.item (typed_of value.entry) typed.no_item)) }
{
    let mut list = Vec::new(alloc);
    list.push(value)?;
    Ok(Value::List(Values::new(list)))
}

/// Makes a list of one item of the field's value.
pub fn wrap<'a>(alloc: Global, mut moving: Moving<'a>, x: &Name) -> Result<Moving<'a>, Memory>
    requires { IsOrdered (moving_of moving) }
    ensures { IfOk result (λ m. moving_of m ≡ move (op.wrap x.now) [] (moving_of moving.entry)) }
{
    match place(moving.slots.as_slice(), x.bytes()) {
        Ok(at) => {
            let value = take_value_at(&mut moving.slots, at);
            let value = list_of_one(alloc, value)?;
            set_value_at(&mut moving.slots, at, value);
            Ok(moving)
        }
        Err(_) => Ok(moving),
    }
}
