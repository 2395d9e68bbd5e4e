//! Leaf functions out of their syntax.
ghost use Rattle.std.specs.Prelude.{◌≡◌, true, not, is_some, IfOk, IfSome};
ghost use Rattle.std.specs.Map.{keys_of};
ghost use Rattle.mig_model.specs.Names.{has_twice};
ghost use Rattle.mig_leaf.specs.View.{leaf_fn_of};
ghost use Rattle.mig_syntax.specs.RuleView.{leaf_of};
ghost use Rattle.mig_resolve_template.specs.Constants.{leaf_in_range, leaf_from, leaf_is_twice};

use crate::constants::constant;
use mig_leaf::{LeafFn, Table, copy_pairs};
use mig_model::{Memory, Name, ascends, sort_by_key};
use mig_syntax::LeafText;
use std::alloc::Global;

/// Whether two left sides are equal. It sorts the pairs in place.
fn has_twice(mut pairs: Vec<(Name, Name)>) -> bool
    ensures { result ≡ has_twice (keys_of pairs.items) }
{
    sort_by_key(&mut pairs);
    let rises = ascends(&pairs);
    drop(pairs);
    !rises
}

/// The leaf function that the syntax stands for, whatever the left sides of a table.
fn function_from(alloc: Global, function: &LeafText) -> Result<LeafFn, Memory>
    requires { leaf_in_range (leaf_of function.now) ≡ true }
    ensures { IfOk result (λ f. leaf_fn_of f ≡ leaf_from (leaf_of function.now)) }
{
    Ok(match function {
        LeafText::Const(text) => LeafFn::Const(constant(alloc, text)?),
        LeafText::Plus(addend) => LeafFn::Plus(*addend as i64),
        LeafText::Times(factor) => LeafFn::Times(*factor as i64),
        LeafText::Clamp(low, high) => LeafFn::Clamp(*low as i64, *high as i64),
        LeafText::To(kind) => LeafFn::To(*kind),
        LeafText::ToText => LeafFn::ToText,
        LeafText::OfText(text) => LeafFn::OfText(constant(alloc, text)?),
        LeafText::Table(pairs) => LeafFn::Table(Table::new(alloc, copy_pairs(alloc, pairs)?)?),
        LeafText::Prefix(text) => LeafFn::Prefix(text.copy(alloc)?),
        LeafText::Strip(text) => LeafFn::Strip(text.copy(alloc)?),
        LeafText::Lower => LeafFn::Lower,
    })
}

/// Whether two left sides of a table are equal.
fn is_twice(alloc: Global, function: &LeafText) -> Result<bool, Memory>
    ensures { IfOk result (λ b. b ≡ leaf_is_twice (leaf_of function.now)) }
{
    match function {
        LeafText::Table(pairs) => Ok(has_twice(copy_pairs(alloc, pairs)?)),
        _ => Ok(false),
    }
}

/// The leaf function that the syntax stands for, where its numbers are in their ranges; `None` where two left sides of a table are equal. It takes n log n comparisons.
pub fn leaf_function(alloc: Global, function: &LeafText) -> Result<Option<LeafFn>, Memory>
    requires { leaf_in_range (leaf_of function.now) ≡ true }
    ensures some { IfOk result (λ o. IfSome o (λ f. leaf_fn_of f ≡ leaf_from (leaf_of function.now))) }
    ensures twice { IfOk result (λ o. is_some o ≡ not (leaf_is_twice (leaf_of function.now))) }
{
    if is_twice(alloc, function)? {
        return Ok(None);
    }
    Ok(Some(function_from(alloc, function)?))
}
