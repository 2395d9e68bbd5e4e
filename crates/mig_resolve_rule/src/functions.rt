//! Field functions out of their syntax.
ghost use Rattle.std.specs.Prelude.{◌≡◌, ◌||◌, true, not, is_some, IfOk, IfSome};
ghost use Rattle.mig_field.specs.FieldFn as model;
ghost use Rattle.mig_func.specs.View as values;
ghost use Rattle.mig_resolve_rule.specs.Functions.{scope_from, fill_from, op_from, fill_in_range, function_in_range, fill_is_twice, function_is_twice};
ghost use Rattle.mig_resolve_template.specs.Constants.{leaf_from, leaf_in_range, leaf_is_twice};
ghost use Rattle.mig_resolve_template.specs.Templates.{given_fields, fields_are_twice};
ghost use Rattle.mig_syntax.specs.RuleView.{fill_of, leaf_of, function_of};
ghost use Rattle.mig_syntax.specs.TemplateSyntax.{fields_of};

use crate::fills::fill;
use mig_func::{CaseFields, FieldFn, FieldOp, Names, Scope};
use mig_model::{Memory, Name};
use mig_resolve_template::{fields, leaf_function};
use mig_syntax::{FieldList, FillText, FunctionText, LeafText};
use std::alloc::Global;

/// A field that each map gets.
fn add(alloc: Global, name: &Name, text: &FillText) -> Result<Option<FieldOp>, Memory>
    requires { fill_in_range (fill_of text.now) ≡ true }
    ensures some { IfOk result (λ o. IfSome o (λ op.
        values.field_op_of op ≡ model.add name.now (fill_from (fill_of text.now)))) }
    ensures twice { IfOk result (λ o. is_some o ≡ not (fill_is_twice (fill_of text.now))) }
{
    match fill(alloc, text)? {
        Some(fill) => Ok(Some(FieldOp::Add(name.copy(alloc)?, fill))),
        None => Ok(None),
    }
}

/// A field that maps without it get.
fn default(alloc: Global, name: &Name, text: &FillText) -> Result<Option<FieldOp>, Memory>
    requires { fill_in_range (fill_of text.now) ≡ true }
    ensures some { IfOk result (λ o. IfSome o (λ op.
        values.field_op_of op ≡ model.default name.now (fill_from (fill_of text.now)))) }
    ensures twice { IfOk result (λ o. is_some o ≡ not (fill_is_twice (fill_of text.now))) }
{
    match fill(alloc, text)? {
        Some(fill) => Ok(Some(FieldOp::Default(name.copy(alloc)?, fill))),
        None => Ok(None),
    }
}

/// A leaf function on a field.
fn map_leaf(alloc: Global, name: &Name, text: &LeafText) -> Result<Option<FieldOp>, Memory>
    requires { leaf_in_range (leaf_of text.now) ≡ true }
    ensures some { IfOk result (λ o. IfSome o (λ op.
        values.field_op_of op ≡ model.map_leaf name.now (leaf_from (leaf_of text.now)))) }
    ensures twice { IfOk result (λ o. is_some o ≡ not (leaf_is_twice (leaf_of text.now))) }
{
    match leaf_function(alloc, text)? {
        Some(leaf) => Ok(Some(FieldOp::Map(name.copy(alloc)?, leaf))),
        None => Ok(None),
    }
}

/// A leaf function on each side of a field's sum.
fn unify(
    alloc: Global,
    name: &Name,
    one: &LeafText,
    other: &LeafText,
) -> Result<Option<FieldOp>, Memory>
    requires left { leaf_in_range (leaf_of one.now) ≡ true }
    requires right { leaf_in_range (leaf_of other.now) ≡ true }
    ensures some { IfOk result (λ o. IfSome o (λ op. values.field_op_of op
        ≡ model.unify name.now (leaf_from (leaf_of one.now)) (leaf_from (leaf_of other.now)))) }
    ensures twice { IfOk result (λ o. is_some o
        ≡ not (leaf_is_twice (leaf_of one.now) || leaf_is_twice (leaf_of other.now))) }
{
    let Some(left) = leaf_function(alloc, one)? else {
        return Ok(None);
    };
    match leaf_function(alloc, other)? {
        Some(right) => Ok(Some(FieldOp::Unify(name.copy(alloc)?, left, right))),
        None => Ok(None),
    }
}

/// Equal names, in the same order.
fn copy_names(alloc: Global, names: &[Name]) -> Result<Vec<Name>, Memory>
    ensures { IfOk result (λ list. list.items ≡ names.now) }
{
    let mut list = Vec::new(alloc);
    for name in names {
        list.push(name.copy(alloc)?)?;
    }
    Ok(list)
}

/// Fields of these names in a record of their own.
fn nest(alloc: Global, names: &[Name], into: &Name) -> Result<FieldOp, Memory>
    ensures { IfOk result (λ op. values.field_op_of op ≡ model.nest names.now into.now) }
{
    let names = Names::new(alloc, copy_names(alloc, names)?)?;
    Ok(FieldOp::Nest(names, into.copy(alloc)?))
}

/// A case of the literal with these fields.
fn add_case(alloc: Global, literal: &Name, list: &FieldList) -> Result<Option<FieldOp>, Memory>
    ensures some { IfOk result (λ o. IfSome o (λ op. values.field_op_of op
        ≡ model.add_case literal.now (given_fields (fields_of list.now)))) }
    ensures twice { IfOk result (λ o. is_some o ≡ not (fields_are_twice (fields_of list.now))) }
{
    match fields(alloc, list.as_slice())? {
        Some(list) => {
            let list = CaseFields::new(alloc, list)?;
            Ok(Some(FieldOp::AddCase(literal.copy(alloc)?, list)))
        }
        None => Ok(None),
    }
}

/// What is done to the fields; `None` where names in the function that must be distinct aren't.
fn op(alloc: Global, function: &FunctionText) -> Result<Option<FieldOp>, Memory>
    requires { function_in_range (function_of function.now) ≡ true }
    ensures some { IfOk result (λ o. IfSome o (λ op.
        values.field_op_of op ≡ op_from (function_of function.now))) }
    ensures twice { IfOk result (λ o. is_some o ≡ not (function_is_twice (function_of function.now))) }
{
    match function {
        FunctionText::Add(name, fill) => add(alloc, name, fill),
        FunctionText::Default(name, fill) => default(alloc, name, fill),
        FunctionText::Map(name, leaf) => map_leaf(alloc, name, leaf),
        FunctionText::Unify(name, left, right) => unify(alloc, name, left, right),
        FunctionText::AddCase(literal, fields) => add_case(alloc, literal, fields),
        FunctionText::Nest(names, into) => Ok(Some(nest(alloc, names, into)?)),
        FunctionText::Learn(name, kind) => Ok(Some(FieldOp::Learn(name.copy(alloc)?, *kind))),
        FunctionText::Rename(from, to) => Ok(Some(FieldOp::Rename(
            from.copy(alloc)?,
            to.copy(alloc)?,
        ))),
        FunctionText::Retag(from, to) => {
            Ok(Some(FieldOp::Retag(from.copy(alloc)?, to.copy(alloc)?)))
        }
        FunctionText::Drop(name) => Ok(Some(FieldOp::Drop(name.copy(alloc)?))),
        FunctionText::Forget(name) => Ok(Some(FieldOp::Forget(name.copy(alloc)?))),
        FunctionText::MayBe(name) => Ok(Some(FieldOp::MayBe(name.copy(alloc)?))),
        FunctionText::Unnest(name) => Ok(Some(FieldOp::Unnest(name.copy(alloc)?))),
        FunctionText::Wrap(name) => Ok(Some(FieldOp::Wrap(name.copy(alloc)?))),
    }
}

/// The fields of the case of the literal, or else the common ones.
fn scope(alloc: Global, literal: &Option<Name>) -> Result<Scope, Memory>
    ensures { IfOk result (λ s. values.scope_of s ≡ scope_from literal.now) }
{
    match literal {
        Some(literal) => Ok(Scope::Case(literal.copy(alloc)?)),
        None => Ok(Scope::Common),
    }
}

/// The function that the syntax stands for, in the scope of the literal; `None` where names in it that must be distinct aren't.
pub fn function(
    alloc: Global,
    literal: &Option<Name>,
    text: &FunctionText,
) -> Result<Option<FieldFn>, Memory>
    requires { function_in_range (function_of text.now) ≡ true }
    ensures some { IfOk result (λ o. IfSome o (λ f. values.field_fn_of f
        ≡ record { scope = scope_from literal.now; op = op_from (function_of text.now) })) }
    ensures twice { IfOk result (λ o. is_some o ≡ not (function_is_twice (function_of text.now))) }
{
    let Some(op) = op(alloc, text)? else {
        return Ok(None);
    };
    let scope = scope(alloc, literal)?;
    Ok(Some(FieldFn { scope, op }))
}
