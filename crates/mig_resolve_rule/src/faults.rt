//! What may be wrong with a field function.
ghost use Rattle.std.specs.Prelude.{◌≡◌};
ghost use Rattle.mig_resolve_rule.specs.Functions.{fill_is_wrong, fill_in_range, fill_nests_above, learns_wrong, function_is_wrong, function_in_range, function_is_deep};
ghost use Rattle.mig_syntax.specs.RuleView.{fill_of, function_of};

use mig_model::{Form, Kind};
use mig_resolve_template::{
    const_in_range, const_is_wrong, fields_are_wrong, fields_nest_above, is_wrong_kind,
    leaf_in_range, leaf_is_wrong, nests_above, template_is_wrong,
};
use mig_syntax::{FillText, FunctionText};

/// How many templates may stand on the longest way down a template that a function or a fix brings.
pub const MOST_LEVELS: usize = 64;

/// Whether a kind word in what fills a field is no leaf kind of the form.
fn fill_is_wrong(form: Form, fill: &FillText) -> bool
    ensures { result ≡ fill_is_wrong form (fill_of fill.now) }
{
    match fill {
        FillText::Const(constant) => const_is_wrong(form, constant),
        FillText::EmptyList(item) => template_is_wrong(form, item),
    }
}

/// Whether the kind that a field is learned with, if any, is no leaf kind of the form.
fn learns_wrong(form: Form, kind: Option<Kind>) -> bool
    ensures { result ≡ learns_wrong form kind }
{
    match kind {
        Some(kind) => is_wrong_kind(form, kind),
        None => false,
    }
}

/// Whether a kind word in the function is no leaf kind of the form.
pub fn function_is_wrong(form: Form, function: &FunctionText) -> bool
    ensures { result ≡ function_is_wrong form (function_of function.now) }
{
    match function {
        FunctionText::Add(_, fill) | FunctionText::Default(_, fill) => fill_is_wrong(form, fill),
        FunctionText::Learn(_, kind) => learns_wrong(form, *kind),
        FunctionText::Map(_, leaf) => leaf_is_wrong(form, leaf),
        FunctionText::Unify(_, left, right) => {
            leaf_is_wrong(form, left) || leaf_is_wrong(form, right)
        }
        FunctionText::AddCase(_, fields) => fields_are_wrong(form, fields.as_slice()),
        FunctionText::Rename(_, _)
        | FunctionText::Drop(_)
        | FunctionText::Forget(_)
        | FunctionText::MayBe(_)
        | FunctionText::Nest(_, _)
        | FunctionText::Unnest(_)
        | FunctionText::Wrap(_)
        | FunctionText::Retag(_, _) => false,
    }
}

/// Whether each number in what fills a field is in the range of its place.
fn fill_in_range(fill: &FillText) -> bool
    ensures { result ≡ fill_in_range (fill_of fill.now) }
{
    match fill {
        FillText::Const(constant) => const_in_range(constant),
        FillText::EmptyList(_) => true,
    }
}

/// Whether each number in the function is in the range of its place.
pub fn function_in_range(function: &FunctionText) -> bool
    ensures { result ≡ function_in_range (function_of function.now) }
{
    match function {
        FunctionText::Add(_, fill) | FunctionText::Default(_, fill) => fill_in_range(fill),
        FunctionText::Map(_, leaf) => leaf_in_range(leaf),
        FunctionText::Unify(_, left, right) => leaf_in_range(left) && leaf_in_range(right),
        FunctionText::Rename(_, _)
        | FunctionText::Drop(_)
        | FunctionText::Learn(_, _)
        | FunctionText::Forget(_)
        | FunctionText::MayBe(_)
        | FunctionText::Nest(_, _)
        | FunctionText::Unnest(_)
        | FunctionText::Wrap(_)
        | FunctionText::Retag(_, _)
        | FunctionText::AddCase(_, _) => true,
    }
}

/// Whether what fills a field nests too deep. An empty list is a level above its items.
fn fill_nests_above(fill: &FillText) -> bool
    ensures { result ≡ fill_nests_above (fill_of fill.now) }
{
    match fill {
        FillText::Const(_) => false,
        FillText::EmptyList(item) => nests_above(MOST_LEVELS - 1, item),
    }
}

/// Whether a template that the function brings nests too deep.
pub fn function_is_deep(function: &FunctionText) -> bool
    ensures { result ≡ function_is_deep (function_of function.now) }
{
    match function {
        FunctionText::Add(_, fill) | FunctionText::Default(_, fill) => fill_nests_above(fill),
        FunctionText::AddCase(_, fields) => fields_nest_above(MOST_LEVELS, fields.as_slice()),
        FunctionText::Rename(_, _)
        | FunctionText::Drop(_)
        | FunctionText::Learn(_, _)
        | FunctionText::Forget(_)
        | FunctionText::MayBe(_)
        | FunctionText::Map(_, _)
        | FunctionText::Nest(_, _)
        | FunctionText::Unnest(_)
        | FunctionText::Wrap(_)
        | FunctionText::Unify(_, _, _)
        | FunctionText::Retag(_, _) => false,
    }
}
