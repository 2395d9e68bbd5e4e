//! A walk over a rule that asks a test of each field function in it.
ghost use Rattle.std.specs.Prelude.{◌≡◌, Bool, not, map};
ghost use Rattle.mig_resolve_rule.specs.Functions.{function_is_wrong, function_in_range, function_is_deep};
ghost use Rattle.mig_resolve_rule.specs.Rules.{any_function, any_function_of};
ghost use Rattle.mig_resolve_rule.specs.Tests.{IsTestOf};
ghost use Rattle.mig_syntax.specs.RuleSyntax.{FunctionSyntax, rules_of};
ghost use Rattle.mig_syntax.specs.RuleView.{function_of, rule_of};

use crate::faults::{function_in_range, function_is_deep, function_is_wrong};
use mig_model::Form;
use mig_syntax::{FunctionText, RuleText};

/// Whether a field function in the rule passes the test.
#[cycle(walk)]
fn any_function<F: Fn(&FunctionText) -> bool>(test: &F, rule: &RuleText) -> bool
    requires { F.IsAlwaysCallable test.now }
    ensures { (p : FunctionSyntax → Bool) → IsTestOf (F.post test.now) p →
        result ≡ any_function p (rule_of rule.now) }
{
    match rule {
        RuleText::Nop => false,
        RuleText::All(part)
        | RuleText::Everywhere(part)
        | RuleText::On(_, part)
        | RuleText::At(_, part) => any_function(test, part.get()),
        RuleText::Seq(parts) => any_function_of(test, parts.as_slice()),
        RuleText::OrElse(first, second) => {
            any_function(test, first.get()) || any_function(test, second.get())
        }
        RuleText::Fn(_, function) => test(function),
    }
}

/// Whether it is so for one of the rules. Each further rule is a level of recursion more, as it is in the grammar.
#[cycle(walk)]
fn any_function_of<F: Fn(&FunctionText) -> bool>(test: &F, rules: &[RuleText]) -> bool
    requires { F.IsAlwaysCallable test.now }
    ensures { (p : FunctionSyntax → Bool) → IsTestOf (F.post test.now) p →
        result ≡ any_function_of p (rules_of (map rule_of rules.now)) }
{
    match rules {
        [] => false,
        [first, later @ ..] => any_function(test, first) || any_function_of(test, later),
    }
}

/// Whether a kind word in the rule is no leaf kind of the form.
pub fn rule_is_wrong(form: Form, rule: &RuleText) -> bool
    ensures { result ≡ any_function (function_is_wrong form) (rule_of rule.now) }
{
    let test = |function: &FunctionText|
        ensures { result ≡ function_is_wrong form (function_of function.now) }
    { function_is_wrong(form, function) };
    any_function(&test, rule)
}

/// Whether a number in the rule is outside the range of its place.
pub fn rule_is_out_of_range(rule: &RuleText) -> bool
    ensures { result ≡ any_function (λ f. not (function_in_range f)) (rule_of rule.now) }
{
    let test = |function: &FunctionText|
        ensures { result ≡ not (function_in_range (function_of function.now)) }
    { !function_in_range(function) };
    any_function(&test, rule)
}

/// Whether a template that the rule brings nests too deep.
pub fn rule_is_deep(rule: &RuleText) -> bool
    ensures { result ≡ any_function function_is_deep (rule_of rule.now) }
{
    let test = |function: &FunctionText|
        ensures { result ≡ function_is_deep (function_of function.now) }
    { function_is_deep(function) };
    any_function(&test, rule)
}
