//! What fills a new field, out of its syntax.
ghost use Rattle.std.specs.Prelude.{◌≡◌, true, not, is_some, IfOk, IfSome};
ghost use Rattle.mig_func.specs.View as values;
ghost use Rattle.mig_resolve_rule.specs.Functions.{fill_from, fill_in_range, fill_is_twice};
ghost use Rattle.mig_syntax.specs.RuleView.{fill_of};

use mig_func::Fill;
use mig_model::Memory;
use mig_resolve_template::{constant, template};
use mig_syntax::FillText;
use std::alloc::Global;

/// The filling that the syntax stands for; `None` where names in its template that must be distinct aren't.
pub fn fill(alloc: Global, text: &FillText) -> Result<Option<Fill>, Memory>
    requires { fill_in_range (fill_of text.now) ≡ true }
    ensures some { IfOk result (λ o. IfSome o (λ f. values.fill_of f ≡ fill_from (fill_of text.now))) }
    ensures twice { IfOk result (λ o. is_some o ≡ not (fill_is_twice (fill_of text.now))) }
{
    match text {
        FillText::Const(text) => Ok(Some(Fill::Const(constant(alloc, text)?))),
        FillText::EmptyList(text) => match template(alloc, text)? {
            Some(item) => Ok(Some(Fill::EmptyList(item))),
            None => Ok(None),
        },
    }
}
