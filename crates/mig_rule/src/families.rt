//! The family behind steps of a chain.
ghost use Rattle.std.specs.Prelude.{◌≡◌, ◌<◌, ◌+◌, IfOk, length, option_map, take};
ghost use Rattle.mig_rule.specs.Chain.{family_next};
ghost use Rattle.mig_rule.specs.ChainView.{chain_step_of, steps_of, first_given, family_then, family_behind};
ghost use Rattle.mig_rule.specs.View.{fix_of};

use crate::chain_step::ChainStep;
use crate::{Fix, StepFault, next};
use mig_schema::Family;
use mig_tree::Memory;
use std::alloc::Global;

/// The family that the first step gives.
pub fn first_family(steps: &[ChainStep]) -> Option<&Family>
    ensures { option_map (λ f. f.now) result ≡ first_given (steps_of steps.now) }
{
    match steps.first() {
        Some(ChainStep::Schema(_, given)) => given.as_ref(),
        Some(ChainStep::Fix(_, _)) => None,
        None => None,
    }
}

/// The steps up to the place, that one among them.
pub fn up_to(steps: &[ChainStep], at: usize) -> &[ChainStep]
    requires { at < length steps.now }
    ensures { result.now ≡ take (at + 1) steps.now }
{
    &steps[..at + 1]
}

/// The family after the fix. One that is refused, of which a chain has none, leaves the family.
fn after_fix(alloc: Global, family: Family, fix: &Fix) -> Result<Family, Memory>
    ensures { IfOk result (λ f. f ≡ family_next (fix_of fix.now) family) }
{
    match next(alloc, &family, fix) {
        Ok(next) => Ok(next),
        Err(StepFault::Memory) => Err(Memory),
        Err(StepFault::NoName) => Ok(family),
        Err(StepFault::Missed) => Ok(family),
        Err(StepFault::IllFormed(_)) => Ok(family),
    }
}

/// The family behind the step.
fn behind_step(alloc: Global, family: Family, step: &ChainStep) -> Result<Family, Memory>
    ensures { IfOk result (λ f. f ≡ family_then family (chain_step_of step.now)) }
{
    match step {
        ChainStep::Schema(_, given) => match given {
            Some(given) => given.copy(alloc),
            None => Ok(family),
        },
        ChainStep::Fix(_, fix) => after_fix(alloc, family, fix),
    }
}

/// The family behind the steps, before which it is the first.
pub fn behind_steps(alloc: Global, first: &Family, steps: &[ChainStep]) -> Result<Family, Memory>
    ensures { IfOk result (λ f. f ≡ family_behind first.now (steps_of steps.now)) }
{
    let mut family = first.copy(alloc)?;
    for step in steps {
        match behind_step(alloc, family, step) {
            Ok(next) => family = next,
            Err(fault) => return Err(fault),
        }
    }
    Ok(family)
}
