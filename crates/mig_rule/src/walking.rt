//! The walk along the steps of a chain, up to the first that isn't accepted.
ghost use Rattle.std.specs.Prelude.{◌≡◌, ◌<◌, ◌+◌, drop, length, ◌↔◌, ◌∷◌, Some, None, Ok, IsTrue, IfSome, IfNone, IfOk, IfErr, List};
ghost use Rattle.mig_model.specs.declared.form.Form as forms;
ghost use Rattle.mig_rule.specs.Chain as model;
ghost use Rattle.mig_rule.specs.Chain.{Path, InOrder, IsAbove, IsOf, IsWrong, IsPassed, IsFirst, ArePassed, AreWrongAt, AreAccepted, AreRefusedAt, after, family_next, next_schema, schema};
ghost use Rattle.mig_rule.specs.ChainView.{chain_step_of, steps_of};
ghost use Rattle.mig_rule.specs.Fault.{IsWalkFault};
ghost use Rattle.mig_rule.specs.View.{fix_of};
ghost use Rattle.mig_rule.specs.declared.fault.ChainError.TheVariants as chains;
ghost use Rattle.mig_rule.specs.Walking.{known_of, fault_at, IsLater, IsWrongThere};

use crate::chain_step::ChainStep;
use crate::{ChainError, Fix, StepFault, Walk, next};
use mig_model::LAST_VERSION;
use mig_schema::{Family, VersionPath};
use mig_tree::Form;
use std::alloc::Global;

/// What is known before a step: the version of the schema before, the family now, and the version of the next schema.
#[derive(Debug, Drop)]
pub struct Standing {
    pub version: u32,
    pub family: Family,
    pub ahead: Option<u32>,
}

/// The version of the first schema among the steps.
fn next_schema(steps: &[ChainStep]) -> Option<u32>
    ensures { result ≡ next_schema (steps_of steps.now) }
{
    for step in steps {
        if let ChainStep::Schema(version, _) = step {
            return Some(*version);
        }
    }
    None
}

/// Whether the version is above the one before, if there is one.
fn is_above(before: Option<u32>, version: u32) -> bool
    ensures { IsTrue result ↔ IsAbove before version }
{
    match before {
        Some(before) => before < version,
        None => true,
    }
}

/// Whether the family has the form and the version path.
fn is_of(form: Form, path: &VersionPath, given: &Option<Family>) -> bool
    ensures { IsTrue result ↔ IsOf form path.now given.now }
{
    match given {
        Some(family) => family.form() == form && family.version_path().same(path),
        None => true,
    }
}

/// Whether the schema may stand behind that of the version before.
fn is_in_order(
    form: Form,
    path: &VersionPath,
    before: Option<u32>,
    version: u32,
    given: &Option<Family>,
) -> bool
    ensures { IsTrue result ↔ InOrder form path.now before version given.now }
{
    is_above(before, version) && version <= LAST_VERSION && is_of(form, path, given)
}

/// What is wrong first at a schema that isn't the first step.
fn wrong_at_schema(
    form: Form,
    path: &VersionPath,
    known: &Standing,
    version: u32,
    given: &Option<Family>,
) -> Option<Walk>
    ensures some { (later : List model.ChainStep) → IfSome result (IsFirst (IsWrong form path.now (known_of
        known.now) (schema version given.now) later)) }
    ensures none { (later : List model.ChainStep) → IfNone result (IsPassed form path.now (known_of known.now) (schema
        version given.now) later) }
{
    if !is_in_order(form, path, Some(known.version), version, given) {
        return Some(Walk::Order);
    }
    match given {
        Some(family) => {
            if known.family.same(family) {
                None
            } else {
                Some(Walk::Mismatch)
            }
        }
        None => None,
    }
}

/// The fault of a fix at the place.
fn refused(place: usize, fault: StepFault) -> ChainError
    ensures { result ≡ fault_at place fault }
{
    match fault {
        StepFault::NoName => ChainError::At(place, Walk::NoName),
        StepFault::Missed => ChainError::At(place, Walk::Missed),
        StepFault::IllFormed(_) => ChainError::At(place, Walk::IllFormed),
        StepFault::Memory => ChainError::Memory,
    }
}

/// The family after the fix at the place, or what is wrong first there.
fn after_fix(
    alloc: Global,
    known: &Standing,
    place: usize,
    number: u32,
    fix: &Fix,
) -> Result<Family, ChainError>
    ensures family { IfOk result (λ f. f ≡ family_next (fix_of fix.now) known.now.family) }
    ensures passed { (form : forms.Form) (path : Path) (later : List model.ChainStep) →
        known.now.ahead ≡ next_schema later → IfOk result (λ f. IsPassed form path (known_of known.now)
        (model.fix number (fix_of fix.now)) later) }
    ensures wrong { (form : forms.Form) (path : Path) (later : List model.ChainStep) →
        known.now.ahead ≡ next_schema later → IfErr result (λ e. IsWrongThere e place (IsWrong form path
        (known_of known.now) (model.fix number (fix_of fix.now)) later)) }
{
    if known.ahead != Some(number) {
        return Err(ChainError::At(place, Walk::Number));
    }
    match next(alloc, &known.family, fix) {
        Ok(family) => Ok(family),
        Err(fault) => Err(refused(place, fault)),
    }
}

/// What is known behind a schema, which gives its family or has the one before.
fn behind_schema(
    alloc: Global,
    known: Standing,
    version: u32,
    given: &Option<Family>,
    ahead: Option<u32>,
) -> Result<Standing, ChainError>
    ensures known { IfOk result (λ s. known_of s ≡ after (known_of known) (schema version given.now)) }
    ensures ahead { IfOk result (λ s. s.ahead ≡ ahead) }
    ensures fault { IfErr result (λ e. e ≡ chains.Memory) }
{
    let family = match given {
        Some(family) => family.copy(alloc)?,
        None => known.family,
    };
    Ok(Standing {
        version,
        family,
        ahead,
    })
}

/// What is known behind the step at the place, or what is wrong first there.
fn behind(
    alloc: Global,
    form: Form,
    path: &VersionPath,
    known: Standing,
    place: usize,
    step: &ChainStep,
    later: &[ChainStep],
) -> Result<Standing, ChainError>
    requires { known.ahead ≡ next_schema (chain_step_of step.now ∷ steps_of later.now) }
    ensures known { IfOk result (λ s. known_of s ≡ after (known_of known) (chain_step_of step.now)) }
    ensures ahead { IfOk result (λ s. s.ahead ≡ next_schema (steps_of later.now)) }
    ensures passed { IfOk result (λ s. IsPassed form path.now (known_of known) (chain_step_of step.now)
        (steps_of later.now)) }
    ensures wrong { IfErr result (λ e. IsWrongThere e place (IsWrong form path.now (known_of known)
        (chain_step_of step.now) (steps_of later.now))) }
{
    match step {
        ChainStep::Schema(version, given) => {
            match wrong_at_schema(form, path, &known, *version, given) {
                Some(walk) => Err(ChainError::At(place, walk)),
                None => behind_schema(alloc, known, *version, given, next_schema(later)),
            }
        }
        ChainStep::Fix(number, fix) => match after_fix(alloc, &known, place, *number, fix) {
            Ok(family) => Ok(Standing {
                version: known.version,
                family,
                ahead: known.ahead,
            }),
            Err(fault) => Err(fault),
        },
    }
}

/// What is known behind the first step, or what is wrong first there.
fn start(
    alloc: Global,
    form: Form,
    path: &VersionPath,
    first: &ChainStep,
    later: &[ChainStep],
) -> Result<Standing, ChainError>
    ensures known { IfOk result (λ s. known_of s ≡ after None (chain_step_of first.now)) }
    ensures ahead { IfOk result (λ s. s.ahead ≡ next_schema (steps_of later.now)) }
    ensures passed { IfOk result (λ s. IsPassed form path.now None (chain_step_of first.now) (steps_of later.now)) }
    ensures wrong { IfErr result (λ e. IsWrongThere e 0 (IsWrong form path.now None (chain_step_of first.now)
        (steps_of later.now))) }
{
    let ChainStep::Schema(version, given) = first else {
        return Err(ChainError::At(0, Walk::First));
    };
    let Some(family) = given else {
        return Err(ChainError::At(0, Walk::First));
    };
    if !is_in_order(form, path, None, *version, given) {
        return Err(ChainError::At(0, Walk::Order));
    }
    Ok(Standing {
        version: *version,
        family: family.copy(alloc)?,
        ahead: next_schema(later),
    })
}

/// The steps behind the place.
fn later_than(steps: &[ChainStep], place: usize) -> &[ChainStep]
    requires { place < length steps.now }
    ensures { result.now ≡ drop (place + 1) steps.now }
{
    &steps[place + 1..]
}

/// The walk along the steps behind the first.
fn follow(
    alloc: Global,
    form: Form,
    path: &VersionPath,
    known: Standing,
    steps: &[ChainStep],
) -> Result<(), ChainError>
    requires { known.ahead ≡ next_schema (steps_of steps.now) }
    ensures passed { IfOk result (λ _. ArePassed form path.now (known_of known) (steps_of steps.now)) }
    ensures wrong { IfErr result (λ e. IsWalkFault e (IsLater (AreWrongAt form path.now (known_of known)
        (steps_of steps.now)))) }
{
    let mut known = known;
    for place in 0..steps.len() {
        let step = &steps[place];
        let later = later_than(steps, place);
        match behind(alloc, form, path, known, place + 1, step, later) {
            Ok(next) => known = next,
            Err(fault) => return Err(fault),
        }
    }
    Ok(())
}

/// Whether the steps are accepted: the first at which something is wrong, and what is wrong first there.
pub fn walk(
    alloc: Global,
    form: Form,
    path: &VersionPath,
    steps: &[ChainStep],
) -> Result<(), ChainError>
    ensures accepted { IfOk result (λ _. AreAccepted form path.now (steps_of steps.now)) }
    ensures wrong { IfErr result (λ e. IsWalkFault e (AreRefusedAt form path.now (steps_of steps.now))) }
{
    let Some((first, later)) = steps.split_first() else {
        return Err(ChainError::At(0, Walk::First));
    };
    match start(alloc, form, path, first, later) {
        Ok(known) => follow(alloc, form, path, known, later),
        Err(fault) => Err(fault),
    }
}
