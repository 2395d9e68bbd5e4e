//! Chains: schemas, and the fixes that lead from one to the next.
ghost use Rattle.std.specs.Prelude.{◌≡◌, ◌<◌, ℕ, IfOk, IfErr, IfSome, IfNone, Some, length, option_map, slice_get, Contains};
ghost use Rattle.mig_rule.specs.Chain.{IsAccepted, IsFloor, IsRefusedAt, families, fixes, versions};
ghost use Rattle.mig_rule.specs.ChainView.{chain_of, first_given, fix_in, steps_of, fix_places, schema_places};
ghost use Rattle.std.specs.List.Sorted.{IsNonDecreasingBy};
ghost use Rattle.mig_rule.specs.Fault.{IsWalkFault};
ghost use Rattle.mig_rule.specs.Spelled.{IsSpelled};
ghost use Rattle.mig_rule.specs.View.{fix_of};
ghost use Rattle.mig_rule.specs.declared.fault.Walk as faults;

use crate::families::{behind_steps, first_family, up_to};
use crate::walking::walk;
use crate::{ChainError, ChainStep, Fix};
use mig_schema::{Family, VersionPath};
use mig_tree::{Form, Memory};
use std::alloc::Global;
use std::marker::Model;

/// A chain whose steps are accepted and spelled. Contracts see its form, its version path, the version of a save that says none, and its steps.
#[derive(Debug)]
pub struct Chain {
    form: Form,
    version: VersionPath,
    missing: Option<u32>,
    steps: Vec<ChainStep>,
    versions: Vec<u32>,
    schemas: Vec<usize>,
    fixes: Vec<usize>,
}

impl Drop for Chain {
    fn drop(self) {
        let Chain {
            form: _,
            version,
            missing: _,
            steps,
            versions,
            schemas,
            fixes,
        } = self;
        drop(version);
        drop(steps);
        drop(versions);
        drop(schemas);
        drop(fixes);
    }
}

impl Model for Chain {
    ghost use Rattle.mig_rule.specs.Chain.{Chain};
    ghost use Rattle.mig_rule.specs.ChainCode.{coded_chain};

    ghost Value = { Chain };

    ghost coded = { coded_chain };

    ghost use Rattle.mig_rule.specs.ChainView.{chain_of};

    ghost view = { λ a. chain_of a.form a.version a.missing a.steps.items };

    ghost use Rattle.mig_rule.specs.ChainView.{IsChain};

    ghost invariant = { λ a. IsChain (chain_of a.form a.version a.missing a.steps.items) a.versions.items
        a.schemas.items a.fixes.items };
}

/// The versions of the schemas, in order.
fn versions_of(alloc: Global, steps: &[ChainStep]) -> Result<Vec<u32>, Memory>
    ensures { IfOk result (λ list. list.items ≡ versions (steps_of steps.now)) }
{
    let mut list = Vec::new(alloc);
    for step in steps {
        if let ChainStep::Schema(version, _) = step {
            list.push(*version)?;
        }
    }
    Ok(list)
}

/// The places of the schemas, in order.
fn schemas_of(alloc: Global, steps: &[ChainStep]) -> Result<Vec<usize>, Memory>
    ensures { IfOk result (λ list. list.items ≡ schema_places 0 (steps_of steps.now)) }
{
    let mut list = Vec::new(alloc);
    for place in 0..steps.len() {
        if let ChainStep::Schema(_, _) = &steps[place] {
            list.push(place)?;
        }
    }
    Ok(list)
}

/// The places of the fixes, in order.
fn fixes_of(alloc: Global, steps: &[ChainStep]) -> Result<Vec<usize>, Memory>
    ensures { IfOk result (λ list. list.items ≡ fix_places 0 (steps_of steps.now)) }
{
    let mut list = Vec::new(alloc);
    for place in 0..steps.len() {
        if let ChainStep::Fix(_, _) = &steps[place] {
            list.push(place)?;
        }
    }
    Ok(list)
}

/// The number at the place, if there is one.
fn number_at(list: &[usize], place: usize) -> Option<usize>
    ensures { result ≡ slice_get list.now place }
{
    list.get(place).copied()
}

/// The fix at the place, if a fix stands there.
fn fix_of_step(steps: &[ChainStep], at: usize) -> Option<(u32, &Fix)>
    ensures { option_map (λ x. (x.0, fix_of x.1.now)) result ≡ fix_in (slice_get (steps_of steps.now) at) }
{
    match steps.get(at) {
        Some(ChainStep::Fix(number, fix)) => Some((*number, fix)),
        Some(ChainStep::Schema(_, _)) => None,
        None => None,
    }
}

/// The place of the greatest of the versions that isn't above this one. It takes log n comparisons.
fn floor_of(versions: &[u32], version: u32) -> Option<usize>
    requires { IsNonDecreasingBy (λ v. v) versions.now }
    ensures some { IfSome result (IsFloor versions.now version) }
    ensures none { IfNone result ((v : ℕ) → Contains versions.now v → version < v) }
{
    let above = versions.partition_point(|v| *v <= version);
    if above == 0 { None } else { Some(above - 1) }
}

impl Chain {
    /// The chain of these steps, or the first at which something is wrong, and what is wrong first there. The rules are this project's own.
    pub fn new(
        alloc: Global,
        form: Form,
        version: VersionPath,
        missing: Option<u32>,
        steps: Vec<ChainStep>,
    ) -> Result<Chain, ChainError>
        requires { IsSpelled (chain_of form version missing steps.items) }
        ensures made { IfOk result (λ c. c ≡ chain_of form version missing steps.items) }
        ensures accepted { IfOk result IsAccepted }
        ensures fault { IfErr result (λ e. IsWalkFault e (IsRefusedAt (chain_of form version missing steps.items))) }
    {
        match walk(alloc, form, &version, &steps) {
            Ok(()) => {
                let versions = versions_of(alloc, &steps)?;
                let schemas = schemas_of(alloc, &steps)?;
                let fixes = fixes_of(alloc, &steps)?;
                Ok(Chain {
                    form,
                    version,
                    missing,
                    steps,
                    versions,
                    schemas,
                    fixes,
                })
            }
            Err(fault) => Err(fault),
        }
    }

    /// Does nothing. Its contract tells what every chain keeps.
    pub fn keeps(&self)
        ensures accepted { IsAccepted self.now }
        ensures spelled { IsSpelled self.now }
        ensures none_wrong { (k : ℕ) (w : faults.Walk) → IsRefusedAt self.now k w → ⊥ }
    {
        let _form = self.form;
    }

    /// The form.
    pub fn form(&self) -> Form
        ensures { result ≡ self.now.form }
    {
        self.form
    }

    /// The version path.
    pub fn version_path(&self) -> &VersionPath
        ensures { result.now ≡ self.now.version }
    {
        &self.version
    }

    /// The version of a save that says none.
    pub fn missing(&self) -> Option<u32>
        ensures { result ≡ self.now.missing }
    {
        self.missing
    }

    /// How many schemas there are.
    pub fn schemas(&self) -> usize
        ensures { result ≡ length (versions self.now.steps) }
    {
        self.versions.len()
    }

    /// How many fixes there are.
    pub fn fixes(&self) -> usize
        ensures { result ≡ length (fixes self.now.steps) }
    {
        self.fixes.as_slice().len()
    }

    /// The version of the schema at the place, and `None` exactly where the place isn't below the number of schemas.
    pub fn version_at(&self, place: usize) -> Option<u32>
        ensures { result ≡ slice_get (versions self.now.steps) place }
    {
        self.versions.get(place).copied()
    }

    /// The first schema's version.
    pub fn first(&self) -> u32
        ensures { slice_get (versions self.now.steps) 0 ≡ Some result }
    {
        self.keeps();
        let Some(version) = self.version_at(0) else {
            unreachable!()
        };
        version
    }
    /// The number of the fix at the place and the fix, and `None` exactly where the place isn't below the number of fixes.
    pub fn fix_at(&self, place: usize) -> Option<(u32, &Fix)>
        ensures { option_map (λ x. (x.0, fix_of x.1.now)) result ≡ slice_get (fixes self.now.steps) place }
    {
        match number_at(&self.fixes, place) {
            Some(at) => fix_of_step(&self.steps, at),
            None => None,
        }
    }

    /// The place of the greatest version that isn't above this one, and `None` exactly where each is above it. It takes log n comparisons.
    pub fn floor(&self, version: u32) -> Option<usize>
        ensures some { IfSome result (IsFloor (versions self.now.steps) version) }
        ensures none { IfNone result ((v : ℕ) → Contains (versions self.now.steps) v → version < v) }
    {
        self.keeps();
        floor_of(&self.versions, version)
    }
    /// The family of the schema at the place. It makes each fix before it anew.
    pub fn family(&self, alloc: Global, place: usize) -> Result<Family, Memory>
        requires { place < length (versions self.now.steps) }
        ensures { IfOk result (λ f. slice_get (families self.now.steps) place ≡ Some f) }
    {
        let Some(at) = number_at(&self.schemas, place) else {
            unreachable!()
        };
        let Some(first) = first_family(&self.steps) else {
            unreachable!()
        };
        behind_steps(alloc, first, up_to(&self.steps, at))
    }
}
