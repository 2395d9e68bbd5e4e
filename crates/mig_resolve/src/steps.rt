//! The steps of a chain, out of declarations at which nothing from 1 to 9 holds.
ghost use Rattle.std.specs.Prelude.{◌≡◌, ◌++◌, [], IfOk, IfErr, OnOk, map, option_map, is_some, true, false, nat_abs, None, Some, Option};
ghost use Rattle.mig_model.specs.declared.form.Form as forms;
ghost use Rattle.mig_model.specs.Family.{Flaw};
ghost use Rattle.mig_schema.specs.Fault.{IsFamilyFault};
ghost use Rattle.mig_rule.specs.Chain as chain;
ghost use Rattle.mig_rule.specs.ChainView.{chain_step_of, steps_of};
ghost use Rattle.mig_syntax.specs.DeclSyntax as syntax;
ghost use Rattle.mig_syntax.specs.DeclView.{decl_of, fix_of};
ghost use Rattle.mig_resolve_rule.specs.Rules.{fix_from, fix_is_deep};
ghost use Rattle.mig_resolve.specs.Right.{IsRight, IsRightFix, AreRight};
ghost use Rattle.mig_resolve.specs.declared.fault.ChainFault.TheVariants as faults;
ghost use Rattle.mig_resolve.specs.Steps.{step_from, with_step, with_number, IsUnformedAt, IsUnformedFault};
ghost use Rattle.mig_resolve.specs.Text.{ends_schema, given_family, steps_from, step_numbers};
ghost use Rattle.mig_resolve.specs.Faults.{is_unformed, unformed_from, is_version_number};

use crate::ChainFault;
use crate::families::family_in;
use crate::scan::later_than;
use mig_model::Form;
use mig_resolve_rule::{fix, fix_is_deep};
use mig_rule::ChainStep;
use mig_schema::{SchemaFault, VersionPath};
use mig_syntax::{Decl, FixText};
use std::alloc::Global;

/// Steps, and for each the number of its declaration.
#[derive(Debug, Drop)]
pub struct Steps {
    pub steps: Vec<ChainStep>,
    pub numbers: Vec<usize>,
}

/// The version, which is in range.
pub fn version_of(number: i128) -> u32
    requires { is_version_number number ≡ true }
    ensures { result ≡ nat_abs number }
{
    match u32::try_from(number) {
        Ok(version) => version,
        Err(_) => unreachable!(),
    }
}

/// The fault that a family isn't formed, or want of memory.
fn unformed(fault: SchemaFault, declaration: usize) -> ChainFault
    ensures { (first : Option Flaw) → IsFamilyFault fault first → IsUnformedAt result declaration (is_some first) }
{
    if fault == SchemaFault::Memory {
        return ChainFault::Memory;
    }
    ChainFault::Fault {
        number: 10,
        declaration,
    }
}

/// The step of a schema behind which these declarations stand.
fn schema_step(
    alloc: Global,
    form: Form,
    path: &VersionPath,
    declaration: usize,
    version: i128,
    follows: bool,
    later: &[Decl],
) -> Result<ChainStep, ChainFault>
    requires version { is_version_number version ≡ true }
    requires right { AreRight form (map decl_of later.now) }
    ensures step { IfOk result (λ s. chain_step_of s
        ≡ chain.schema (nat_abs version) (given_family form path.now follows (map decl_of later.now))) }
    ensures formed { IfOk result (λ s.
        is_unformed form path.now (syntax.schema version follows) (map decl_of later.now) ≡ false) }
    ensures fault { IfErr result (λ e. IsUnformedAt e declaration
        (is_unformed form path.now (syntax.schema version follows) (map decl_of later.now))) }
{
    let version = version_of(version);
    if follows {
        return Ok(ChainStep::Schema(version, None));
    }
    match family_in(alloc, form, path, later) {
        Ok(family) => Ok(ChainStep::Schema(version, Some(family))),
        Err(fault) => Err(unformed(fault, declaration)),
    }
}

/// The step of a fix.
fn fix_step(
    alloc: Global,
    declaration: usize,
    number: i128,
    change: &FixText,
) -> Result<ChainStep, ChainFault>
    requires number { is_version_number number ≡ true }
    requires right { (form : forms.Form) × IsRightFix form (fix_of change.now) }
    ensures step { IfOk result (λ s. chain_step_of s ≡ chain.fix (nat_abs number) (fix_from (fix_of change.now))) }
    ensures formed { IfOk result (λ s. fix_is_deep (fix_of change.now) ≡ false) }
    ensures fault { IfErr result (λ e. IsUnformedAt e declaration (fix_is_deep (fix_of change.now))) }
{
    if fix_is_deep(change) {
        return Err(ChainFault::Fault {
            number: 10,
            declaration,
        });
    }
    let Some(made) = fix(alloc, change)? else {
        unreachable!()
    };
    Ok(ChainStep::Fix(version_of(number), made))
}

/// The step that the declaration of this number is, if it is one.
fn step(
    alloc: Global,
    form: Form,
    path: &VersionPath,
    declaration: usize,
    decl: &Decl,
    later: &[Decl],
) -> Result<Option<ChainStep>, ChainFault>
    requires here { IsRight form (decl_of decl.now) }
    requires later { AreRight form (map decl_of later.now) }
    ensures step { IfOk result (λ o. option_map chain_step_of o
        ≡ step_from form path.now (decl_of decl.now) (map decl_of later.now)) }
    ensures formed { IfOk result (λ o. is_unformed form path.now (decl_of decl.now) (map decl_of later.now) ≡ false) }
    ensures fault { IfErr result (λ e. IsUnformedAt e declaration
        (is_unformed form path.now (decl_of decl.now) (map decl_of later.now))) }
{
    match decl {
        Decl::Schema(version, follows) => {
            let made = schema_step(alloc, form, path, declaration, *version, *follows, later)?;
            Ok(Some(made))
        }
        Decl::Fix(number, change) => {
            let made = fix_step(alloc, declaration, *number, change)?;
            Ok(Some(made))
        }
        Decl::Form(_) | Decl::Version(_, _) | Decl::Named(_, _) | Decl::Root(_) => Ok(None),
    }
}

impl Steps {
    /// No steps.
    fn new(alloc: Global) -> Steps
        ensures steps { result.steps.items ≡ [] }
        ensures numbers { result.numbers.items ≡ [] }
    {
        Steps {
            steps: Vec::new(alloc),
            numbers: Vec::new(alloc),
        }
    }

    /// With the step of the declaration of this number, if it is one.
    fn with(self, step: Option<ChainStep>, declaration: usize) -> Result<Steps, ChainFault>
        ensures steps { IfOk result (λ s. steps_of s.steps.items
            ≡ steps_of self.steps.items ++ with_step (option_map chain_step_of step) []) }
        ensures numbers { IfOk result (λ s. s.numbers.items
            ≡ self.numbers.items ++ with_number (is_some step) declaration []) }
        ensures memory { IfErr result (λ e. e ≡ faults.Memory) }
    {
        let mut next = self;
        if let Some(step) = step {
            next.steps.push(step)?;
            next.numbers.push(declaration)?;
        }
        Ok(next)
    }
}

/// The steps that the declarations are, in order, or the first declaration of which fault 10 holds.
pub fn steps_from(
    alloc: Global,
    form: Form,
    path: &VersionPath,
    decls: &[Decl],
) -> Result<Steps, ChainFault>
    requires { AreRight form (map decl_of decls.now) }
    ensures steps { IfOk result (λ s. steps_of s.steps.items ≡ steps_from form path.now (map decl_of decls.now)) }
    ensures numbers { IfOk result (λ s. s.numbers.items ≡ step_numbers 1 (map decl_of decls.now)) }
    ensures formed { IfOk result (λ s. unformed_from form path.now 1 (map decl_of decls.now) ≡ None) }
    ensures fault { IfErr result (λ e. IsUnformedFault e (unformed_from form path.now 1 (map decl_of decls.now))) }
{
    let mut made = Steps::new(alloc);
    for place in 0..decls.len() {
        let decl = &decls[place];
        let later = later_than(decls, place);
        match step(alloc, form, path, place + 1, decl, later) {
            Ok(found) => made = made.with(found, place + 1)?,
            Err(fault) => return Err(fault),
        }
    }
    Ok(made)
}
