//! Declarations as a chain.
ghost use Rattle.std.specs.Prelude.{◌≡◌, ◌<◌, ℕ, IfOk, IfErr, length, map};
ghost use Rattle.std.specs.List.{AllByRecursion};
ghost use Rattle.mig_schema.specs.Version.{IsVersionPath};
ghost use Rattle.mig_model.specs.declared.form.Form as forms;
ghost use Rattle.mig_rule.specs.declared.fault.Walk as walks;
ghost use Rattle.mig_rule.specs.declared.fault.ChainError.TheVariants as errors;
ghost use Rattle.mig_syntax.specs.DeclView.{decl_of};
ghost use Rattle.mig_resolve.specs.Right.{IsRight, AreRight, IsDeclaration};
ghost use Rattle.mig_resolve.specs.Steps.{IsChainFault, IsStepFault};
ghost use Rattle.mig_resolve.specs.Text.{path_in, missing_of, missing_in, chain_from};
ghost use Rattle.mig_resolve.specs.Faults.{walk_number, IsFaultAt};

use crate::ChainFault;
use crate::scan::{early_fault, form_in};
use crate::sorts::is_version;
use crate::steps::{Steps, steps_from, version_of};
use mig_rule::{Chain, ChainError, Walk};
use mig_schema::VersionPath;
use mig_syntax::Decl;
use mig_tree::{Memory, Name};
use std::alloc::Global;

/// Equal names.
fn copy_names(alloc: Global, names: &[Name]) -> Result<Vec<Name>, Memory>
    ensures { IfOk result (λ ns. ns.items ≡ names.now) }
{
    let mut list = Vec::new(alloc);
    for name in names {
        list.push(name.copy(alloc)?)?;
    }
    Ok(list)
}

/// The names after the first `version`.
fn names_in(alloc: Global, decls: &[Decl]) -> Result<Vec<Name>, Memory>
    ensures { IfOk result (λ ns. ns.items ≡ path_in (map decl_of decls.now)) }
{
    for decl in decls {
        if let Decl::Version(names, _) = decl {
            return copy_names(alloc, names);
        }
    }
    Ok(Vec::new(alloc))
}

/// The version path.
fn path_in(alloc: Global, decls: &[Decl]) -> Result<VersionPath, Memory>
    requires { IsVersionPath (path_in (map decl_of decls.now)) }
    ensures { IfOk result (λ p. p ≡ path_in (map decl_of decls.now)) }
{
    let names = names_in(alloc, decls)?;
    let Some(path) = VersionPath::new(names) else {
        unreachable!()
    };
    Ok(path)
}

/// The number behind `missing`, where the declaration is a `version` that has one.
fn missing_of(decl: &Decl) -> Option<u32>
    requires { (form : forms.Form) × IsRight form (decl_of decl.now) }
    ensures { result ≡ missing_of (decl_of decl.now) }
{
    match decl {
        Decl::Version(_, Some(number)) => Some(version_of(*number)),
        Decl::Version(_, None)
        | Decl::Form(_)
        | Decl::Schema(_, _)
        | Decl::Named(_, _)
        | Decl::Root(_)
        | Decl::Fix(_, _) => None,
    }
}

/// The version of a save that says none.
fn missing_in(decls: &[Decl]) -> Option<u32>
    requires { (form : forms.Form) × AreRight form (map decl_of decls.now) }
    ensures { result ≡ missing_in (map decl_of decls.now) }
{
    for decl in decls {
        if is_version(decl) {
            return missing_of(decl);
        }
    }
    None
}

/// The number of what is wrong on the walk along the steps.
fn walk_number(walk: Walk) -> u8
    ensures { result ≡ walk_number walk }
{
    match walk {
        Walk::First => 3,
        Walk::Order => 5,
        Walk::Number => 6,
        Walk::NoName => 11,
        Walk::Missed => 12,
        Walk::IllFormed => 13,
        Walk::Mismatch => 14,
    }
}

/// The fault at the declaration of the step at which something is wrong.
fn fault_of(error: ChainError, numbers: &[usize]) -> ChainFault
    requires { (step : ℕ) (walk : walks.Walk) → error ≡ errors.At step walk → step < length numbers.now }
    ensures { IsStepFault result numbers.now error }
{
    match error {
        ChainError::At(step, walk) => ChainFault::Fault {
            number: walk_number(walk),
            declaration: numbers[step],
        },
        ChainError::Memory => ChainFault::Memory,
    }
}

/// The chain that the declarations are, or the one fault of their text. Each is the declaration of some tokens.
pub fn resolve(alloc: Global, decls: Vec<Decl>) -> Result<Chain, ChainFault>
    requires { AllByRecursion IsDeclaration (map decl_of decls.items) }
    ensures made { IfOk result (λ c. c ≡ chain_from (map decl_of decls.items)) }
    ensures accepted { IfOk result (λ c. (n k : ℕ) → IsFaultAt (map decl_of decls.items) n k → ⊥) }
    ensures fault { IfErr result (λ e. IsChainFault e (IsFaultAt (map decl_of decls.items))) }
{
    if let Some((number, declaration)) = early_fault(alloc, &decls)? {
        return Err(ChainFault::Fault {
            number,
            declaration,
        });
    }
    let form = form_in(&decls);
    let path = path_in(alloc, &decls)?;
    let missing = missing_in(&decls);
    let Steps { steps, numbers } = match steps_from(alloc, form, &path, &decls) {
        Ok(made) => made,
        Err(fault) => return Err(fault),
    };
    match Chain::new(alloc, form, path, missing, steps) {
        Ok(chain) => {
            chain.keeps();
            Ok(chain)
        }
        Err(error) => Err(fault_of(error, &numbers)),
    }
}
