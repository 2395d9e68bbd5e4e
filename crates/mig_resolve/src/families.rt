//! The families that stand under schemas.
ghost use Rattle.std.specs.Prelude.{◌≡◌, ◌++◌, None, IfOk, IfErr, OnOk, map};
ghost use Rattle.mig_model.specs.Family.{first_flaw};
ghost use Rattle.mig_model.specs.declared.form.Form as forms;
ghost use Rattle.mig_schema.specs.Fault.{IsFamilyFault};
ghost use Rattle.mig_schema.specs.Types.{named_all};
ghost use Rattle.mig_syntax.specs.DeclView.{decl_of};
ghost use Rattle.mig_resolve.specs.Right.{IsRight, AreRight};
ghost use Rattle.mig_resolve.specs.Text.{type_in, types_in, root_in, family_in};

use crate::sorts::ends_schema;
use mig_model::Form;
use mig_resolve_template::template;
use mig_schema::{Family, SchemaFault, VersionPath};
use mig_syntax::Decl;
use mig_template::Template;
use mig_tree::{Memory, Name};
use std::alloc::Global;

/// Adds the type that the declaration is, if it is one.
fn add_type(alloc: Global, list: &mut Vec<(Name, Template)>, decl: &Decl) -> Result<(), Memory>
    requires { (form : forms.Form) × IsRight form (decl_of decl.now) }
    ensures { OnOk result (named_all list.new.items ≡ named_all list.old.items ++ type_in (decl_of decl.now)) }
{
    if let Decl::Named(name, named) = decl {
        let Some(made) = template(alloc, named)? else {
            unreachable!()
        };
        list.push((name.copy(alloc)?, made))?;
    }
    Ok(())
}

/// The types up to the next schema or fix.
fn types_in(alloc: Global, decls: &[Decl]) -> Result<Vec<(Name, Template)>, Memory>
    requires { (form : forms.Form) × AreRight form (map decl_of decls.now) }
    ensures { IfOk result (λ list. named_all list.items ≡ types_in (map decl_of decls.now)) }
{
    let mut list = Vec::new(alloc);
    for decl in decls {
        if ends_schema(decl) {
            return Ok(list);
        }
        add_type(alloc, &mut list, decl)?;
    }
    Ok(list)
}

/// The name of the root, up to the next schema or fix.
fn root_in(alloc: Global, decls: &[Decl]) -> Result<Name, Memory>
    ensures { IfOk result (λ n. n ≡ root_in (map decl_of decls.now)) }
{
    for decl in decls {
        if ends_schema(decl) {
            return Name::new(alloc, b"");
        }
        if let Decl::Root(name) = decl {
            return name.copy(alloc);
        }
    }
    Name::new(alloc, b"")
}

/// The family of a schema behind which these declarations stand, or its first fault.
pub fn family_in(
    alloc: Global,
    form: Form,
    path: &VersionPath,
    decls: &[Decl],
) -> Result<Family, SchemaFault>
    requires { AreRight form (map decl_of decls.now) }
    ensures made { IfOk result (λ f. f ≡ family_in form path.now (map decl_of decls.now)) }
    ensures formed { IfOk result (λ f. first_flaw (family_in form path.now (map decl_of decls.now)) ≡ None) }
    ensures fault { IfErr result (λ e.
        IsFamilyFault e (first_flaw (family_in form path.now (map decl_of decls.now)))) }
{
    let types = types_in(alloc, decls)?;
    let root = root_in(alloc, decls)?;
    let path = path.copy(alloc)?;
    Family::new(alloc, form, path, types, root)
}
