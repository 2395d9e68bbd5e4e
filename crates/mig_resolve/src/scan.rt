//! The look at one declaration after another, for what may be wrong with each.
ghost use Rattle.std.specs.Prelude.{◌≡◌, ◌+◌, ◌∷◌, ◌<◌, suc, List, IfOk, map, option_map, drop, length, false};
ghost use Rattle.mig_syntax.specs.DeclSyntax.{DeclSyntax};
ghost use Rattle.mig_syntax.specs.TemplateView.{template_of};
ghost use Rattle.mig_syntax.specs.DeclView.{decl_of, fix_of};
ghost use Rattle.mig_resolve_template.specs.Templates.{template_is_twice};
ghost use Rattle.mig_resolve_rule.specs.Rules.{fix_is_out_of_range, fix_is_twice};
ghost use Rattle.mig_resolve.specs.Before.{IsBefore};
ghost use Rattle.mig_resolve.specs.Scan.{IsBehind};
ghost use Rattle.mig_resolve.specs.Text.{form_in, nearest_version};
ghost use Rattle.mig_resolve.specs.Faults.{kind_is_wrong, is_out_of_range, is_twice, number_by_place, number_by_content, number_at, lesser, fault_at_end, early_fault};

use crate::before::{Before, nearest_version, number_is_wrong};
use crate::sorts::is_schema;
use mig_model::Form;
use mig_resolve_rule::{fix, fix_is_out_of_range, fix_is_wrong};
use mig_resolve_template::{template, template_is_wrong};
use mig_syntax::{Decl, FixText, TemplateText};
use mig_tree::Memory;
use std::alloc::Global;

/// What is known before a declaration, and what was found: a fault's number and that of its declaration.
#[derive(Debug, Drop)]
pub struct Scan {
    pub before: Before,
    /// The version of the next schema, this declaration counted.
    pub next: Option<i128>,
    pub least: Option<(u8, usize)>,
}

/// The form that the first `form` names.
pub fn form_in(decls: &[Decl]) -> Form
    ensures { result ≡ form_in (map decl_of decls.now) }
{
    for decl in decls {
        if let Decl::Form(form) = decl {
            return *form;
        }
    }
    Form::Nbt
}

/// Whether a kind word is no leaf kind of the form.
fn kind_is_wrong(form: Form, decl: &Decl) -> bool
    ensures { result ≡ kind_is_wrong form (decl_of decl.now) }
{
    match decl {
        Decl::Named(_, named) => template_is_wrong(form, named),
        Decl::Fix(_, change) => fix_is_wrong(form, change),
        Decl::Form(_) | Decl::Version(_, _) | Decl::Schema(_, _) | Decl::Root(_) => false,
    }
}

/// Whether a number is outside the range of its place.
fn is_out_of_range(decl: &Decl) -> bool
    ensures { result ≡ is_out_of_range (decl_of decl.now) }
{
    match decl {
        Decl::Fix(_, change) => fix_is_out_of_range(change),
        Decl::Form(_)
        | Decl::Version(_, _)
        | Decl::Schema(_, _)
        | Decl::Named(_, _)
        | Decl::Root(_) => false,
    }
}

/// Whether names of a record in the template that must be distinct are equal.
fn template_is_twice(alloc: Global, named: &TemplateText) -> Result<bool, Memory>
    ensures { IfOk result (λ b. b ≡ template_is_twice (template_of named.now)) }
{
    match template(alloc, named)? {
        Some(made) => {
            drop(made);
            Ok(false)
        }
        None => Ok(true),
    }
}

/// Whether names in the fix that must be distinct are equal.
fn fix_is_twice(alloc: Global, change: &FixText) -> Result<bool, Memory>
    requires { fix_is_out_of_range (fix_of change.now) ≡ false }
    ensures { IfOk result (λ b. b ≡ fix_is_twice (fix_of change.now)) }
{
    match fix(alloc, change)? {
        Some(made) => {
            drop(made);
            Ok(false)
        }
        None => Ok(true),
    }
}

/// Whether names that must be distinct are equal.
fn is_twice(alloc: Global, before: &Before, decl: &Decl) -> Result<bool, Memory>
    requires { is_out_of_range (decl_of decl.now) ≡ false }
    ensures { (seen : List DeclSyntax) → IsBefore before.now seen →
        IfOk result (λ b. b ≡ is_twice seen (decl_of decl.now)) }
{
    match decl {
        Decl::Named(name, named) => {
            let inside = template_is_twice(alloc, named)?;
            Ok(inside || before.types.has(name))
        }
        Decl::Fix(_, change) => fix_is_twice(alloc, change),
        Decl::Form(_) | Decl::Version(_, _) | Decl::Schema(_, _) | Decl::Root(_) => Ok(false),
    }
}

/// The least number from 1 to 6 that holds at the declaration.
fn number_by_place(before: &Before, decl: &Decl, later: &[Decl], next: Option<i128>) -> Option<u8>
    ensures { (seen : List DeclSyntax) → IsBefore before.now seen → next ≡ nearest_version (map decl_of later.now) →
        result ≡ number_by_place seen (decl_of decl.now) (map decl_of later.now) }
{
    if before.form_is_misplaced(decl) {
        return Some(1);
    }
    if before.version_is_misplaced(decl) {
        return Some(2);
    }
    if before.schema_is_misplaced(decl, later) {
        return Some(3);
    }
    if before.is_one_too_many(decl) {
        return Some(4);
    }
    if before.version_is_wrong(decl) {
        return Some(5);
    }
    if number_is_wrong(decl, next) {
        return Some(6);
    }
    None
}

/// The least number from 7 to 9 that holds at the declaration.
fn number_by_content(
    alloc: Global,
    form: Form,
    before: &Before,
    decl: &Decl,
) -> Result<Option<u8>, Memory>
    ensures { (seen : List DeclSyntax) → IsBefore before.now seen →
        IfOk result (λ n. n ≡ number_by_content form seen (decl_of decl.now)) }
{
    if kind_is_wrong(form, decl) {
        return Ok(Some(7));
    }
    if is_out_of_range(decl) {
        return Ok(Some(8));
    }
    if is_twice(alloc, before, decl)? {
        return Ok(Some(9));
    }
    Ok(None)
}

/// The least number from 1 to 9 that holds at the declaration.
fn number_at(
    alloc: Global,
    form: Form,
    before: &Before,
    decl: &Decl,
    later: &[Decl],
    next: Option<i128>,
) -> Result<Option<u8>, Memory>
    ensures { (seen : List DeclSyntax) → IsBefore before.now seen → next ≡ nearest_version (map decl_of later.now) →
        IfOk result (λ n. n ≡ number_at form seen (decl_of decl.now) (map decl_of later.now)) }
{
    match number_by_place(before, decl, later, next) {
        Some(number) => Ok(Some(number)),
        None => number_by_content(alloc, form, before, decl),
    }
}

/// The fault of the lesser number; of two with one number the first.
fn lesser(first: Option<(u8, usize)>, second: Option<(u8, usize)>) -> Option<(u8, usize)>
    ensures { result ≡ lesser first second }
{
    let Some(one) = first else {
        return second;
    };
    let Some(other) = second else {
        return first;
    };
    if other.0 < one.0 { second } else { first }
}

/// What is missing behind so many declarations: the `form`, the `version` or the first schema.
fn fault_at_end(count: usize) -> Option<(u8, usize)>
    ensures { result ≡ fault_at_end count }
{
    match count {
        0 => Some((1, 1)),
        1 => Some((2, 2)),
        2 => Some((3, 3)),
        _ => None,
    }
}

/// The number with that of the declaration.
fn fault_of(number: Option<u8>, declaration: usize) -> Option<(u8, usize)>
    ensures { result ≡ option_map (λ n. (n, declaration)) number }
{
    match number {
        Some(number) => Some((number, declaration)),
        None => None,
    }
}

/// The version of the next schema behind the declaration, where `next` counts this one.
fn next_behind(next: Option<i128>, decl: &Decl, later: &[Decl]) -> Option<i128>
    requires { next ≡ nearest_version (decl_of decl.now ∷ map decl_of later.now) }
    ensures { result ≡ nearest_version (map decl_of later.now) }
{
    if is_schema(decl) {
        nearest_version(later)
    } else {
        next
    }
}

/// The look at one declaration, which is that of the number.
fn behind(
    alloc: Global,
    form: Form,
    scan: Scan,
    number: usize,
    decl: &Decl,
    later: &[Decl],
) -> Result<Scan, Memory>
    requires { scan.next ≡ nearest_version (decl_of decl.now ∷ map decl_of later.now) }
    ensures { (seen : List DeclSyntax) → IsBefore scan.before seen → number ≡ suc (length seen) →
        IfOk result (λ s. IsBehind form seen (decl_of decl.now) (map decl_of later.now) scan s) }
{
    let next = next_behind(scan.next, decl, later);
    let found = number_at(alloc, form, &scan.before, decl, later, next)?;
    let least = lesser(scan.least, fault_of(found, number));
    let before = scan.before.behind(alloc, decl)?;
    Ok(Scan {
        before,
        next,
        least,
    })
}

/// The declarations behind the place.
pub fn later_than(decls: &[Decl], place: usize) -> &[Decl]
    requires { place < length decls.now }
    ensures { result.now ≡ drop (place + 1) decls.now }
{
    &decls[place + 1..]
}

/// The least fault from 1 to 9 that holds anywhere, and the first declaration at which it does. It takes n log n in the size of the text.
pub fn early_fault(alloc: Global, decls: &[Decl]) -> Result<Option<(u8, usize)>, Memory>
    ensures { IfOk result (λ f. f ≡ early_fault (map decl_of decls.now)) }
{
    let form = form_in(decls);
    let mut scan = Scan {
        before: Before::new(alloc),
        next: nearest_version(decls),
        least: None,
    };
    for place in 0..decls.len() {
        let decl = &decls[place];
        let later = later_than(decls, place);
        match behind(alloc, form, scan, place + 1, decl, later) {
            Ok(next) => scan = next,
            Err(memory) => return Err(memory),
        }
    }
    let least = scan.least;
    Ok(lesser(least, fault_at_end(decls.len())))
}
