//! A step done to children, to all parts and to places.
ghost use Rattle.std.specs.Prelude.{◌≡◌, Some, IfOk, option_map};
ghost use Rattle.std.specs.Option.{option_or};
ghost use Rattle.mig_template.specs.View.{template_of};
ghost use Rattle.mig_rule.specs.Step.{Retypes, outcome_of, child_of};
ghost use Rattle.mig_rule.specs.Target.{Retyping, if_it_fits, it_must_fit, all_children, everywhere_within, is_name, places_within, place_or};

use crate::children::by_children;
use crate::outcome::{Child, Outcome};
use mig_template::Template;
use mig_tree::{Memory, Name};
use std::alloc::Global;

/// What becomes of a child that need not be fit.
fn if_it_fits<F: Fn(&Template) -> Result<Option<Template>, Memory>>(
    retype: &F,
    child: Child,
) -> Result<Outcome, Memory>
    requires { F.IsAlwaysCallable retype.now }
    ensures { (R : Retyping) → Retypes (F.post retype.now) R → IfOk result (λ x.
        outcome_of x ≡ if_it_fits (R (child_of child.entry).1)) }
{
    match retype(child.template)? {
        Some(template) => Ok(Outcome::Becomes(template)),
        None => Ok(Outcome::Stays),
    }
}

/// The template with each child changed that is fit, and `None` where there is none.
pub fn all_children<F: Fn(&Template) -> Result<Option<Template>, Memory>>(
    alloc: Global,
    retype: &F,
    template: &Template,
) -> Result<Option<Template>, Memory>
    requires { F.IsAlwaysCallable retype.now }
    ensures { (R : Retyping) → Retypes (F.post retype.now) R → IfOk result (λ x.
        option_map template_of x ≡ all_children R (template_of template.now)) }
{
    let step = |child: Child|
        requires { F.IsAlwaysCallable retype.now }
        ensures { (R : Retyping) → Retypes (F.post retype.entry.now) R →
            IfOk result (λ x. outcome_of x ≡ if_it_fits (R (child_of child.entry).1)) }
    { if_it_fits(retype, child) };
    let outcome = by_children(alloc, &step, template)?;
    Ok(outcome.changed())
}

/// The template changed wherever it and its parts are fit, from below, within so many levels.
#[cycle(everywhere)]
pub fn everywhere<F: Fn(&Template) -> Result<Option<Template>, Memory>>(
    alloc: Global,
    retype: &F,
    levels: usize,
    template: &Template,
) -> Result<Option<Template>, Memory>
    requires { F.IsAlwaysCallable retype.now }
    ensures { (R : Retyping) → Retypes (F.post retype.now) R → IfOk result (λ x.
        option_map template_of x ≡ everywhere_within R levels (template_of template.now)) }
{
    if levels == 0 {
        return Ok(None);
    }
    let below = levels - 1;
    let parts = |part: &Template|
        requires { F.IsAlwaysCallable retype.now }
        ensures { (R : Retyping) → Retypes (F.post retype.entry.now) R →
            IfOk result (λ x. option_map template_of x ≡ everywhere_within R below (template_of part.now)) }
    { everywhere(alloc, retype, below, part) };
    match all_children(alloc, &parts, template)? {
        Some(changed) => then_itself(retype, changed),
        None => retype(template),
    }
}

/// What becomes of a template that was changed already.
fn then_itself<F: Fn(&Template) -> Result<Option<Template>, Memory>>(
    retype: &F,
    changed: Template,
) -> Result<Option<Template>, Memory>
    requires { F.IsAlwaysCallable retype.now }
    ensures { (R : Retyping) → Retypes (F.post retype.now) R → IfOk result (λ x.
        option_map template_of x ≡ option_or (R (template_of changed)) (Some (template_of changed))) }
{
    match retype(&changed)? {
        Some(template) => Ok(Some(template)),
        None => Ok(Some(changed)),
    }
}

/// What becomes of a place, which has to be fit.
fn it_must_fit<F: Fn(&Template) -> Result<Option<Template>, Memory>>(
    retype: &F,
    place: &Template,
) -> Result<Outcome, Memory>
    requires { F.IsAlwaysCallable retype.now }
    ensures { (R : Retyping) → Retypes (F.post retype.now) R → IfOk result (λ x.
        outcome_of x ≡ it_must_fit (R (template_of place.now))) }
{
    match retype(place)? {
        Some(template) => Ok(Outcome::Becomes(template)),
        None => Ok(Outcome::Unfit),
    }
}

/// Whether the child is a field of the name.
fn is_named(child: Child, name: &Name) -> bool
    ensures { result ≡ is_name name.now (child_of child.entry).0 }
{
    match child.name {
        Some(own) => name.bytes().cmp(own.bytes()).is_eq(),
        None => false,
    }
}

/// What becomes of a template with its places of a name changed, within so many levels. A place has to be fit, and nothing inside it is looked at.
#[cycle(places)]
pub fn places<F: Fn(&Template) -> Result<Option<Template>, Memory>>(
    alloc: Global,
    retype: &F,
    name: &Name,
    levels: usize,
    template: &Template,
) -> Result<Outcome, Memory>
    requires { F.IsAlwaysCallable retype.now }
    ensures { (R : Retyping) → Retypes (F.post retype.now) R → IfOk result (λ x.
        outcome_of x ≡ places_within name.now R levels (template_of template.now)) }
{
    if levels == 0 {
        return Ok(Outcome::Stays);
    }
    let below = levels - 1;
    let step = |child: Child|
        requires { F.IsAlwaysCallable retype.now }
        ensures { (R : Retyping) → Retypes (F.post retype.entry.now) R →
            IfOk result (λ x. outcome_of x ≡ place_or name.entry.now R (places_within name.entry.now R below)
            (child_of child.entry)) }
    {
        if is_named(child, name) {
            it_must_fit(retype, child.template)
        } else {
            places(alloc, retype, name, below, child.template)
        }
    };
    by_children(alloc, &step, template)
}
