//! The walk through a template, which adds the places part by part.
ghost use Rattle.std.specs.Prelude.{◌≡◌, ◌∷◌, ◌++◌, [], IfOk, OnOk};
ghost use Rattle.mig_model.specs.Template.{fields_of, cases_of};
ghost use Rattle.mig_model.specs.Names.{same_name};
ghost use Rattle.mig_template.specs.View.{template_of};
ghost use Rattle.mig_optic.specs.AnyView.{any_path};
ghost use Rattle.mig_finder.specs.Places.{behind, to_field, places, field_places, case_places};
ghost use Rattle.mig_finder.specs.View.{places_of, place_at, inside};

use crate::Found;
use mig_optic::{AnyOptic, CaseOf, FieldAt, MayField, Side};
use mig_template::{Choice, Field, Fields, Presence, Template};
use mig_tree::{Memory, Name};
use std::alloc::Global;

/// The optic that leads to a field.
fn to_field(alloc: Global, field: &Field) -> Result<AnyOptic, Memory>
    ensures { IfOk result (λ o. any_path o ≡ to_field field.now.name field.now.presence) }
{
    let name = field.name.copy(alloc)?;
    Ok(match field.presence {
        Presence::Must => AnyOptic::FieldAt(FieldAt { name }),
        Presence::May => AnyOptic::MayField(MayField { name }),
    })
}

/// Whether the field has the name.
fn has_name(field: &Field, name: &Name) -> bool
    ensures { result ≡ same_name name.now field.now.name }
{
    name.bytes().cmp(field.name.bytes()).is_eq()
}

/// Adds the places inside what the optic leads to.
fn add_behind(
    alloc: Global,
    optic: &AnyOptic,
    inner: Vec<Found>,
    list: &mut Vec<Found>,
) -> Result<(), Memory>
    ensures { OnOk result (places_of list.new.items
        ≡ places_of list.old.items ++ behind (any_path optic.now) (places_of inner.items)) }
{
    for found in inner {
        let Found { optic: last, focus } = found;
        let optic = AnyOptic::then(alloc, optic.copy(alloc)?, last)?;
        list.push(Found { optic, focus })?;
    }
    Ok(())
}

/// Adds the place that a field is.
fn add_place(alloc: Global, field: &Field, list: &mut Vec<Found>) -> Result<(), Memory>
    ensures { OnOk result (places_of list.new.items ≡ places_of list.old.items ++ place_at field.now ∷ []) }
{
    let optic = to_field(alloc, field)?;
    let focus = field.template.copy(alloc)?;
    list.push(Found { optic, focus })?;
    Ok(())
}

/// Adds the places inside a field.
fn add_inside(
    alloc: Global,
    field: &Field,
    inner: Vec<Found>,
    list: &mut Vec<Found>,
) -> Result<(), Memory>
    ensures { OnOk result (places_of list.new.items
        ≡ places_of list.old.items ++ inside field.now (places_of inner.items)) }
{
    let optic = to_field(alloc, field)?;
    add_behind(alloc, &optic, inner, list)
}

/// The places in the template. It copies a template for each, and an optic for each level above it.
#[cycle(places)]
pub fn places_in(alloc: Global, template: &Template, name: &Name) -> Result<Vec<Found>, Memory>
    ensures { IfOk result (λ found. places_of found.items ≡ places name.now (template_of template.now)) }
{
    let mut list = Vec::new(alloc);
    match template {
        Template::Leaf(_) | Template::Any | Template::Point(_) => {}
        Template::List(part) => {
            let inner = places_in(alloc, part.get(), name)?;
            add_behind(alloc, &AnyOptic::Each, inner, &mut list)?;
        }
        Template::Rec(record) => {
            add_field_places(alloc, record.fields(), name, &mut list)?;
            if let Some(choice) = record.choice() {
                add_case_places(alloc, choice, name, &mut list)?;
            }
        }
        Template::Sum(left, right) => {
            let inner = places_in(alloc, left.get(), name)?;
            add_behind(alloc, &AnyOptic::Side(Side::Left), inner, &mut list)?;
            let inner = places_in(alloc, right.get(), name)?;
            add_behind(alloc, &AnyOptic::Side(Side::Right), inner, &mut list)?;
        }
    }
    Ok(list)
}

/// Adds the places among the fields.
#[cycle(places)]
fn add_field_places(
    alloc: Global,
    fields: &Fields,
    name: &Name,
    list: &mut Vec<Found>,
) -> Result<(), Memory>
    ensures { OnOk result (places_of list.new.items
        ≡ places_of list.old.items ++ field_places name.now (fields_of fields.now)) }
{
    for field in fields.as_slice() {
        if has_name(field, name) {
            add_place(alloc, field, list)?;
        } else {
            let inner = places_in(alloc, &field.template, name)?;
            add_inside(alloc, field, inner, list)?;
        }
    }
    Ok(())
}

/// Adds the places among the fields of the cases.
#[cycle(places)]
fn add_case_places(
    alloc: Global,
    choice: &Choice,
    name: &Name,
    list: &mut Vec<Found>,
) -> Result<(), Memory>
    ensures { OnOk result (places_of list.new.items
        ≡ places_of list.old.items ++ case_places name.now (cases_of choice.now.1)) }
{
    for case in choice.cases() {
        let literal = case.literal.copy(alloc)?;
        let mut inner = Vec::new(alloc);
        add_field_places(alloc, &case.fields, name, &mut inner)?;
        add_behind(alloc, &AnyOptic::CaseOf(CaseOf { literal }), inner, list)?;
    }
    Ok(())
}
