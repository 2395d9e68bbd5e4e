//! The new fields of a nest and of an unnest.
ghost use Rattle.std.specs.Prelude.{◌≡◌, ◌∷◌, ◌++◌, [], Some, false, true, map, IfOk, IfErr};
ghost use Rattle.std.specs.List.{list_all};
ghost use Rattle.mig_model.specs.Names.{has, those, others, under, Ascends};
ghost use Rattle.mig_field.specs.FieldFn.{nest, unnest};
ghost use Rattle.mig_field.specs.NewRecord.{unnested, is_some_name};
ghost use Rattle.mig_model.specs.declared.rest.Rest as rests;
ghost use Rattle.mig_model.specs.Template.{rec, fields_of, no_choice};
ghost use Rattle.mig_template.specs.View.{template_of, field_of};
ghost use Rattle.mig_model.specs.Record.{record_of};
ghost use Rattle.mig_func.specs.New.{IsMisfit, Offers, Refuses};

use crate::copies::copy_field;
use crate::lists::{all_but, others, those};
use crate::records::record_of;
use crate::slots::is_must;
use crate::{FuncFault, Names};
use mig_template::{Field, Fields, Presence, Record, Rest, Template};
use mig_tree::{Memory, Name};
use std::alloc::Global;

/// Whether a field has the name.
fn is_there(fields: &Fields, name: &Name) -> bool
    ensures { result ≡ has name.now fields.now }
{
    fields.has(name.bytes())
}

/// Whether each of the names is that of a field.
fn have_all(fields: &Fields, names: &[Name]) -> bool
    ensures { result ≡ list_all (λ x. has x fields.now) names.now }
{
    for name in names {
        if !is_there(fields, name) {
            return false;
        }
    }
    true
}

/// Whether there is a name.
fn is_some_name(names: &[Name]) -> bool
    ensures { result ≡ is_some_name names.now }
{
    !names.is_empty()
}

/// A record of the fields of the names.
fn inner(alloc: Global, fields: &Fields, names: &Names) -> Result<Template, FuncFault>
    ensures made { IfOk result (λ t. template_of t ≡ rec (fields_of (those names.now fields.now)) no_choice Rest.Open) }
    ensures fit { IfErr result (λ e. IsMisfit e (true ≡ false)) }
{
    let list = those(alloc, fields, names)?;
    match record_of(alloc, list, None, Rest::Open) {
        Ok(record) => Ok(Template::Rec(record)),
        Err(fault) => Err(fault),
    }
}

/// The other fields, and behind them a field that has to be there.
fn with_inner(
    alloc: Global,
    fields: &Fields,
    names: &Names,
    name: &Name,
    template: Template,
) -> Result<Vec<Field>, Memory>
    ensures list { IfOk result (λ es. map field_of es.items
        ≡ others names.now fields.now ++ (name.now, (Presence.Must, template_of template)) ∷ []) }
    ensures ascend { IfOk result (λ es. Ascends fields.now) }
{
    let name = name.copy(alloc)?;
    let mut list = others(alloc, fields, names)?;
    list.push(Field {
        name,
        presence: Presence::Must,
        template,
    })?;
    Ok(list)
}

/// The other fields, and behind them a field with a record of the fields of the names.
pub fn nested(
    alloc: Global,
    fields: &Fields,
    names: &Names,
    name: &Name,
) -> Result<Vec<Field>, FuncFault>
    ensures offers { IfOk result (λ es. (r : rests.Rest) →
        Offers (nest names.now name.now) r fields.now (map field_of es.items)) }
    ensures misfit { IfErr result (λ e. IsMisfit e ((r : rests.Rest)
        → Refuses (nest names.now name.now) r fields.now)) }
{
    if !is_some_name(names.as_slice()) {
        return Err(FuncFault::Misfit);
    }
    if names.has_twice() {
        return Err(FuncFault::Misfit);
    }
    if !have_all(fields, names.as_slice()) {
        return Err(FuncFault::Misfit);
    }
    match inner(alloc, fields, names) {
        Ok(template) => {
            let list = with_inner(alloc, fields, names, name, template)?;
            Ok(list)
        }
        Err(fault) => Err(fault),
    }
}

/// The field as it is outside of a record that need not be there.
fn outer(alloc: Global, presence: Presence, field: &Field) -> Result<Field, Memory>
    ensures { IfOk result (λ f. field_of f ≡ unnested presence (field_of field.now)) }
{
    let mut field = copy_field(alloc, field)?;
    if !is_must(presence) {
        field.presence = Presence::May;
    }
    Ok(field)
}

/// The list and behind it the fields of a record that need not be there.
fn with_outer(
    alloc: Global,
    mut list: Vec<Field>,
    presence: Presence,
    fields: &Fields,
) -> Result<Vec<Field>, Memory>
    ensures { IfOk result (λ es. map field_of es.items
        ≡ map field_of list.items ++ map (unnested presence) fields.now) }
{
    for field in fields.as_slice() {
        list.push(outer(alloc, presence, field)?)?;
    }
    Ok(list)
}

/// The fields without the one of the name, and behind them those of its record.
fn outside(
    alloc: Global,
    fields: &Fields,
    name: &Name,
    presence: Presence,
    inner: &Record,
) -> Result<Vec<Field>, FuncFault>
    requires { under name.now fields.now ≡ Some (presence, record_of inner.now) }
    ensures offers { IfOk result (λ es. (r : rests.Rest) →
        Offers (unnest name.now) r fields.now (map field_of es.items)) }
    ensures misfit { IfErr result (λ e. IsMisfit e ((r : rests.Rest) → Refuses (unnest name.now) r fields.now)) }
{
    inner.keeps();
    if inner.choice().is_some() {
        return Err(FuncFault::Misfit);
    }
    let list = all_but(alloc, fields, name.bytes())?;
    let list = with_outer(alloc, list, presence, inner.fields())?;
    Ok(list)
}

/// The fields with those of the record under the name in its place.
pub fn unnested(alloc: Global, fields: &Fields, name: &Name) -> Result<Vec<Field>, FuncFault>
    ensures offers { IfOk result (λ es. (r : rests.Rest) →
        Offers (unnest name.now) r fields.now (map field_of es.items)) }
    ensures misfit { IfErr result (λ e. IsMisfit e ((r : rests.Rest) → Refuses (unnest name.now) r fields.now)) }
{
    let Some(field) = fields.get(name.bytes()) else {
        return Err(FuncFault::Misfit);
    };
    match &field.template {
        Template::Rec(inner) => outside(alloc, fields, name, field.presence, inner),
        Template::Leaf(_)
        | Template::Any
        | Template::List(_)
        | Template::Point(_)
        | Template::Sum(_, _) => Err(FuncFault::Misfit),
    }
}
