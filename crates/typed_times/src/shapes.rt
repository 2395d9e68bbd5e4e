//! The families by which saves are typed: long lists of records, nested records, and records with many fields that may be away.
use mig_schema::{Family, Form, Kind, Name, Template, TemplateBox, VersionPath};
use mig_template::{Field, Presence, Record, Rest};
use std::alloc::Global;

/// How many fields a record has that may be away.
const MANY: u32 = 10_000;

/// A field of that name.
fn field(alloc: Global, presence: Presence, name: &str, template: Template) -> Option<Field> {
    match Name::new(alloc, name.as_bytes()) {
        Ok(name) => Some(Field {
            name,
            presence,
            template,
        }),
        Err(_) => {
            drop(template);
            None
        }
    }
}

/// An open record of those fields.
fn open_record(alloc: Global, fields: Vec<Field>) -> Option<Template> {
    match Record::new(alloc, fields, None, Rest::Open) {
        Ok(record) => Some(Template::Rec(record)),
        Err(_) => None,
    }
}

/// An open record of that field.
fn one_field(alloc: Global, field: Field) -> Option<Template> {
    let mut fields = Vec::new(alloc);
    fields.push(field).ok()?;
    open_record(alloc, fields)
}

/// `{ "list": list PART, .. }`.
fn list_of(alloc: Global, part: Template) -> Option<Template> {
    let part = TemplateBox::new(alloc, part).ok()?;
    let list = field(alloc, Presence::Must, "list", Template::List(part))?;
    one_field(alloc, list)
}

/// `{ "id": int, "mark"?: byte, .. }`.
fn item(alloc: Global) -> Option<Template> {
    let mut fields = Vec::new(alloc);
    let id = field(alloc, Presence::Must, "id", Template::Leaf(Kind::Int))?;
    fields.push(id).ok()?;
    let mark = field(alloc, Presence::May, "mark", Template::Leaf(Kind::Byte))?;
    fields.push(mark).ok()?;
    open_record(alloc, fields)
}

/// A record of many fields that may be away.
fn optional_fields(alloc: Global) -> Option<Template> {
    let mut fields = Vec::new(alloc);
    for number in 0..MANY {
        let name = format!(in alloc; "f{number:05}").ok()?;
        let leaf = field(
            alloc,
            Presence::May,
            name.as_str(),
            Template::Leaf(Kind::Int),
        )?;
        fields.push(leaf).ok()?;
    }
    open_record(alloc, fields)
}

/// `{ "in"?: save, .. }`.
fn nested(alloc: Global) -> Option<Template> {
    let save = Name::new(alloc, b"save").ok()?;
    let inner = field(alloc, Presence::May, "in", Template::Point(save))?;
    one_field(alloc, inner)
}

/// The body of that shape's type.
fn body(alloc: Global, shape: &str) -> Option<Template> {
    match shape {
        "records" => list_of(alloc, item(alloc)?),
        "optional" => list_of(alloc, optional_fields(alloc)?),
        "levels" => nested(alloc),
        _ => None,
    }
}

/// The version path `"DataVersion"`.
fn version_path(alloc: Global) -> Option<VersionPath> {
    let mut names = Vec::new(alloc);
    names.push(Name::new(alloc, b"DataVersion").ok()?).ok()?;
    VersionPath::new(names)
}

/// The family of that shape, whose one type is `save`.
pub fn family(alloc: Global, shape: &str) -> Option<Family> {
    let version = version_path(alloc)?;
    let root = Name::new(alloc, b"save").ok()?;
    let name = Name::new(alloc, b"save").ok()?;
    let mut types = Vec::new(alloc);
    types.push((name, body(alloc, shape)?)).ok()?;
    Family::new(alloc, Form::Nbt, version, types, root).ok()
}
