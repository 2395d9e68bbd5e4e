//! The families that the tests read by. Want of memory ends the test at once, so that no template is let go on the way.
use mig_schema::{Family, Form, Kind, Name, Template, TemplateBox, VersionPath};
use mig_template::{Field, Presence, Record, Rest};
use std::alloc::Global;
use std::process::Abort;

/// What a test says where memory is wanting.
pub const MEMORY: &str = "out of memory";

fn name_of(rt: &impl Abort, alloc: Global, bytes: &[u8]) -> Name {
    Name::new(alloc, bytes).expect(rt, MEMORY)
}

/// A list with one field of the name; with `?` before the name it may be away.
fn one_field(rt: &impl Abort, alloc: Global, name: &[u8], template: Template) -> Vec<Field> {
    let (presence, name) = match name {
        [b'?', rest @ ..] => (Presence::May, rest),
        whole => (Presence::Must, whole),
    };
    let name = name_of(rt, alloc, name);
    let field = Field {
        name,
        presence,
        template,
    };
    vec![in alloc; field].expect(rt, MEMORY)
}

/// Adds a field as `one_field` makes it.
fn add_field(
    rt: &impl Abort,
    alloc: Global,
    fields: &mut Vec<Field>,
    name: &[u8],
    template: Template,
) {
    let mut more = one_field(rt, alloc, name, template);
    fields.append(&mut more).expect(rt, MEMORY);
}

/// A record with these fields and no choice.
fn record_of(rt: &impl Abort, alloc: Global, fields: Vec<Field>, rest: Rest) -> Template {
    let record = Record::new(alloc, fields, None, rest);
    Template::Rec(record.expect(rt, "no record"))
}

/// An open record with that one field.
fn with_field(rt: &impl Abort, alloc: Global, name: &[u8], template: Template) -> Template {
    let fields = one_field(rt, alloc, name, template);
    record_of(rt, alloc, fields, Rest::Open)
}

/// The template on the heap.
fn boxed(rt: &impl Abort, alloc: Global, template: Template) -> TemplateBox {
    TemplateBox::new(alloc, template).expect(rt, MEMORY)
}

/// `list text`.
fn texts(rt: &impl Abort, alloc: Global) -> Template {
    Template::List(boxed(rt, alloc, Template::Leaf(Kind::Text)))
}

fn point_to(rt: &impl Abort, alloc: Global, name: &[u8]) -> Template {
    Template::Point(name_of(rt, alloc, name))
}

/// Adds a type of that name.
fn add(
    rt: &impl Abort,
    alloc: Global,
    types: &mut Vec<(Name, Template)>,
    name: &[u8],
    body: Template,
) {
    let name = name_of(rt, alloc, name);
    types.push((name, body)).expect(rt, MEMORY);
}

/// The family of these types and this root, whose version stands under these names.
fn family_of(
    rt: &impl Abort,
    alloc: Global,
    types: Vec<(Name, Template)>,
    root: &[u8],
    path: &[&str],
) -> Family {
    let mut names = Vec::new(alloc);
    for name in path {
        let name = name_of(rt, alloc, name.as_bytes());
        names.push(name).expect(rt, MEMORY);
    }
    let version = VersionPath::new(names).expect(rt, "no version path");
    let root = name_of(rt, alloc, root);
    Family::new(alloc, Form::Json, version, types, root).expect(rt, "no family")
}

/// The case `"chest" { "items": list text }`.
fn chest(rt: &impl Abort, alloc: Global) -> (Name, Vec<Field>) {
    let items = one_field(rt, alloc, b"items", texts(rt, alloc));
    (name_of(rt, alloc, b"chest"), items)
}

/// The case `"sign" { "line": text }`.
fn sign(rt: &impl Abort, alloc: Global) -> (Name, Vec<Field>) {
    let line = one_field(rt, alloc, b"line", Template::Leaf(Kind::Text));
    (name_of(rt, alloc, b"sign"), line)
}

/// `{ "pos": whole, choice "id" { .. } }` with these cases.
fn block(
    rt: &impl Abort,
    alloc: Global,
    cases: Vec<(Name, Vec<Field>)>,
    kept: bool,
    rest: Rest,
) -> Template {
    let choice = Some((name_of(rt, alloc, b"id"), cases, kept));
    let fields = one_field(rt, alloc, b"pos", Template::Leaf(Kind::Whole));
    let record = Record::new(alloc, fields, choice, rest);
    Template::Rec(record.expect(rt, "no record"))
}

/// `world = { "blocks": list block, .. }`, the root, with this block.
fn world_of(rt: &impl Abort, alloc: Global, block: Template) -> Family {
    let mut types = Vec::new(alloc);
    add(rt, alloc, &mut types, b"block", block);
    let blocks = Template::List(boxed(rt, alloc, point_to(rt, alloc, b"block")));
    let world = with_field(rt, alloc, b"blocks", blocks);
    add(rt, alloc, &mut types, b"world", world);
    family_of(rt, alloc, types, b"world", &["v"])
}

/// A world of open blocks that are signs or chests.
pub fn world(rt: &impl Abort, alloc: Global) -> Family {
    let cases = vec![in alloc; sign(rt, alloc), chest(rt, alloc)].expect(rt, MEMORY);
    let block = block(rt, alloc, cases, false, Rest::Open);
    world_of(rt, alloc, block)
}

/// A world of closed blocks that are chests, and where `kept` says so also others.
pub fn closed_world(rt: &impl Abort, alloc: Global, kept: bool) -> Family {
    let cases = vec![in alloc; chest(rt, alloc)].expect(rt, MEMORY);
    let block = block(rt, alloc, cases, kept, Rest::Closed);
    world_of(rt, alloc, block)
}

/// `level = { "Data": { "LevelName": text }, .. }`, the root, whose version stands under `Data` and `DataVersion`.
pub fn level(rt: &impl Abort, alloc: Global) -> Family {
    let fields = one_field(rt, alloc, b"LevelName", Template::Leaf(Kind::Text));
    let data = record_of(rt, alloc, fields, Rest::Closed);
    let mut types = Vec::new(alloc);
    let level = with_field(rt, alloc, b"Data", data);
    add(rt, alloc, &mut types, b"level", level);
    family_of(rt, alloc, types, b"level", &["Data", "DataVersion"])
}

/// Adds the type of an open record with one field, which is a point to the named type.
fn add_around(
    rt: &impl Abort,
    alloc: Global,
    types: &mut Vec<(Name, Template)>,
    name: &[u8],
    inner: &[u8],
) {
    let around = with_field(rt, alloc, inner, point_to(rt, alloc, inner));
    add(rt, alloc, types, name, around);
}

/// Points behind points: `item = { "id": text, .. }`, `slot = { "item": item, .. }`, `bag = { "slot": slot, .. }` and
/// `player = { "bag": bag, .. }`, with the root `player`.
pub fn player(rt: &impl Abort, alloc: Global) -> Family {
    let mut types = Vec::new(alloc);
    let item = with_field(rt, alloc, b"id", Template::Leaf(Kind::Text));
    add(rt, alloc, &mut types, b"item", item);
    add_around(rt, alloc, &mut types, b"slot", b"item");
    add_around(rt, alloc, &mut types, b"bag", b"slot");
    add_around(rt, alloc, &mut types, b"player", b"bag");
    family_of(rt, alloc, types, b"player", &["DataVersion"])
}

/// `text or list text`.
fn line(rt: &impl Abort, alloc: Global) -> Template {
    let text = boxed(rt, alloc, Template::Leaf(Kind::Text));
    Template::Sum(text, boxed(rt, alloc, texts(rt, alloc)))
}

/// A closed record that reaches itself: `note = { "line": text or list text, "mark"?: any, "more"?: note }`, the root.
pub fn note(rt: &impl Abort, alloc: Global) -> Family {
    let mut fields = one_field(rt, alloc, b"line", line(rt, alloc));
    add_field(rt, alloc, &mut fields, b"?mark", Template::Any);
    add_field(
        rt,
        alloc,
        &mut fields,
        b"?more",
        point_to(rt, alloc, b"note"),
    );
    let mut types = Vec::new(alloc);
    let note = record_of(rt, alloc, fields, Rest::Closed);
    add(rt, alloc, &mut types, b"note", note);
    family_of(rt, alloc, types, b"note", &["v"])
}
