//! Templates by words. Want of memory and a word that isn't known end the test at once, so that no template is let go on the way.
use mig_schema::VersionPath;
use mig_template::{Field, Kind, Name, Presence, Record, Rest, Template, TemplateBox};
use std::alloc::Global;
use std::process::Abort;

/// What a test says where memory is wanting.
pub const MEMORY: &str = "out of memory";

pub fn name(rt: &impl Abort, alloc: Global, bytes: &[u8]) -> Name {
    Name::new(alloc, bytes).expect(rt, MEMORY)
}

/// The path of these names, of one byte each.
pub fn path(rt: &impl Abort, alloc: Global, bytes: &[u8]) -> VersionPath {
    let mut names = Vec::new(alloc);
    for byte in bytes {
        names.push(name(rt, alloc, &[*byte])).expect(rt, MEMORY);
    }
    VersionPath::new(names).expect(rt, "no path")
}

/// The list of one field of the template.
fn field(
    rt: &impl Abort,
    alloc: Global,
    bytes: &[u8],
    presence: Presence,
    template: Template,
) -> Vec<Field> {
    let name = name(rt, alloc, bytes);
    let field = Field {
        name,
        presence,
        template,
    };
    vec![in alloc; field].expect(rt, MEMORY)
}

/// A record with these fields.
fn with_fields(rt: &impl Abort, alloc: Global, fields: Vec<Field>) -> Template {
    let record = Record::new(alloc, fields, None, Rest::Closed);
    Template::Rec(record.expect(rt, "no record"))
}

/// A record with the tag, and with these fields where the tag is the literal.
fn with_case(rt: &impl Abort, alloc: Global, tag: u8, literal: u8, fields: Vec<Field>) -> Template {
    let literal = name(rt, alloc, &[literal]);
    let cases = vec![in alloc; (literal, fields)].expect(rt, MEMORY);
    let choice = Some((name(rt, alloc, &[tag]), cases, false));
    let record = Record::new(alloc, Vec::new(alloc), choice, Rest::Closed);
    Template::Rec(record.expect(rt, "no record"))
}

/// The template on the heap.
fn boxed(rt: &impl Abort, alloc: Global, template: Template) -> TemplateBox {
    TemplateBox::new(alloc, template).expect(rt, MEMORY)
}

/// The last template of those that are made.
fn last(rt: &impl Abort, made: &mut Vec<Template>) -> Template {
    made.pop().expect(rt, "no template")
}

/// A sum of the last two of those that are made.
fn sum(rt: &impl Abort, alloc: Global, made: &mut Vec<Template>) -> Template {
    let right = boxed(rt, alloc, last(rt, made));
    let left = boxed(rt, alloc, last(rt, made));
    Template::Sum(left, right)
}

/// A record with two fields, of the last two templates of those that are made.
fn with_two(
    rt: &impl Abort,
    alloc: Global,
    one: u8,
    other: u8,
    made: &mut Vec<Template>,
) -> Template {
    let mut second = field(rt, alloc, &[other], Presence::Must, last(rt, made));
    let mut fields = field(rt, alloc, &[one], Presence::Must, last(rt, made));
    fields.append(&mut second).expect(rt, MEMORY);
    with_fields(rt, alloc, fields)
}

/// A record with one field, of the last template of those that are made.
fn with_one(
    rt: &impl Abort,
    alloc: Global,
    name: &[u8],
    presence: Presence,
    made: &mut Vec<Template>,
) -> Template {
    with_fields(rt, alloc, field(rt, alloc, name, presence, last(rt, made)))
}

/// What the word builds from the last of the templates before it. The kinds, `any` and `@q` for a point to q take none. `list`, `.a` for a record with
/// the field a, `?a` where that may be absent, and `=tka` for a record with the tag t and a case k with the field a take one. `+ab` for a record with
/// the fields a and b, and `or` take two.
fn built(rt: &impl Abort, alloc: Global, word: &[u8], made: &mut Vec<Template>) -> Template {
    match word {
        b"int" => Template::Leaf(Kind::Int),
        b"text" => Template::Leaf(Kind::Text),
        b"whole" => Template::Leaf(Kind::Whole),
        b"any" => Template::Any,
        b"list" => Template::List(boxed(rt, alloc, last(rt, made))),
        b"or" => sum(rt, alloc, made),
        [b'@', bytes @ ..] => Template::Point(name(rt, alloc, bytes)),
        [b'.', name @ ..] => with_one(rt, alloc, name, Presence::Must, made),
        [b'?', name @ ..] => with_one(rt, alloc, name, Presence::May, made),
        [b'=', tag, literal, name @ ..] => {
            let fields = field(rt, alloc, name, Presence::Must, last(rt, made));
            with_case(rt, alloc, *tag, *literal, fields)
        }
        [b'+', one, other] => with_two(rt, alloc, *one, *other, made),
        _ => panic!(rt; "no such word"),
    }
}

/// The template that the words build.
pub fn template(rt: &impl Abort, alloc: Global, words: &str) -> Template {
    let mut made = Vec::new(alloc);
    for word in words.split(' ') {
        let next = built(rt, alloc, word.as_bytes(), &mut made);
        made.push(next).expect(rt, MEMORY);
    }
    last(rt, &mut made)
}
