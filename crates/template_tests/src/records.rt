//! The parts of a record give it or a fault, and a template has kinds.
use crate::words::{MEMORY, name, template};
use mig_template::{Field, Form, Kind, Presence, Record, RecordFault, Rest, Template};
use std::alloc::Global;
use std::process::Abort;

/// A field of each of these names, one byte each.
fn fields(rt: &impl Abort, alloc: Global, names: &[u8]) -> Vec<Field> {
    let mut list = Vec::new(alloc);
    for byte in names {
        let field = Field {
            name: name(rt, alloc, &[*byte]),
            presence: Presence::Must,
            template: Template::Leaf(Kind::Int),
        };
        list.push(field).expect(rt, MEMORY);
    }
    list
}

/// The record with the tag `t`, these common fields, and these cases: a literal and the names of fields each.
fn record(
    rt: &impl Abort,
    alloc: Global,
    common: &[u8],
    cases: &[&[u8]],
    kept: bool,
) -> Result<Record, RecordFault> {
    let mut given = Vec::new(alloc);
    for case in cases {
        let (literal, names) = case.split_first().expect(rt, "no literal");
        let literal = name(rt, alloc, &[*literal]);
        let case = (literal, fields(rt, alloc, names));
        given.push(case).expect(rt, MEMORY);
    }
    let common = fields(rt, alloc, common);
    let tag = name(rt, alloc, b"t");
    Record::new(alloc, common, Some((tag, given, kept)), Rest::Closed)
}

/// The names of the common fields in order, of a copy of the record.
fn names_of_copy(rt: &impl Abort, alloc: Global, record: &Record) -> Vec<u8> {
    let copy = record.copy(alloc).expect(rt, MEMORY);
    let mut names = Vec::new(alloc);
    for field in copy.fields().as_slice() {
        names
            .extend_from_slice(field.name.bytes())
            .expect(rt, MEMORY);
    }
    names
}

/// The record of these parts has these names of common fields, or there is this fault.
fn check(
    rt: &impl Abort,
    alloc: Global,
    common: &[u8],
    cases: &[&[u8]],
    want: Result<&[u8], RecordFault>,
) {
    match record(rt, alloc, common, cases, false) {
        Ok(record) => {
            let names = names_of_copy(rt, alloc, &record);
            assert_eq!(rt; Ok(names.as_slice()), want);
        }
        Err(fault) => assert_eq!(rt; Err(fault), want),
    }
}

#[test]
fn parts_give_a_record_or_a_fault(rt: HostRuntime) {
    let table: [(&[u8], &[&[u8]], Result<&[u8], RecordFault>); 9] = [
        (b"cab", &[b"xpq", b"wq"], Ok(b"abc")),
        (b"", &[b"x"], Ok(b"")),
        (b"aba", &[b"x"], Err(RecordFault::TwiceNamed)),
        (b"at", &[b"x"], Err(RecordFault::TwiceNamed)),
        (b"a", &[b"xqq"], Err(RecordFault::TwiceNamed)),
        (b"a", &[b"x", b"wqa"], Err(RecordFault::TwiceNamed)),
        (b"a", &[b"xt"], Err(RecordFault::TwiceNamed)),
        (b"a", &[b"x", b"w", b"x"], Err(RecordFault::TwiceNamed)),
        (b"a", &[], Err(RecordFault::NoCase)),
    ];
    for (common, cases, want) in table {
        check(&rt, rt.alloc(), common, cases, want);
    }
}

/// Two records that differ, if at all, in what they do with unknown tags are equal where they don't.
fn check_kept(rt: &impl Abort, alloc: Global, one: bool, other: bool) {
    let first = record(rt, alloc, b"a", &[b"xp"], one).expect(rt, "no record");
    let second = record(rt, alloc, b"a", &[b"xp"], other).expect(rt, "no record");
    assert_eq!(rt; first.same(&second), one == other);
    let choice = first.choice().expect(rt, "no choice");
    assert_eq!(rt; choice.kept(), one);
}

#[test]
fn unknown_tags_are_kept_or_not(rt: HostRuntime) {
    for (one, other) in [(true, true), (true, false), (false, true), (false, false)] {
        check_kept(&rt, rt.alloc(), one, other);
    }
}

/// How many of the fields of these names have to be there, where those of the first names may be absent.
fn musts(rt: &impl Abort, alloc: Global, may: &[u8], must: &[u8]) -> usize {
    let mut list = fields(rt, alloc, may);
    for field in &mut list {
        field.presence = Presence::May;
    }
    let mut others = fields(rt, alloc, must);
    list.append(&mut others).expect(rt, MEMORY);
    let record = Record::new(alloc, list, None, Rest::Open).expect(rt, "no record");
    record.fields().musts()
}

#[test]
fn fields_that_have_to_be_there_are_counted(rt: HostRuntime) {
    let table: [(&[u8], &[u8], usize); 4] = [
        (b"", b"", 0),
        (b"ab", b"", 0),
        (b"b", b"ca", 2),
        (b"", b"abc", 3),
    ];
    for (may, must, want) in table {
        assert_eq!(rt; musts(&rt, rt.alloc(), may, must), want);
    }
}

/// Whether a copy of the template of these words has the kind.
fn has_kind(rt: &impl Abort, alloc: Global, words: &str, form: Form, kind: Kind) -> bool {
    let template = template(rt, alloc, words);
    let copy = template.copy(alloc).expect(rt, MEMORY);
    copy.kinds(form).has(kind)
}

#[test]
fn templates_have_kinds(rt: HostRuntime) {
    let sum = "text any list or";
    for (words, kind, form, want) in [
        (sum, Kind::Text, Form::Nbt, true),
        (sum, Kind::List, Form::Json, true),
        (sum, Kind::Map, Form::Nbt, false),
        ("@item", Kind::Map, Form::Nbt, false),
        ("any", Kind::Byte, Form::Nbt, true),
        ("any", Kind::Byte, Form::Json, false),
        ("any", Kind::Null, Form::Nbt, false),
        ("any", Kind::Null, Form::Json, true),
    ] {
        assert_eq!(rt; has_kind(&rt, rt.alloc(), words, form, kind), want);
    }
}
