//! The faults of a family are told, and what is asked of a family is answered.
use crate::words::{MEMORY, name, path, template};
use mig_schema::{Family, Form, Name, SchemaFault, Template};
use std::alloc::Global;
use std::process::Abort;

/// The type whose name is the first word.
fn named(rt: &impl Abort, alloc: Global, text: &str) -> (Name, Template) {
    let (bytes, words) = text.split_once(' ').expect(rt, "no template");
    let name = name(rt, alloc, bytes.as_bytes());
    (name, template(rt, alloc, words))
}

/// The family of these types, with the version under these names of one byte each and the root `p`.
fn made(
    rt: &impl Abort,
    alloc: Global,
    form: Form,
    version: &[u8],
    types: Vec<(Name, Template)>,
) -> Result<Family, SchemaFault> {
    let version = path(rt, alloc, version);
    let root = name(rt, alloc, b"p");
    Family::new(alloc, form, version, types, root)
}

/// The same of types that are written as words.
fn family_at(
    rt: &impl Abort,
    alloc: Global,
    form: Form,
    version: &[u8],
    texts: &[&str],
) -> Result<Family, SchemaFault> {
    let mut types = Vec::new(alloc);
    for text in texts {
        types.push(named(rt, alloc, text)).expect(rt, MEMORY);
    }
    made(rt, alloc, form, version, types)
}

/// The family of these types, with the version name `v`.
fn family(
    rt: &impl Abort,
    alloc: Global,
    form: Form,
    texts: &[&str],
) -> Result<Family, SchemaFault> {
    family_at(rt, alloc, form, b"v", texts)
}

/// What is wrong with the family of these types, if anything is.
fn fault(rt: &impl Abort, alloc: Global, form: Form, texts: &[&str]) -> Option<SchemaFault> {
    family(rt, alloc, form, texts).err()
}

#[test]
fn each_fault_is_told(rt: HostRuntime) {
    let table: [(Form, &[&str], Option<SchemaFault>); 19] = [
        (Form::Nbt, &["p @p list .a"], None),
        (Form::Nbt, &["p int text or =txa"], None),
        (Form::Json, &["p whole text or list .a"], None),
        (Form::Json, &["p any list .a"], None),
        (
            Form::Nbt,
            &["p int .a", "p int .b"],
            Some(SchemaFault::TwiceNamed),
        ),
        (Form::Nbt, &["p whole .a"], Some(SchemaFault::WrongKind)),
        (Form::Json, &["p int list .a"], Some(SchemaFault::WrongKind)),
        (Form::Nbt, &["p @q .a"], Some(SchemaFault::UnknownName)),
        (Form::Nbt, &["q int .a"], Some(SchemaFault::UnknownName)),
        (Form::Nbt, &["p @p"], Some(SchemaFault::Unguarded)),
        (Form::Nbt, &["p int @p or .a"], Some(SchemaFault::Unguarded)),
        (
            Form::Nbt,
            &["p int int or .a"],
            Some(SchemaFault::SumOverlap),
        ),
        (
            Form::Nbt,
            &["p int text or list .a"],
            Some(SchemaFault::MixedList),
        ),
        (Form::Nbt, &["p any list .a"], Some(SchemaFault::MixedList)),
        (
            Form::Nbt,
            &["p @q list .a", "q int text or"],
            Some(SchemaFault::MixedList),
        ),
        (Form::Nbt, &["p int"], Some(SchemaFault::RootNotRecord)),
        (Form::Nbt, &["p int .v"], Some(SchemaFault::VersionNameUsed)),
        (
            Form::Nbt,
            &["p int =vxa"],
            Some(SchemaFault::VersionNameUsed),
        ),
        (
            Form::Nbt,
            &["p int =txv"],
            Some(SchemaFault::VersionNameUsed),
        ),
    ];
    for (form, types, want) in table {
        assert_eq!(rt; fault(&rt, rt.alloc(), form, types), want);
    }
}

#[test]
fn each_fault_of_a_version_path_is_told(rt: HostRuntime) {
    let wrong = Some(SchemaFault::VersionPath);
    let used = Some(SchemaFault::VersionNameUsed);
    let none = Some(SchemaFault::RootNotRecord);
    let table: [(&[u8], &[&str], Option<SchemaFault>); 18] = [
        (b"v", &["p int .a"], None),
        (b"v", &["p int .v"], used),
        (b"dv", &["p int .a .d"], None),
        (b"dv", &["p int .v .d"], used),
        (b"dv", &["p int =vxa .d"], used),
        (b"dv", &["p int =txv .d"], used),
        (b"dv", &["p int .a ?d"], wrong),
        (b"dv", &["p int .a .e"], wrong),
        (b"dv", &["p int .a =txd"], wrong),
        (b"dv", &["p int .d"], wrong),
        (b"dv", &["p @d .d", "d int .a"], None),
        (b"dv", &["p @d .d", "d int .v"], used),
        (b"dv", &["p @d .d", "d int"], wrong),
        (b"dv", &["p int"], none),
        (b"dev", &["p int .a .e .d"], None),
        (b"dev", &["p @d .d", "d @e .e", "e int .v"], used),
        (b"dev", &["p int .a ?e .d"], wrong),
        (b"dev", &["p int .e .d"], wrong),
    ];
    for (version, types, want) in table {
        let family = family_at(&rt, rt.alloc(), Form::Nbt, version, types);
        assert_eq!(rt; family.err(), want);
    }
}

#[test]
fn the_first_of_two_faults_is_told(rt: HostRuntime) {
    let table: [(&[&str], SchemaFault); 6] = [
        (&["p @p", "p @p"], SchemaFault::TwiceNamed),
        (&["q @r .a", "p whole .a"], SchemaFault::WrongKind),
        (&["p @q"], SchemaFault::UnknownName),
        (&["p int int or .a", "q @p"], SchemaFault::Unguarded),
        (&["p int int or text or list .a"], SchemaFault::SumOverlap),
        (&["p int text or list"], SchemaFault::MixedList),
    ];
    for (types, want) in table {
        assert_eq!(rt; fault(&rt, rt.alloc(), Form::Nbt, types), Some(want));
    }
}

#[test]
fn depth_is_limited(rt: HostRuntime) {
    for (lists, want) in [(62, None), (63, Some(SchemaFault::TooDeep))] {
        let mut text = String::from_str(rt.alloc(), "p int").expect(&rt, MEMORY);
        for _ in 0..lists {
            text.push_str(" list").expect(&rt, MEMORY);
        }
        text.push_str(" .a").expect(&rt, MEMORY);
        assert_eq!(rt; fault(&rt, rt.alloc(), Form::Nbt, &[text.as_str()]), want);
    }
}

/// Types of which the first is a record `p`, each with a name of its own up to 513 of them.
fn numbered(rt: &impl Abort, alloc: Global, count: u16) -> Vec<(Name, Template)> {
    let mut types = Vec::new(alloc);
    types.push(named(rt, alloc, "p any .a")).expect(rt, MEMORY);
    for number in 1..count {
        let name = name(rt, alloc, &u16::to_be_bytes(number.min(512)));
        types.push((name, Template::Any)).expect(rt, MEMORY);
    }
    types
}

#[test]
fn the_number_of_types_is_limited(rt: HostRuntime) {
    for (count, want) in [
        (512, None),
        (513, Some(SchemaFault::TooMany)),
        (514, Some(SchemaFault::TwiceNamed)),
    ] {
        let types = numbered(&rt, rt.alloc(), count);
        assert_eq!(rt; made(&rt, rt.alloc(), Form::Json, b"v", types).err(), want);
    }
}

/// Whether the name is that of the type at one of the places.
fn is_at_one(family: &Family, places: &[usize], name: &Name) -> bool {
    for place in places {
        match family.name_at(*place) {
            Some(other) if other.bytes() == name.bytes() => return true,
            _ => {}
        }
    }
    false
}

/// Both names are of the family, and whether the first reaches the second is as wanted, asked in all three ways.
fn check_reach(
    rt: &impl Abort,
    alloc: Global,
    family: &Family,
    from: &[u8],
    to: &[u8],
    want: bool,
) {
    let from = name(rt, alloc, from);
    let to = name(rt, alloc, to);
    assert!(rt; family.is_named(&to));
    let reached = family.reaches(alloc, &from, &to).expect(rt, MEMORY);
    assert_eq!(rt; reached, want);
    let places = family.reached(alloc, &from).expect(rt, MEMORY);
    assert_eq!(rt; is_at_one(family, places.as_slice(), &to), want);
    let mut names = Vec::new(alloc);
    names.push(to).expect(rt, MEMORY);
    let places = family.reaching(alloc, &names).expect(rt, MEMORY);
    assert_eq!(rt; is_at_one(family, places.as_slice(), &from), want);
}

#[test]
fn names_reach_what_their_points_reach(rt: HostRuntime) {
    let table: [(&[u8], &[u8], bool); 8] = [
        (b"bag", b"item", true),
        (b"p", b"item", true),
        (b"p", b"bag", true),
        (b"item", b"item", true),
        (b"slot", b"slot", true),
        (b"item", b"bag", false),
        (b"slot", b"p", false),
        (b"other", b"item", false),
    ];
    for item in ["item text .id", "item @item list .items"] {
        let types = [
            "other text .id",
            item,
            "slot @item .item",
            "bag @slot .slot",
            "p @bag =txa",
        ];
        let family = family(&rt, rt.alloc(), Form::Nbt, &types).expect(&rt, "no family");
        for (from, to, want) in table {
            check_reach(&rt, rt.alloc(), &family, from, to, want);
        }
    }
}

#[test]
fn the_version_path_counts(rt: HostRuntime) {
    let alloc = rt.alloc();
    let types = ["p int .a .e .d"];
    let first = family_at(&rt, alloc, Form::Nbt, b"dv", &types).expect(&rt, "no family");
    let table: [(&[u8], bool); 4] = [
        (b"dv", true),
        (b"v", false),
        (b"dw", false),
        (b"dev", false),
    ];
    for (version, want) in table {
        let other = family_at(&rt, alloc, Form::Nbt, version, &types).expect(&rt, "no family");
        assert_eq!(rt; first.same(&other), want);
    }
}

/// Whether the family has just these names of one byte each, in this order.
fn has_names(family: &Family, names: &[u8]) -> bool {
    for (place, byte) in names.iter().enumerate() {
        match family.name_at(place) {
            Some(name) if name.bytes() == [*byte].as_slice() => {}
            _ => return false,
        }
    }
    family.name_at(names.len()).is_none()
}

/// A copy of the family is the same and has just these names.
fn check_copy(rt: &impl Abort, alloc: Global, family: &Family, names: &[u8]) {
    let copy = family.copy(alloc).expect(rt, MEMORY);
    assert!(rt; copy.same(family));
    assert!(rt; has_names(&copy, names));
}

#[test]
fn the_order_of_types_does_not_count(rt: HostRuntime) {
    let alloc = rt.alloc();
    let types = ["q int", "p @q list .a"];
    let first = family(&rt, alloc, Form::Nbt, &types).expect(&rt, "no family");
    let table: [(&[&str], &[u8], bool); 4] = [
        (&["q int", "p @q list .a"], b"qp", true),
        (&["p @q list .a", "q int"], b"pq", true),
        (&["q text", "p @q list .a"], b"qp", false),
        (&["q int", "p @q list .a", "r int"], b"qpr", false),
    ];
    for (types, names, want) in table {
        let other = family(&rt, alloc, Form::Nbt, types).expect(&rt, "no family");
        assert_eq!(rt; first.same(&other), want);
        assert_eq!(rt; other.same(&first), want);
        check_copy(&rt, alloc, &other, names);
    }
}
