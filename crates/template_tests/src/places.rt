//! The finder finds the places of a name in order.
use crate::words::{MEMORY, name, template};
use mig_finder::{FindFault, Found, find};
use mig_optic::{AnyOptic, Side};
use std::alloc::Global;
use std::process::Abort;

/// Adds the bytes behind the mark.
fn add(rt: &impl Abort, mark: u8, bytes: &[u8], text: &mut Vec<u8>) {
    text.push(mark).expect(rt, MEMORY);
    text.extend_from_slice(bytes).expect(rt, MEMORY);
}

/// Writes the optic: `.a` and `?a` for a field, `=k` for a case, `*` for the items, `<` and `>` for the sides.
fn write(rt: &impl Abort, optic: &AnyOptic, text: &mut Vec<u8>) {
    match optic {
        AnyOptic::FieldAt(optic) => add(rt, b'.', optic.name.bytes(), text),
        AnyOptic::MayField(optic) => add(rt, b'?', optic.name.bytes(), text),
        AnyOptic::CaseOf(optic) => add(rt, b'=', optic.literal.bytes(), text),
        AnyOptic::Each => add(rt, b'*', b"", text),
        AnyOptic::Side(Side::Left) => add(rt, b'<', b"", text),
        AnyOptic::Side(Side::Right) => add(rt, b'>', b"", text),
        AnyOptic::Here | AnyOptic::Cross => add(rt, b'!', b"", text),
        AnyOptic::Then(first, second) => {
            write(rt, first.get(), text);
            write(rt, second.get(), text);
        }
    }
}

/// The optics to the places, each with a space before it.
fn written(rt: &impl Abort, alloc: Global, places: &[Found]) -> Vec<u8> {
    let mut text = Vec::new(alloc);
    for place in places {
        add(rt, b' ', b"", &mut text);
        write(rt, &place.optic, &mut text);
    }
    text
}

/// The places of the name in the template of these words.
fn found(
    rt: &impl Abort,
    alloc: Global,
    words: &str,
    bytes: &[u8],
) -> Result<Vec<Found>, FindFault> {
    let template = template(rt, alloc, words);
    let name = name(rt, alloc, bytes);
    find(alloc, &template, &name)
}

/// The places of the name are these.
fn check(rt: &impl Abort, alloc: Global, words: &str, name: &[u8], want: Result<&[u8], FindFault>) {
    match found(rt, alloc, words, name) {
        Ok(places) => {
            let text = written(rt, alloc, &places);
            assert_eq!(rt; Ok(text.as_slice()), want);
        }
        Err(fault) => assert_eq!(rt; Err(fault), want),
    }
}

#[test]
fn places_are_found_in_order(rt: HostRuntime) {
    let table: [(&str, &[u8], &[u8]); 5] = [
        ("whole .n .x whole .n +ax", b"x", b" .a.x .x"),
        ("any .x any ?x list +xb", b"x", b" .b*?x .x"),
        ("any .x whole ?x or", b"x", b" <.x >?x"),
        ("any =tkx", b"x", b" =k.x"),
        ("any .x =tkb list", b"x", b" *=k.b.x"),
    ];
    for (words, name, want) in table {
        check(&rt, rt.alloc(), words, name, Ok(want));
    }
}

#[test]
fn no_place_is_told(rt: HostRuntime) {
    for words in ["whole .n .x whole .n +ax", "any"] {
        check(&rt, rt.alloc(), words, b"z", Err(FindFault::NoneThere));
    }
}
