//! A version is read, taken out and put in under one to three names.
use crate::words::{MEMORY, path};
use mig_schema::{Form, VersionPath};
use mig_tree::{Entries, Text, Tree};
use std::alloc::Global;
use std::process::Abort;

/// A map that has the tree under the name of one byte, and a null under `z`.
fn map_of<'a>(rt: &impl Abort, alloc: Global, byte: u8, tree: Tree<'a>) -> Tree<'a> {
    let name = vec![in alloc; byte].expect(rt, MEMORY);
    let other = vec![in alloc; b'z'].expect(rt, MEMORY);
    let mut entries = Entries::empty(alloc);
    entries.put(Text::own(name), tree).expect(rt, MEMORY);
    entries.put(Text::own(other), Tree::Null).expect(rt, MEMORY);
    Tree::Map(entries)
}

/// The number 7 under these names of one byte each, from the root on.
fn nested(rt: &impl Abort, alloc: Global, names: &[u8]) -> Tree<'static> {
    let mut tree = Tree::Int(7);
    for byte in names.iter().rev() {
        tree = map_of(rt, alloc, *byte, tree);
    }
    tree
}

/// The number under the path, if an `Int` or a `Whole` stands there.
fn number(version: &VersionPath, tree: &Tree) -> Option<i64> {
    match version.get(tree) {
        Some(Tree::Int(number)) => Some(i64::from(*number)),
        Some(Tree::Whole(number)) => Some(*number),
        _ => None,
    }
}

#[test]
fn a_version_is_read_where_its_path_leads(rt: HostRuntime) {
    let table: [(&[u8], &[u8], Option<i64>); 9] = [
        (b"v", b"v", Some(7)),
        (b"v", b"w", None),
        (b"v", b"", None),
        (b"dv", b"dv", Some(7)),
        (b"dv", b"d", None),
        (b"dv", b"zv", None),
        (b"dv", b"dzv", None),
        (b"dev", b"dev", Some(7)),
        (b"dev", b"de", None),
    ];
    for (names, there, want) in table {
        let version = path(&rt, rt.alloc(), names);
        let tree = nested(&rt, rt.alloc(), there);
        assert_eq!(rt; number(&version, &tree), want);
    }
}

/// What is taken out is the 7, where it is there, and then it is there no more; what else is under the other names stays.
fn check_strip(rt: &impl Abort, alloc: Global, names: &[u8], there: &[u8], others: &[u8]) {
    let version = path(rt, alloc, names);
    let other = path(rt, alloc, others);
    let mut tree = nested(rt, alloc, there);
    let before = number(&version, &tree);
    let kept = other.get(&tree).is_some();
    let taken = version.strip(&mut tree);
    assert_eq!(rt; matches!(taken, Some(Tree::Int(7))), before.is_some());
    assert_eq!(rt; number(&version, &tree), None);
    assert_eq!(rt; other.get(&tree).is_some(), kept);
}

#[test]
fn a_version_is_taken_out_alone(rt: HostRuntime) {
    let table: [(&[u8], &[u8], &[u8]); 8] = [
        (b"v", b"v", b"z"),
        (b"v", b"w", b"w"),
        (b"v", b"", b"z"),
        (b"dv", b"dv", b"dz"),
        (b"dv", b"d", b"d"),
        (b"dv", b"w", b"w"),
        (b"dev", b"dev", b"dez"),
        (b"dev", b"dew", b"dew"),
    ];
    for (names, there, others) in table {
        check_strip(&rt, rt.alloc(), names, there, others);
    }
}

/// The version is there after it was put, where the path leads to a map.
fn check_put(
    rt: &impl Abort,
    alloc: Global,
    names: &[u8],
    there: &[u8],
    form: Form,
    want: Option<i64>,
) {
    let version = path(rt, alloc, names);
    let mut tree = nested(rt, alloc, there);
    if version.has_spot(&tree) {
        version.put(alloc, &mut tree, form, 9).expect(rt, MEMORY);
    }
    assert_eq!(rt; number(&version, &tree), want);
}

#[test]
fn a_version_is_put_where_its_path_leads(rt: HostRuntime) {
    let table: [(&[u8], &[u8], Form, Option<i64>); 9] = [
        (b"v", b"v", Form::Nbt, Some(9)),
        (b"v", b"w", Form::Json, Some(9)),
        (b"v", b"", Form::Nbt, None),
        (b"dv", b"dv", Form::Json, Some(9)),
        (b"dv", b"dw", Form::Nbt, Some(9)),
        (b"dv", b"d", Form::Nbt, None),
        (b"dv", b"w", Form::Nbt, None),
        (b"dev", b"dew", Form::Nbt, Some(9)),
        (b"dev", b"dv", Form::Nbt, None),
    ];
    for (names, there, form, want) in table {
        check_put(&rt, rt.alloc(), names, there, form, want);
    }
}
