//! Leaf functions at the bounds of their kinds.
use mig_leaf::{Const, LeafFn, Table};
use mig_tree::{Kind, Memory, Name, Text, Tree};
use std::alloc::Global;
use std::test::Fail;

/// What the function makes of the tree, or `None` where it doesn't fit.
fn applied<'a>(
    alloc: Global,
    function: &LeafFn,
    tree: Tree<'a>,
) -> Result<Option<Tree<'a>>, Memory> {
    if function.fits(tree.kind()).is_none() {
        drop(tree);
        return Ok(None);
    }
    Ok(Some(function.apply(alloc, tree)?))
}

/// A whole number as a tree, where the kind has it.
fn whole<'a>(kind: Kind, number: i64) -> Option<Tree<'a>> {
    match kind {
        Kind::Byte => Some(Tree::Byte(i8::try_from(number).ok()?)),
        Kind::Short => Some(Tree::Short(i16::try_from(number).ok()?)),
        Kind::Int => Some(Tree::Int(i32::try_from(number).ok()?)),
        Kind::Long => Some(Tree::Long(number)),
        Kind::Whole => Some(Tree::Whole(number)),
        _ => None,
    }
}

/// The kind and the number of a tree that is a whole number.
fn number_of(tree: Tree) -> Option<(Kind, i64)> {
    match tree {
        Tree::Byte(number) => Some((Kind::Byte, i64::from(number))),
        Tree::Short(number) => Some((Kind::Short, i64::from(number))),
        Tree::Int(number) => Some((Kind::Int, i64::from(number))),
        Tree::Long(number) => Some((Kind::Long, number)),
        Tree::Whole(number) => Some((Kind::Whole, number)),
        _ => None,
    }
}

/// The kind and the number that a copy of the function makes of a whole number.
fn on_number(
    alloc: Global,
    function: &LeafFn,
    kind: Kind,
    number: i64,
) -> Result<Option<(Kind, i64)>, Memory> {
    let function = function.copy(alloc)?;
    let Some(tree) = whole(kind, number) else {
        return Ok(None);
    };
    let made = applied(alloc, &function, tree)?;
    Ok(made.and_then(number_of))
}

/// The kind and the number that a copy of the function makes of a text.
fn on_text(alloc: Global, function: &LeafFn, text: &[u8]) -> Result<Option<(Kind, i64)>, Memory> {
    let function = function.copy(alloc)?;
    let made = applied(alloc, &function, Tree::Text(Text::lent(text)))?;
    Ok(made.and_then(number_of))
}

/// The bytes of the text that the function makes of the tree.
fn text_from<'a>(
    alloc: Global,
    function: &LeafFn,
    tree: Tree<'a>,
) -> Result<Option<Vec<u8>>, Memory> {
    match applied(alloc, function, tree)? {
        Some(Tree::Text(text)) => Ok(Some(Vec::from_slice(alloc, text.bytes())?)),
        _ => Ok(None),
    }
}

/// Each whole-number kind with its least and its greatest number.
const RANGES: [(Kind, i64, i64); 5] = [
    (Kind::Byte, -128, 127),
    (Kind::Short, -32_768, 32_767),
    (Kind::Int, -2_147_483_648, 2_147_483_647),
    (Kind::Long, i64::MIN, i64::MAX),
    (Kind::Whole, i64::MIN, i64::MAX),
];

#[test]
fn numbers_stay_within_their_kind(rt: HostRuntime) -> Result<(), Fail> {
    let alloc = rt.alloc();
    for (kind, least, greatest) in RANGES {
        for (function, number, want) in [
            (LeafFn::Plus(1), greatest, greatest),
            (LeafFn::Plus(-1), least, least),
            (LeafFn::Plus(i64::MAX), greatest, greatest),
            (LeafFn::Plus(i64::MIN), least, least),
            (LeafFn::Plus(-27), 100, 73),
            (LeafFn::Times(-1), least, greatest),
            (LeafFn::Times(2), least, least),
            (LeafFn::Times(i64::MAX), greatest, greatest),
            (LeafFn::Times(i64::MIN), greatest, least),
            (LeafFn::Times(-9), 14, -126),
            (LeafFn::To(kind), greatest, greatest),
            (LeafFn::To(kind), least, least),
            (LeafFn::Clamp(least, greatest), greatest, greatest),
            (LeafFn::Clamp(-3, 7), greatest, 7),
            (LeafFn::Clamp(-3, 7), least, -3),
            (LeafFn::Clamp(-3, 7), 5, 5),
        ] {
            assert_eq!(rt;
                on_number(alloc, &function, kind, number)?,
                Some((kind, want))
            );
        }
        for (number, want) in [(least, least), (greatest, greatest)] {
            assert_eq!(rt;
                on_number(alloc, &LeafFn::To(Kind::Long), kind, number)?,
                Some((Kind::Long, want))
            );
        }
    }
    for (to, number, want) in [
        (Kind::Byte, 300, 127),
        (Kind::Byte, -129, -128),
        (Kind::Short, 32_768, 32_767),
        (Kind::Whole, -5, -5),
    ] {
        assert_eq!(rt;
            on_number(alloc, &LeafFn::To(to), Kind::Int, number)?,
            Some((to, want))
        );
    }
    Ok(())
}

#[test]
fn texts_spell_numbers(rt: HostRuntime) -> Result<(), Fail> {
    let alloc = rt.alloc();
    let table: [(&[u8], i64); 17] = [
        (b"12", 12),
        (b"0", 0),
        (b"007", 5),
        (b"-0", 5),
        (b"-1", -1),
        (b"-01", 5),
        (b"-", 5),
        (b"", 5),
        (b"2147483647", 2_147_483_647),
        (b"2147483648", 5),
        (b"-2147483648", -2_147_483_648),
        (b"-2147483649", 5),
        (b"18446744073709551617", 5),
        (b"+1", 5),
        (b"1 ", 5),
        (b"1e2", 5),
        (b"1\xff", 5),
    ];
    for (text, want) in table {
        let made = on_text(alloc, &LeafFn::OfText(Const::Int(5)), text)?;
        assert_eq!(rt; made, Some((Kind::Int, want)));
    }
    let made = on_text(
        alloc,
        &LeafFn::OfText(Const::Long(5)),
        b"-9223372036854775808",
    )?;
    assert_eq!(rt; made, Some((Kind::Long, i64::MIN)));
    Ok(())
}

#[test]
fn leaves_become_texts(rt: HostRuntime) -> Result<(), Fail> {
    let alloc = rt.alloc();
    let table: [(Const, &[u8]); 7] = [
        (Const::Byte(-128), b"-128"),
        (Const::Int(0), b"0"),
        (Const::Long(i64::MIN), b"-9223372036854775808"),
        (Const::Whole(i64::MAX), b"9223372036854775807"),
        (Const::Bool(true), b"true"),
        (Const::Bool(false), b"false"),
        (Const::Text(Name::new(alloc, b"07")?), b"07"),
    ];
    for (leaf, want) in table {
        let made = text_from(alloc, &LeafFn::ToText, leaf.tree(alloc)?)?;
        assert_eq!(rt; made.as_deref(), Some(want));
    }
    Ok(())
}

#[test]
fn texts_are_changed(rt: HostRuntime) -> Result<(), Fail> {
    let alloc = rt.alloc();
    let mut pairs = Vec::new(alloc);
    for (left, right) in [("a", "1"), ("b", "2"), ("a", "3")] {
        pairs.push((
            Name::new(alloc, left.as_bytes())?,
            Name::new(alloc, right.as_bytes())?,
        ))?;
    }
    let table: [(LeafFn, &[&[u8]], &[&[u8]]); 5] = [
        (
            LeafFn::Table(Table::new(alloc, pairs)?),
            &[b"a", b"b", b"c", b""],
            &[b"1", b"2", b"c", b""],
        ),
        (
            LeafFn::Prefix(Name::new(alloc, b"x:")?),
            &[b"a", b""],
            &[b"x:a", b"x:"],
        ),
        (
            LeafFn::Strip(Name::new(alloc, b"x:")?),
            &[b"x:x:a", b"x:", b"a", b"x"],
            &[b"x:a", b"", b"a", b"x"],
        ),
        (
            LeafFn::Lower,
            &[b"@AZ[`az{", b"\xc3\x84B", b"ab"],
            &[b"@az[`az{", b"\xc3\x84b", b"ab"],
        ),
        (
            LeafFn::Const(Const::Text(Name::new(alloc, b"k")?)),
            &[b"a"],
            &[b"k"],
        ),
    ];
    for (function, given, wanted) in table {
        let function = function.copy(alloc)?;
        for (text, want) in given.iter().zip(wanted) {
            let made = text_from(alloc, &function, Tree::Text(Text::lent(text)))?;
            assert_eq!(rt; made.as_deref(), Some(*want));
        }
    }
    Ok(())
}

#[test]
fn a_prefix_makes_no_text_too_long(rt: HostRuntime) -> Result<(), Fail> {
    let alloc = rt.alloc();
    let function = LeafFn::Prefix(Name::new(alloc, b"minecraft:")?);
    for (len, want) in [(65_530, 65_530), (65_526, 65_526), (65_525, 65_535)] {
        let text = vec![in alloc; b'x'; len]?;
        let made = text_from(alloc, &function, Tree::Text(Text::own(text)))?;
        assert_eq!(rt; made.map(|bytes| bytes.len()), Some(want));
    }
    Ok(())
}

#[test]
fn functions_fit_kinds(rt: HostRuntime) -> Result<(), Fail> {
    let alloc = rt.alloc();
    for (function, kind, want) in [
        (LeafFn::Const(Const::NoInts), Kind::Null, Some(Kind::Ints)),
        (LeafFn::Const(Const::NoInts), Kind::List, None),
        (LeafFn::Const(Const::NoInts), Kind::Map, None),
        (LeafFn::Plus(1), Kind::Float, None),
        (LeafFn::Times(1), Kind::Text, None),
        (LeafFn::Clamp(0, 300), Kind::Byte, None),
        (LeafFn::Clamp(0, 300), Kind::Short, Some(Kind::Short)),
        (LeafFn::Clamp(-129, 0), Kind::Byte, None),
        (LeafFn::Clamp(1, 0), Kind::Int, None),
        (LeafFn::To(Kind::Float), Kind::Int, None),
        (LeafFn::To(Kind::Byte), Kind::Double, None),
        (LeafFn::ToText, Kind::Null, None),
        (LeafFn::ToText, Kind::Bytes, None),
        (LeafFn::OfText(Const::Int(5)), Kind::Int, None),
        (LeafFn::OfText(Const::Float(0)), Kind::Text, None),
        (
            LeafFn::Table(Table::new(alloc, Vec::new(alloc))?),
            Kind::Bytes,
            None,
        ),
        (LeafFn::Prefix(Name::new(alloc, b"")?), Kind::Int, None),
        (LeafFn::Strip(Name::new(alloc, b"")?), Kind::Bool, None),
        (LeafFn::Lower, Kind::Map, None),
    ] {
        assert_eq!(rt; function.fits(kind), want);
    }
    Ok(())
}

#[test]
fn a_constant_replaces_any_leaf(rt: HostRuntime) -> Result<(), Fail> {
    let alloc = rt.alloc();
    for leaf in [
        Const::Byte(1),
        Const::Short(1),
        Const::Int(1),
        Const::Long(1),
        Const::Whole(1),
        Const::Float(1),
        Const::Double(1),
        Const::Text(Name::new(alloc, b"a")?),
        Const::Bool(true),
        Const::Null,
        Const::NoBytes,
        Const::NoInts,
        Const::NoLongs,
    ] {
        let function = LeafFn::Const(Const::Short(7));
        let made = applied(alloc, &function, leaf.tree(alloc)?)?;
        assert_eq!(rt; made.and_then(number_of), Some((Kind::Short, 7)));
    }
    Ok(())
}
