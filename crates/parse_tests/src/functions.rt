//! Each leaf function, each constant, each fill and each field function is read with its arguments in order.
use crate::reading::{Around, check_in};
use std::test::Fail;

/// A field function in a fix.
const FUNCTION: Around<'static> = Around {
    words: "fix 1 ",
    before: "Fix(1, Rule(Fn(None, ",
    after: ")))",
};

/// What is done to a field's leaf.
const LEAF: Around<'static> = Around {
    words: "fix 1 map \"x\" ",
    before: "Fix(1, Rule(Fn(None, Map('x', ",
    after: "))))",
};

/// What a new field is filled with.
const FILL: Around<'static> = Around {
    words: "fix 1 add \"x\" = ",
    before: "Fix(1, Rule(Fn(None, Add('x', ",
    after: "))))",
};

#[test]
fn each_leaf_function(rt: HostRuntime) -> Result<(), Fail> {
    check_in(
        &rt,
        rt.alloc(),
        &LEAF,
        &[
            ("const int 3", "Const(Number(Int, 3))"),
            ("plus 3", "Plus(3)"),
            ("times -3", "Times(-3)"),
            ("clamp 1 2", "Clamp(1, 2)"),
            ("to long", "To(Long)"),
            ("totext", "ToText"),
            ("oftext whole 7", "OfText(Number(Whole, 7))"),
            ("table(\"a\" to \"b\")", "Table([('a', 'b')])"),
            (
                "table(\"a\" to \"b\", \"c\" to \"d\")",
                "Table([('a', 'b'), ('c', 'd')])",
            ),
            ("prefix \"minecraft:\"", "Prefix('minecraft:')"),
            ("strip \"\"", "Strip('')"),
            ("lower", "Lower"),
        ],
    )
}

#[test]
fn each_fill(rt: HostRuntime) -> Result<(), Fail> {
    check_in(
        &rt,
        rt.alloc(),
        &FILL,
        &[
            ("byte 1", "Const(Number(Byte, 1))"),
            ("short -32769", "Const(Number(Short, -32769))"),
            ("int 20", "Const(Number(Int, 20))"),
            ("long 0", "Const(Number(Long, 0))"),
            (
                "whole 99999999999999999999",
                "Const(Number(Whole, 99999999999999999999))",
            ),
            ("float bits 1", "Const(Bits(Float, 1))"),
            ("double bits 2", "Const(Bits(Double, 2))"),
            ("text \"a b\"", "Const(Text('a b'))"),
            ("bool true", "Const(Bool(true))"),
            ("bool false", "Const(Bool(false))"),
            ("null", "Const(Null)"),
            ("bytes empty", "Const(Empty(Bytes))"),
            ("ints empty", "Const(Empty(Ints))"),
            ("longs empty", "Const(Empty(Longs))"),
            ("list item", "EmptyList(Point('item'))"),
            (
                "list list any",
                "EmptyList(List(TemplateBox { template: Any }))",
            ),
        ],
    )
}

#[test]
fn each_field_function(rt: HostRuntime) -> Result<(), Fail> {
    check_in(
        &rt,
        rt.alloc(),
        &FUNCTION,
        &[
            ("rename \"a\" \"b\"", "Rename('a', 'b')"),
            ("drop \"a\"", "Drop('a')"),
            ("add \"a\" = null", "Add('a', Const(Null))"),
            ("learn \"a\" text", "Learn('a', Some(Text))"),
            ("learn \"a\" any", "Learn('a', None)"),
            ("forget \"a\"", "Forget('a')"),
            (
                "default \"a\" = list int",
                "Default('a', EmptyList(Leaf(Int)))",
            ),
            ("maybe \"a\"", "MayBe('a')"),
            ("map \"a\" lower", "Map('a', Lower)"),
            ("nest(\"a\") \"b\"", "Nest(['a'], 'b')"),
            (
                "nest(\"a\", \"b\", \"c\") \"a\"",
                "Nest(['a', 'b', 'c'], 'a')",
            ),
            ("unnest \"a\"", "Unnest('a')"),
            ("wrap \"a\"", "Wrap('a')"),
            ("unify \"a\" totext or lower", "Unify('a', ToText, Lower)"),
            ("retag \"a\" \"b\"", "Retag('a', 'b')"),
        ],
    )
}

#[test]
fn an_added_case(rt: HostRuntime) -> Result<(), Fail> {
    check_in(
        &rt,
        rt.alloc(),
        &FUNCTION,
        &[
            ("addcase \"a\" {}", "AddCase('a', FieldList { list: [] })"),
            (
                "addcase \"a\" { \"b\": int, \"c\"?: any }",
                "AddCase('a', FieldList { list: [FieldText { name: 'b', may: false, template: Leaf(Int) }, FieldText { name: 'c', may: true, template: Any }] })",
            ),
        ],
    )
}
