//! Each declaration is read, also whole ones of chains.
use crate::reading::check;
use std::test::Fail;

#[test]
fn each_declaration(rt: HostRuntime) -> Result<(), Fail> {
    check(
        &rt,
        rt.alloc(),
        &[
            ("form nbt", "Form(Nbt)"),
            ("form json", "Form(Json)"),
            ("version \"DataVersion\"", "Version(['DataVersion'], None)"),
            ("version \"v\" missing 100", "Version(['v'], Some(100))"),
            ("version \"a\" \"b\"", "Version(['a', 'b'], None)"),
            ("version\"a\"\"b\"\"c\"", "Version(['a', 'b', 'c'], None)"),
            (
                "version \"a\" \"b\" \"a\" missing 0",
                "Version(['a', 'b', 'a'], Some(0))",
            ),
            ("schema 100", "Schema(100, false)"),
            ("schema 101 follows", "Schema(101, true)"),
            ("type a = int", "Named('a', Leaf(Int))"),
            ("root player", "Root('player')"),
            ("fix 101 nop", "Fix(101, Rule(Nop))"),
            (
                "fix 101 newtype a = int",
                "Fix(101, NewType('a', Leaf(Int)))",
            ),
            ("fix 101 droptype a", "Fix(101, DropType('a'))"),
            ("fix 101 deep each : lower", "Fix(101, Deep([Each], Lower))"),
            (" \r\nfix\t101nop ", "Fix(101, Rule(Nop))"),
        ],
    )
}

#[test]
fn fixes_of_chains(rt: HostRuntime) -> Result<(), Fail> {
    check(
        &rt,
        rt.alloc(),
        &[
            (
                "\nfix 101 seq(rename \"name\" \"Name\", add \"Health\" = int 20)",
                "Fix(101, Rule(Seq(RuleList { list: [Fn(None, Rename('name', 'Name')), Fn(None, Add('Health', Const(Number(Int, 20))))] })))",
            ),
            (
                "\nfix 2 on block seq(in \"sign\" rename \"line\" \"text\", retag \"chest\" \"box\")",
                "Fix(2, Rule(On('block', RuleBox { rule: Seq(RuleList { list: [Fn(Some('sign'), Rename('line', 'text')), Fn(None, Retag('chest', 'box'))] }) })))",
            ),
            (
                "fix 101 deep \"hand\" \"bag\" each \"id\" : prefix \"x:\"",
                "Fix(101, Deep([Named('hand'), Named('bag'), Each, Named('id')], Prefix('x:')))",
            ),
        ],
    )
}

#[test]
fn types_of_chains(rt: HostRuntime) -> Result<(), Fail> {
    check(
        &rt,
        rt.alloc(),
        &[
            (
                "\ntype item = { \"id\": text, \"bag\"?: list item, .. }",
                "Named('item', Rec(RecordText { fields: FieldList { list: [FieldText { name: 'id', may: false, template: Leaf(Text) }, FieldText { name: 'bag', may: true, template: List(TemplateBox { template: Point('item') }) }] }, choice: None, dots: true }))",
            ),
            (
                "\ntype block = { \"pos\": whole, choice \"id\" { \"chest\" { \"items\": list text },\n \"sign\" { \"line\": text } }, .. }",
                "Named('block', Rec(RecordText { fields: FieldList { list: [FieldText { name: 'pos', may: false, template: Leaf(Whole) }] }, choice: Some(ChoiceText { tag: 'id', cases: [CaseText { literal: 'chest', fields: FieldList { list: [FieldText { name: 'items', may: false, template: List(TemplateBox { template: Leaf(Text) }) }] } }, CaseText { literal: 'sign', fields: FieldList { list: [FieldText { name: 'line', may: false, template: Leaf(Text) }] } }], kept: false }), dots: true }))",
            ),
        ],
    )
}
