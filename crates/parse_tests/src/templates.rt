//! Each template is read, and a record with its fields, its choice and its dots.
use crate::reading::{Around, check_in};
use std::test::Fail;

/// The template of a type.
const TEMPLATE: Around<'static> = Around {
    words: "type a = ",
    before: "Named('a', ",
    after: ")",
};

#[test]
fn each_kind(rt: HostRuntime) -> Result<(), Fail> {
    check_in(
        &rt,
        rt.alloc(),
        &TEMPLATE,
        &[
            ("byte", "Leaf(Byte)"),
            ("short", "Leaf(Short)"),
            ("int", "Leaf(Int)"),
            ("long", "Leaf(Long)"),
            ("float", "Leaf(Float)"),
            ("double", "Leaf(Double)"),
            ("text", "Leaf(Text)"),
            ("bytes", "Leaf(Bytes)"),
            ("ints", "Leaf(Ints)"),
            ("longs", "Leaf(Longs)"),
            ("null", "Leaf(Null)"),
            ("bool", "Leaf(Bool)"),
            ("whole", "Leaf(Whole)"),
        ],
    )
}

#[test]
fn each_template(rt: HostRuntime) -> Result<(), Fail> {
    check_in(
        &rt,
        rt.alloc(),
        &TEMPLATE,
        &[
            ("any", "Any"),
            ("item", "Point('item')"),
            ("(int)", "Leaf(Int)"),
            ("list int", "List(TemplateBox { template: Leaf(Int) })"),
            (
                "int or text",
                "Sum(TemplateBox { template: Leaf(Int) }, TemplateBox { template: Leaf(Text) })",
            ),
            (
                "int or text or b",
                "Sum(TemplateBox { template: Leaf(Int) }, TemplateBox { template: Sum(TemplateBox { template: Leaf(Text) }, TemplateBox { template: Point('b') }) })",
            ),
            (
                "(int or text) or b",
                "Sum(TemplateBox { template: Sum(TemplateBox { template: Leaf(Int) }, TemplateBox { template: Leaf(Text) }) }, TemplateBox { template: Point('b') })",
            ),
            (
                "list int or b",
                "Sum(TemplateBox { template: List(TemplateBox { template: Leaf(Int) }) }, TemplateBox { template: Point('b') })",
            ),
        ],
    )
}

/// A record, whose three parts the rows tell.
const RECORD: Around<'static> = Around {
    words: "type a = ",
    before: "Named('a', Rec(RecordText { fields: FieldList { list: [",
    after: " }))",
};

#[test]
fn each_record(rt: HostRuntime) -> Result<(), Fail> {
    check_in(
        &rt,
        rt.alloc(),
        &RECORD,
        &[
            ("{}", "] }, choice: None, dots: false"),
            ("{ .. }", "] }, choice: None, dots: true"),
            (
                "{ \"b\": int }",
                "FieldText { name: 'b', may: false, template: Leaf(Int) }] }, choice: None, dots: false",
            ),
            (
                "{ \"b\"?: int, \"b\": c, .. }",
                "FieldText { name: 'b', may: true, template: Leaf(Int) }, FieldText { name: 'b', may: false, template: Point('c') }] }, choice: None, dots: true",
            ),
        ],
    )
}

#[test]
fn each_choice(rt: HostRuntime) -> Result<(), Fail> {
    check_in(
        &rt,
        rt.alloc(),
        &RECORD,
        &[
            (
                "{ choice \"t\" { \"k\" {} } }",
                "] }, choice: Some(ChoiceText { tag: 't', cases: [CaseText { literal: 'k', fields: FieldList { list: [] } }], kept: false }), dots: false",
            ),
            (
                "{ choice \"t\" { \"k\" {} }, .. }",
                "] }, choice: Some(ChoiceText { tag: 't', cases: [CaseText { literal: 'k', fields: FieldList { list: [] } }], kept: false }), dots: true",
            ),
            (
                "{ \"b\": int, choice \"t\" { \"k\" { \"c\": any }, \"l\" {} } }",
                "FieldText { name: 'b', may: false, template: Leaf(Int) }] }, choice: Some(ChoiceText { tag: 't', cases: [CaseText { literal: 'k', fields: FieldList { list: [FieldText { name: 'c', may: false, template: Any }] } }, CaseText { literal: 'l', fields: FieldList { list: [] } }], kept: false }), dots: false",
            ),
            (
                "{ choice \"t\" { \"k\" {}, else kept } }",
                "] }, choice: Some(ChoiceText { tag: 't', cases: [CaseText { literal: 'k', fields: FieldList { list: [] } }], kept: true }), dots: false",
            ),
            (
                "{ choice \"t\" { \"k\" {}, \"l\" {}, else kept }, .. }",
                "] }, choice: Some(ChoiceText { tag: 't', cases: [CaseText { literal: 'k', fields: FieldList { list: [] } }, CaseText { literal: 'l', fields: FieldList { list: [] } }], kept: true }), dots: true",
            ),
        ],
    )
}
