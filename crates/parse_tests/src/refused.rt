//! What is no declaration is refused.
use crate::reading::check_refused;
use std::test::Fail;

#[test]
fn wrong_declarations(rt: HostRuntime) -> Result<(), Fail> {
    check_refused(
        &rt,
        rt.alloc(),
        "",
        &[
            "",
            " ",
            "nop",
            "form",
            "form text",
            "form nbt nbt",
            "form nbt json",
            "version",
            "version v",
            "version missing 1",
            "version \"a\" \"b\" \"c\" \"d\"",
            "version \"a\", \"b\"",
            "version \"a\" missing 1 \"b\"",
            "version \"v\" missing",
            "version \"v\" 100",
            "schema",
            "schema 1 follows follows",
            "schema follows",
            "type int = int",
            "type \"a\" = int",
            "type a int",
            "type a =",
            "root \"a\"",
            "root nop",
            "root else",
            "root kept",
            "root a b",
            "fix 1",
            "fix nop",
        ],
    )
}

#[test]
fn wrong_functions(rt: HostRuntime) -> Result<(), Fail> {
    check_refused(
        &rt,
        rt.alloc(),
        "fix 1 ",
        &[
            "rename \"a\"",
            "rename a \"b\"",
            "rename \"a\", \"b\"",
            "drop \"a\" \"b\"",
            "add \"a\" int 1",
            "add \"a\" = int",
            "add \"a\" = float 1",
            "add \"a\" = int bits 1",
            "add \"a\" = bool",
            "add \"a\" = text a",
            "add \"a\" = bytes",
            "add \"a\" = list int or text",
            "learn \"a\" item",
            "learn \"a\" list int",
            "default \"a\"",
            "nest() \"a\"",
            "nest(\"a\" \"b\") \"c\"",
            "nest(\"a\",) \"b\"",
            "nest \"a\" \"b\"",
            "unify \"a\" lower",
            "unify \"a\" lower, lower",
            "addcase \"a\"",
            "addcase \"a\" { .. }",
            "addcase \"a\" { \"b\": int, }",
            "addcase \"a\" { choice \"t\" { \"k\" {} } }",
        ],
    )
}

#[test]
fn wrong_leaf_functions(rt: HostRuntime) -> Result<(), Fail> {
    check_refused(
        &rt,
        rt.alloc(),
        "fix 1 map \"a\" ",
        &[
            "",
            "nop",
            "const",
            "const 1",
            "plus",
            "plus \"1\"",
            "plus 123456789012345678901",
            "clamp 1",
            "clamp 1, 2",
            "to any",
            "to item",
            "oftext text",
            "table()",
            "table(\"a\")",
            "table(\"a\" to \"b\",)",
            "table(\"a\" to \"b\" \"c\" to \"d\")",
            "table \"a\" to \"b\"",
            "prefix a",
            "lower lower",
        ],
    )
}

#[test]
fn wrong_rules(rt: HostRuntime) -> Result<(), Fail> {
    check_refused(
        &rt,
        rt.alloc(),
        "fix 1 ",
        &[
            "all",
            "on \"a\" nop",
            "on a",
            "at a nop",
            "seq()",
            "seq(nop nop)",
            "seq(nop,)",
            "seq(nop",
            "orelse(nop)",
            "orelse(nop, nop, nop)",
            "orelse(nop nop)",
            "in \"a\" nop",
            "in \"a\" in \"b\" drop \"c\"",
            "in drop \"c\"",
            "(nop)",
            "all newtype a = int",
            "newtype a int",
            "newtype \"a\" = int",
            "droptype \"a\"",
            "deep : lower",
            "deep \"a\" lower",
            "deep case : lower",
            "deep \"a\", \"b\" : lower",
            "deep \"a\" : nop",
            "deep \"a\" :",
        ],
    )
}

#[test]
fn wrong_templates(rt: HostRuntime) -> Result<(), Fail> {
    check_refused(
        &rt,
        rt.alloc(),
        "type a = ",
        &[
            "int or",
            "or int",
            "int text",
            "list",
            "()",
            "(int",
            "map int",
            "else",
            "kept",
            "{ \"b\" int }",
            "{ b: int }",
            "{ \"b\": int \"c\": int }",
            "{ \"b\": int, }",
            "{ \"b\": int .. }",
            "{ .., }",
            "{ .., \"b\": int }",
            "{ \"b\"??: int }",
            "{ \"b\": int",
        ],
    )
}

#[test]
fn wrong_choices(rt: HostRuntime) -> Result<(), Fail> {
    check_refused(
        &rt,
        rt.alloc(),
        "type a = { ",
        &[
            "choice \"t\" {} }",
            "choice { \"k\" {} } }",
            "choice t { \"k\" {} } }",
            "choice \"t\" { k {} } }",
            "choice \"t\" { \"k\" } }",
            "choice \"t\" { \"k\" { .. } } }",
            "choice \"t\" { \"k\" {} \"l\" {} } }",
            "choice \"t\" { \"k\" {}, } }",
            "choice \"t\" { \"k\" {} }, }",
            "choice \"t\" { \"k\" {} }, \"b\": int }",
            "choice \"t\" { \"k\" {} } .. }",
            "choice \"t\" { \"k\" {} }, choice \"u\" { \"k\" {} } }",
            "\"b\": int choice \"t\" { \"k\" {} } }",
            ".., choice \"t\" { \"k\" {} } }",
        ],
    )
}

#[test]
fn wrong_kept_choices(rt: HostRuntime) -> Result<(), Fail> {
    check_refused(
        &rt,
        rt.alloc(),
        "type a = { choice \"t\" { ",
        &[
            "else kept } }",
            "else kept, \"k\" {} } }",
            "\"k\" {} else kept } }",
            "\"k\" {}, else kept, \"l\" {} } }",
            "\"k\" {}, else kept, else kept } }",
            "\"k\" {}, else kept, } }",
            "\"k\" {}, else kept else kept } }",
            "\"k\" {}, else } }",
            "\"k\" {}, kept } }",
            "\"k\" {}, else, kept } }",
            "\"k\" {}, kept else } }",
            "\"k\" {} }, else kept }",
            "\"k\" { else kept } } }",
        ],
    )
}
