//! Texts with a declaration that isn't in the grammar, and texts without any.
use crate::chains::NAMED;
use crate::checking::{check_changes, check_texts};
use std::test::Fail;

#[test]
fn texts_outside_the_grammar_in_named(rt: HostRuntime) -> Result<(), Fail> {
    check_changes(
        &rt,
        rt.alloc(),
        NAMED,
        &[
            // first
            (1, "form xml;", "chain: declaration 1\n"),
            // empty one
            (3, ";", "chain: declaration 3\n"),
            // leading zero
            (3, "schema 0100;", "chain: declaration 3\n"),
            // reserved name
            (5, "root text;", "chain: declaration 5\n"),
        ],
    )
}

#[test]
fn texts_outside_the_grammar(rt: HostRuntime) -> Result<(), Fail> {
    check_texts(
        &rt,
        rt.alloc(),
        &[
            // no text but a word
            ("form", "chain: declaration 1\n"),
            // blank
            (" \n\t", "chain: fault 1 at 1\n"),
            // nothing
            ("", "chain: fault 1 at 1\n"),
            // behind the last
            (
                "form nbt;\nversion \"DataVersion\";\nschema 100;\ntype player = { \"name\": text, .. };\nroot player;\nfix 101 seq(rename \"name\" \"Name\", add \"Health\" = int 20);\nschema 101;\ntype player = { \"Health\": int, \"Name\": text, .. };\nroot player;\nx",
                "chain: declaration 10\n",
            ),
            // no last sign
            (
                "form nbt;\nversion \"DataVersion\";\nschema 100;\ntype player = { \"name\": text, .. };\nroot player;\nfix 101 seq(rename \"name\" \"Name\", add \"Health\" = int 20);\nschema 101;\ntype player = { \"Health\": int, \"Name\": text, .. };\nroot player",
                "chain: declaration 9\n",
            ),
            // second of two
            (
                "form nbt;\nversion \"DataVersion\";\nschema 100;\ntype player = ;\nroot player;\nfix;\nschema 101;\ntype player = { \"Health\": int, \"Name\": text, .. };\nroot player;\n",
                "chain: declaration 4\n",
            ),
        ],
    )
}
