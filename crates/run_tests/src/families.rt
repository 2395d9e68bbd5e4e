//! Fault 10: families that aren't formed.
use crate::chains::{LEVEL, NAMED};
use crate::checking::{check_changes, check_texts};
use std::test::Fail;

#[test]
fn families_that_are_not_formed_in_named(rt: HostRuntime) -> Result<(), Fail> {
    check_changes(
        &rt,
        rt.alloc(),
        NAMED,
        &[
            // root without type
            (5, "root bag;", "chain: fault 10 at 3\n"),
            // point without type
            (
                4,
                "type player = { \"name\": text, \"x\": item, .. };",
                "chain: fault 10 at 3\n",
            ),
            // root no record
            (4, "type player = int;", "chain: fault 10 at 3\n"),
            // sides share a kind
            (
                4,
                "type player = { \"name\": int or int, .. };",
                "chain: fault 10 at 3\n",
            ),
            // mixed list
            (
                4,
                "type player = { \"name\": list (int or text), .. };",
                "chain: fault 10 at 3\n",
            ),
            // unguarded
            (
                4,
                "type player = { \"name\": text, \"x\": a, .. };\ntype a = b;\ntype b = { .. };",
                "chain: fault 10 at 3\n",
            ),
            // version used
            (
                4,
                "type player = { \"DataVersion\": int, .. };",
                "chain: fault 10 at 3\n",
            ),
        ],
    )
}

#[test]
fn families_that_are_not_formed_in_level(rt: HostRuntime) -> Result<(), Fail> {
    check_changes(
        &rt,
        rt.alloc(),
        LEVEL,
        &[
            // path through a leaf
            (
                4,
                "type level = { \"Data\": int, .. };",
                "chain: fault 10 at 3\n",
            ),
            // path through a may field
            (
                4,
                "type level = { \"Data\"?: { .. }, .. };",
                "chain: fault 10 at 3\n",
            ),
        ],
    )
}

#[test]
fn families_that_are_not_formed(rt: HostRuntime) -> Result<(), Fail> {
    check_texts(
        &rt,
        rt.alloc(),
        &[
            // second schema
            (
                "form nbt;\nversion \"DataVersion\";\nschema 100;\ntype player = { \"name\": text, .. };\nroot player;\nfix 101 nop;\nschema 101;\ntype player = { \"Health\": int, \"Name\": text, .. };\nroot x;\n",
                "chain: fault 10 at 7\n",
            ),
        ],
    )
}
