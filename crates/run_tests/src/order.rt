//! Faults 1 to 6: declarations out of order, and numbers of schemas and fixes.
use crate::chains::{ITEMS, NAMED};
use crate::checking::{check_changes, check_texts};
use std::test::Fail;

#[test]
fn declarations_out_of_order_in_named(rt: HostRuntime) -> Result<(), Fail> {
    check_changes(
        &rt,
        rt.alloc(),
        NAMED,
        &[
            // no form
            (1, "", "chain: fault 1 at 1\n"),
            // two forms
            (
                2,
                "version \"DataVersion\";\nform nbt;",
                "chain: fault 1 at 3\n",
            ),
            // form later
            (9, "root player;\nform nbt;", "chain: fault 1 at 10\n"),
            // no version
            (2, "", "chain: fault 2 at 2\n"),
            // two versions
            (9, "root player;\nversion \"x\";", "chain: fault 2 at 10\n"),
            // version third
            (
                1,
                "form nbt;\nversion \"DataVersion\";",
                "chain: fault 2 at 3\n",
            ),
            // schema follows first
            (3, "schema 100 follows;", "chain: fault 3 at 3\n"),
            // type third
            (3, "", "chain: fault 3 at 3\n"),
            // no last root
            (9, "", "chain: fault 3 at 7\n"),
            // no first root
            (5, "", "chain: fault 3 at 3\n"),
            // two roots
            (
                4,
                "type player = { \"name\": text, .. };\nroot player;",
                "chain: fault 3 at 6\n",
            ),
            // type under a fix
            (
                6,
                "fix 101 seq(rename \"name\" \"Name\", add \"Health\" = int 20);\ntype x = { .. };",
                "chain: fault 3 at 7\n",
            ),
        ],
    )
}

#[test]
fn declarations_out_of_order_in_items(rt: HostRuntime) -> Result<(), Fail> {
    check_changes(
        &rt,
        rt.alloc(),
        ITEMS,
        &[
            // root under follows
            (
                8,
                "schema 101 follows;\nroot player;",
                "chain: fault 3 at 9\n",
            ),
            // type under follows
            (
                10,
                "schema 102 follows;\ntype x = { .. };",
                "chain: fault 3 at 11\n",
            ),
        ],
    )
}

#[test]
fn declarations_out_of_order(rt: HostRuntime) -> Result<(), Fail> {
    check_texts(
        &rt,
        rt.alloc(),
        &[
            // form alone
            ("form nbt;\n", "chain: fault 2 at 2\n"),
            // no schema
            (
                "form nbt;\nversion \"DataVersion\";\n",
                "chain: fault 3 at 3\n",
            ),
        ],
    )
}

#[test]
fn wrong_versions_and_numbers_in_named(rt: HostRuntime) -> Result<(), Fail> {
    check_changes(
        &rt,
        rt.alloc(),
        NAMED,
        &[
            // negative version
            (3, "schema -1;", "chain: fault 5 at 3\n"),
            // missing negative
            (
                2,
                "version \"DataVersion\" missing -1;",
                "chain: fault 5 at 2\n",
            ),
            // missing great
            (
                2,
                "version \"DataVersion\" missing 2147483648;",
                "chain: fault 5 at 2\n",
            ),
            // fix of another number
            (6, "fix 102 nop;", "chain: fault 6 at 6\n"),
            // fix behind the last
            (9, "root player;\nfix 102 nop;", "chain: fault 6 at 10\n"),
            // second fix of another number
            (6, "fix 101 nop;\nfix 100 nop;", "chain: fault 6 at 7\n"),
        ],
    )
}

#[test]
fn wrong_versions_and_numbers(rt: HostRuntime) -> Result<(), Fail> {
    check_texts(
        &rt,
        rt.alloc(),
        &[
            // same version
            (
                "form nbt;\nversion \"DataVersion\";\nschema 100;\ntype player = { \"name\": text, .. };\nroot player;\nfix 100 nop;\nschema 100;\ntype player = { \"Health\": int, \"Name\": text, .. };\nroot player;\n",
                "chain: fault 5 at 7\n",
            ),
            // lower version
            (
                "form nbt;\nversion \"DataVersion\";\nschema 100;\ntype player = { \"name\": text, .. };\nroot player;\nfix 99 nop;\nschema 99;\ntype player = { \"Health\": int, \"Name\": text, .. };\nroot player;\n",
                "chain: fault 5 at 7\n",
            ),
            // great version
            (
                "form nbt;\nversion \"DataVersion\";\nschema 100;\ntype player = { \"name\": text, .. };\nroot player;\nfix 2147483648 nop;\nschema 2147483648;\ntype player = { \"Health\": int, \"Name\": text, .. };\nroot player;\n",
                "chain: fault 5 at 7\n",
            ),
        ],
    )
}
