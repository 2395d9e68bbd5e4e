//! Faults 11 to 14: fixes that don't fit, and schemas that aren't what the fixes give.
use crate::chains::{ITEMS, KEPT, LEVEL, NAMED};
use crate::checking::{check_changes, check_texts};
use std::test::Fail;

#[test]
fn fixes_that_do_not_fit_in_named(rt: HostRuntime) -> Result<(), Fail> {
    check_changes(
        &rt,
        rt.alloc(),
        NAMED,
        &[
            // on
            (6, "fix 101 on item nop;", "chain: fault 11 at 6\n"),
            // point of a fill
            (
                6,
                "fix 101 add \"x\" = list item;",
                "chain: fault 11 at 6\n",
            ),
            // newtype there
            (
                6,
                "fix 101 newtype player = { .. };",
                "chain: fault 11 at 6\n",
            ),
            // droptype root
            (6, "fix 101 droptype player;", "chain: fault 11 at 6\n"),
            // droptype none
            (6, "fix 101 droptype item;", "chain: fault 11 at 6\n"),
            // deep nowhere
            (
                6,
                "fix 101 deep \"nope\" : lower;",
                "chain: fault 11 at 6\n",
            ),
            // deep with another kind
            (
                6,
                "fix 101 deep \"name\" : oftext int 1;",
                "chain: fault 12 at 6\n",
            ),
            // version name added
            (
                6,
                "fix 101 add \"DataVersion\" = int 1;",
                "chain: fault 13 at 6\n",
            ),
            // another kind
            (
                8,
                "type player = { \"Health\": long, \"Name\": text, .. };",
                "chain: fault 14 at 7\n",
            ),
            // one type more
            (
                8,
                "type player = { \"Health\": int, \"Name\": text, .. };\ntype item = { .. };",
                "chain: fault 14 at 7\n",
            ),
            // closed
            (
                8,
                "type player = { \"Health\": int, \"Name\": text };",
                "chain: fault 14 at 7\n",
            ),
        ],
    )
}

#[test]
fn fixes_that_do_not_fit_in_items(rt: HostRuntime) -> Result<(), Fail> {
    check_changes(
        &rt,
        rt.alloc(),
        ITEMS,
        &[
            // deep not to a leaf
            (
                7,
                "fix 101 deep \"hand\" : lower;",
                "chain: fault 11 at 7\n",
            ),
            // type dropped in use
            (7, "fix 101 droptype item;", "chain: fault 13 at 7\n"),
        ],
    )
}

#[test]
fn fixes_that_do_not_fit_in_level(rt: HostRuntime) -> Result<(), Fail> {
    check_changes(
        &rt,
        rt.alloc(),
        LEVEL,
        &[
            // path renamed
            (
                6,
                "fix 101 rename \"Data\" \"D\";",
                "chain: fault 13 at 6\n",
            ),
        ],
    )
}

#[test]
fn fixes_that_do_not_fit_in_kept(rt: HostRuntime) -> Result<(), Fail> {
    check_changes(
        &rt,
        rt.alloc(),
        KEPT,
        &[
            // point of addcase
            (
                7,
                "fix 2 on block addcase \"s\" { \"x\": bed };",
                "chain: fault 11 at 7\n",
            ),
            // uneasy case
            (
                7,
                "fix 2 on block addcase \"sign\" { \"line\": list text };",
                "chain: fault 12 at 7\n",
            ),
        ],
    )
}

#[test]
fn fixes_that_do_not_fit(rt: HostRuntime) -> Result<(), Fail> {
    check_texts(
        &rt,
        rt.alloc(),
        &[
            // rule fits nothing
            (
                "form nbt;\nversion \"DataVersion\";\nschema 100;\ntype item = { \"id\": text, \"bag\"?: list item, .. };\ntype player = { \"hand\": item, .. };\nroot player;\nfix 101 on item rename \"nope\" \"n\";\nschema 101 follows;\n",
                "chain: fault 12 at 7\n",
            ),
            // mismatch at once with an ill fix
            (
                "form nbt;\nversion \"DataVersion\";\nschema 100;\ntype player = { \"name\": text, .. };\nroot player;\nfix 101 add \"DataVersion\" = int 1;\nschema 101;\ntype player = { \"x\": int, .. };\nroot player;\n",
                "chain: fault 13 at 6\n",
            ),
            // later fix first
            (
                "form nbt;\nversion \"DataVersion\";\nschema 100;\ntype item = { \"id\": text, \"bag\"?: list item, .. };\ntype player = { \"hand\": item, .. };\nroot player;\nfix 101 on item rename \"nope\" \"n\";\nschema 101 follows;\nfix 102 on nope nop;\nschema 102 follows;\n",
                "chain: fault 12 at 7\n",
            ),
        ],
    )
}
