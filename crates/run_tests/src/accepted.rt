//! Texts that are accepted.
use crate::chains::{BLOCKS, FOLLOWING, ITEMS, KEPT, LEVEL, NAMED};
use crate::checking::{check_changes, check_texts};
use std::test::Fail;

#[test]
fn accepted_chains_in_named(rt: HostRuntime) -> Result<(), Fail> {
    check_changes(
        &rt,
        rt.alloc(),
        NAMED,
        &[
            // A
            (1, "form nbt;", "accepted 2 schemas 1 fixes\n"),
            // missing
            (
                2,
                "version \"DataVersion\" missing 0;",
                "accepted 2 schemas 1 fixes\n",
            ),
        ],
    )
}

#[test]
fn accepted_chains_in_following(rt: HostRuntime) -> Result<(), Fail> {
    check_changes(
        &rt,
        rt.alloc(),
        FOLLOWING,
        &[
            // nop
            (6, "fix 101 nop;", "accepted 2 schemas 1 fixes\n"),
            // everywhere
            (
                6,
                "fix 101 everywhere rename \"name\" \"Name\";",
                "accepted 2 schemas 1 fixes\n",
            ),
            // orelse
            (
                6,
                "fix 101 orelse(drop \"nope\", drop \"name\");",
                "accepted 2 schemas 1 fixes\n",
            ),
        ],
    )
}

#[test]
fn accepted_chains_in_items(rt: HostRuntime) -> Result<(), Fail> {
    check_changes(
        &rt,
        rt.alloc(),
        ITEMS,
        &[
            // C
            (1, "form nbt;", "accepted 3 schemas 2 fixes\n"),
        ],
    )
}

#[test]
fn accepted_chains_in_blocks(rt: HostRuntime) -> Result<(), Fail> {
    check_changes(
        &rt,
        rt.alloc(),
        BLOCKS,
        &[
            // M
            (1, "form json;", "accepted 2 schemas 1 fixes\n"),
        ],
    )
}

#[test]
fn accepted_chains_in_level(rt: HostRuntime) -> Result<(), Fail> {
    check_changes(
        &rt,
        rt.alloc(),
        LEVEL,
        &[
            // Q
            (1, "form nbt;", "accepted 2 schemas 1 fixes\n"),
        ],
    )
}

#[test]
fn accepted_chains_in_kept(rt: HostRuntime) -> Result<(), Fail> {
    check_changes(
        &rt,
        rt.alloc(),
        KEPT,
        &[
            // R
            (1, "form json;", "accepted 2 schemas 1 fixes\n"),
        ],
    )
}

#[test]
fn accepted_chains(rt: HostRuntime) -> Result<(), Fail> {
    check_texts(
        &rt,
        rt.alloc(),
        &[
            // D
            (
                "form nbt;\nversion \"DataVersion\";\nschema 100;\ntype item = { \"id\": text, \"bag\"?: list item, .. };\ntype player = { \"hand\": item, .. };\nroot player;\nfix 101 on item rename \"id\" \"ID\";\nfix 101 on item add \"count\" = int 1;\nfix 101 on item map \"ID\" prefix \"minecraft:\";\nschema 101 follows;\n",
                "accepted 2 schemas 3 fixes\n",
            ),
            // E
            (
                "form nbt;\nversion \"DataVersion\";\nschema 100;\ntype item = { \"id\": text, .. };\ntype slot = { \"item\": item, .. };\ntype bag = { \"slot\": slot, .. };\ntype player = { \"bag\": bag, .. };\nroot player;\nfix 101 on item map \"id\" lower;\nschema 101 follows;\n",
                "accepted 2 schemas 1 fixes\n",
            ),
            // F
            (
                "form nbt;\nversion \"DataVersion\";\nschema 100;\ntype player = { \"v\": int or text, .. };\nroot player;\nfix 101 unify \"v\" totext or totext;\nschema 101 follows;\n",
                "accepted 2 schemas 1 fixes\n",
            ),
            // G
            (
                "form json;\nversion \"DataVersion\";\nschema 100;\ntype p = { \"x\": whole, .. };\nroot p;\nfix 101 map \"x\" plus 1;\nschema 101 follows;\n",
                "accepted 2 schemas 1 fixes\n",
            ),
            // H
            (
                "form nbt;\nversion \"DataVersion\";\nschema 100;\ntype player = { \"x\": any, .. };\nroot player;\nfix 101 nest (\"x\") \"y\";\nschema 101 follows;\n",
                "accepted 2 schemas 1 fixes\n",
            ),
            // I
            (
                "form nbt;\nversion \"DataVersion\";\nschema 3000;\ntype item = { \"Slot\": byte, \"id\": text, \"Count\": byte, \"tag\"?: any, .. };\ntype player = { \"Pos\": list double, \"Health\": float, \"Inventory\": list item, \"UUID\": ints, .. };\nroot player;\nfix 3100 on item seq(map \"Count\" to int, rename \"Count\" \"count\");\nfix 3100 on player rename \"Inventory\" \"inventory\";\nschema 3100 follows;\n",
                "accepted 2 schemas 2 fixes\n",
            ),
            // L
            (
                "form nbt;\nversion \"DataVersion\";\nschema 100;\ntype item = { \"id\": text, \"bag\"?: list item, .. };\ntype player = { \"hand\": item, .. };\nroot player;\nfix 101 deep \"hand\" \"bag\" each \"id\" : prefix \"x:\";\nschema 101 follows;\n",
                "accepted 2 schemas 1 fixes\n",
            ),
            // N
            (
                "form json;\nversion \"v\";\nschema 1;\ntype p = { \"a\": { \"x\": { \"n\": whole } }, \"x\": { \"n\": whole } };\nroot p;\nfix 2 at \"x\" map \"n\" plus 1;\nschema 2 follows;\n",
                "accepted 2 schemas 1 fixes\n",
            ),
            // O
            (
                "form json;\nversion \"v\";\nschema 1;\ntype p = { \"a\": whole, \"b\": whole };\nroot p;\nfix 2 seq(map \"b\" plus 1, map \"a\" plus 1, map \"b\" times 2);\nschema 2 follows;\n",
                "accepted 2 schemas 1 fixes\n",
            ),
            // schema alone
            (
                "form nbt;\nversion \"DataVersion\";\nschema 100;\ntype player = { \"name\": text, .. };\nroot player;\n",
                "accepted 1 schemas 0 fixes\n",
            ),
            // three names
            (
                "form nbt;\nversion \"Data\" \"a\" \"b\";\nschema 100;\ntype level = { \"Data\": { \"LevelName\": text, \"a\": { .. }, .. }, .. };\nroot level;\nfix 101 at \"Data\" rename \"LevelName\" \"Name\";\nschema 101 follows;\n",
                "accepted 2 schemas 1 fixes\n",
            ),
            // newtype and droptype
            (
                "form nbt;\nversion \"DataVersion\";\nschema 100;\ntype item = { \"id\": text, \"bag\"?: list item, .. };\ntype player = { \"hand\": item, .. };\nroot player;\nfix 101 newtype slot = { \"item\": item, .. };\nfix 101 droptype slot;\nschema 101 follows;\n",
                "accepted 2 schemas 2 fixes\n",
            ),
            // all
            (
                "form json;\nversion \"v\";\nschema 1;\ntype p = { \"a\": { \"n\": whole }, \"b\": { \"m\": whole } };\nroot p;\nfix 2 all map \"n\" plus 1;\nschema 2 follows;\n",
                "accepted 2 schemas 1 fixes\n",
            ),
            // two own schemas
            (
                "form nbt;\nversion \"DataVersion\";\nschema 100;\ntype player = { \"name\": text, .. };\nroot player;\nfix 101 nop;\nschema 101;\ntype player = { \"name\": text, .. };\nroot player;\n",
                "accepted 2 schemas 1 fixes\n",
            ),
            // types in another order
            (
                "form nbt;\nversion \"DataVersion\";\nschema 100;\ntype player = { \"hand\": item, .. };\ntype item = { \"id\": text, \"bag\"?: list item, .. };\nroot player;\nfix 101 nop;\nschema 101;\ntype item = { \"id\": text, \"bag\"?: list item, .. };\ntype player = { \"hand\": item, .. };\nroot player;\n",
                "accepted 2 schemas 1 fixes\n",
            ),
            // white space
            (
                " \nform nbt;\nversion \"DataVersion\";\nschema 100;\ntype player = { \"name\": text, .. };\nroot player;\nfix 101 seq(rename \"name\" \"Name\", add \"Health\" = int 20);\nschema 101;\ntype player = { \"Health\": int, \"Name\": text, .. };\nroot player;\n\t\r\n ",
                "accepted 2 schemas 1 fixes\n",
            ),
            // version at the limits
            (
                "form nbt;\nversion \"DataVersion\";\nschema 0;\ntype player = { \"name\": text, .. };\nroot player;\nfix 2147483647 nop;\nschema 2147483647 follows;\n",
                "accepted 2 schemas 1 fixes\n",
            ),
        ],
    )
}
