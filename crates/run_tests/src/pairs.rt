//! Two faults at once: the least number counts, at its first declaration; and on the walk the first step.
use crate::chains::NAMED;
use crate::checking::{check_changes, check_texts};
use std::test::Fail;

#[test]
fn two_faults_in_named(rt: HostRuntime) -> Result<(), Fail> {
    check_changes(
        &rt,
        rt.alloc(),
        NAMED,
        &[
            // 11 before 12
            (
                6,
                "fix 101 on item rename \"nope\" \"n\";",
                "chain: fault 11 at 6\n",
            ),
        ],
    )
}

#[test]
fn two_faults(rt: HostRuntime) -> Result<(), Fail> {
    check_texts(
        &rt,
        rt.alloc(),
        &[
            // 1 and 2
            (
                "schema 100;\ntype player = { \"name\": text, .. };\nroot player;\nfix 101 seq(rename \"name\" \"Name\", add \"Health\" = int 20);\nschema 101;\ntype player = { \"Health\": int, \"Name\": text, .. };\nroot player;\n",
                "chain: fault 1 at 1\n",
            ),
            // 2 and 3
            (
                "form nbt;\nschema 100;\ntype player = { \"name\": text, .. };\nroot player;\nfix 101 seq(rename \"name\" \"Name\", add \"Health\" = int 20);\nschema 101;\ntype player = { \"Health\": int, \"Name\": text, .. };\n",
                "chain: fault 2 at 2\n",
            ),
            // 3 and 5
            (
                "form nbt;\nversion \"DataVersion\";\nschema 100;\ntype player = { \"name\": text, .. };\nroot player;\nroot player;\nfix 100 nop;\nschema 100;\ntype player = { \"Health\": int, \"Name\": text, .. };\nroot player;\n",
                "chain: fault 3 at 6\n",
            ),
            // 5 and 6
            (
                "form nbt;\nversion \"DataVersion\";\nschema 100;\ntype player = { \"name\": text, .. };\nroot player;\nfix 7 nop;\nschema 100;\ntype player = { \"Health\": int, \"Name\": text, .. };\nroot player;\n",
                "chain: fault 5 at 7\n",
            ),
            // 6 and 7
            (
                "form nbt;\nversion \"DataVersion\";\nschema 100;\ntype player = { \"name\": whole, .. };\nroot player;\nfix 7 nop;\nschema 101;\ntype player = { \"Health\": int, \"Name\": text, .. };\nroot player;\n",
                "chain: fault 6 at 6\n",
            ),
            // 7 and 8
            (
                "form nbt;\nversion \"DataVersion\";\nschema 100;\ntype player = { \"name\": text, .. };\nroot player;\nfix 101 add \"x\" = int 2147483648;\nschema 101;\ntype player = { \"name\": whole, .. };\nroot player;\n",
                "chain: fault 7 at 8\n",
            ),
            // 8 and 9
            (
                "form nbt;\nversion \"DataVersion\";\nschema 100;\ntype player = { \"name\": text, \"name\": text, .. };\nroot player;\nfix 101 add \"x\" = int 2147483648;\nschema 101;\ntype player = { \"Health\": int, \"Name\": text, .. };\nroot player;\n",
                "chain: fault 8 at 6\n",
            ),
            // 9 and 10
            (
                "form nbt;\nversion \"DataVersion\";\nschema 100;\ntype player = { \"name\": text, .. };\nroot bag;\nfix 101 map \"name\" table (\"a\" to \"b\", \"a\" to \"b\");\nschema 101;\ntype player = { \"Health\": int, \"Name\": text, .. };\nroot player;\n",
                "chain: fault 9 at 6\n",
            ),
            // 10 and 11
            (
                "form nbt;\nversion \"DataVersion\";\nschema 100;\ntype player = { \"name\": text, .. };\nroot player;\nfix 101 on item nop;\nschema 101;\ntype player = { \"Health\": int, \"Name\": text, .. };\nroot bag;\n",
                "chain: fault 10 at 7\n",
            ),
            // 12 before 14
            (
                "form nbt;\nversion \"DataVersion\";\nschema 100;\ntype player = { \"name\": text, .. };\nroot player;\nfix 101 rename \"nope\" \"n\";\nschema 101;\ntype player = { .. };\nroot player;\n",
                "chain: fault 12 at 6\n",
            ),
            // one number at two
            (
                "form nbt;\nversion \"DataVersion\";\nschema 100;\ntype player = { \"name\": whole, .. };\nroot player;\nfix 101 seq(rename \"name\" \"Name\", add \"Health\" = int 20);\nschema 101;\ntype player = { \"name\": whole, .. };\nroot player;\n",
                "chain: fault 7 at 4\n",
            ),
            // grammar before faults
            (
                "form json;\nversion \"DataVersion\";\nschema 100;\ntype player = { \"name\": text, .. };\nroot player;\nfix 101 seq(rename \"name\" \"Name\", add \"Health\" = int 20);\nschema 101;\ntype player = { \"Health\": int, \"Name\": text, .. };\nroot;\n",
                "chain: declaration 9\n",
            ),
        ],
    )
}
