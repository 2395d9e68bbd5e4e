//! Faults 7 to 9: kinds, ranges and names.
use crate::chains::{BLOCKS, FOLLOWING, KEPT, NAMED};
use crate::checking::{check_changes, check_texts};
use std::test::Fail;

#[test]
fn kinds_of_another_form_in_named(rt: HostRuntime) -> Result<(), Fail> {
    check_changes(
        &rt,
        rt.alloc(),
        NAMED,
        &[
            // whole in nbt
            (
                4,
                "type player = { \"name\": whole, .. };",
                "chain: fault 7 at 4\n",
            ),
            // kind in a list
            (
                4,
                "type player = { \"name\": list bool, .. };",
                "chain: fault 7 at 4\n",
            ),
            // kind in a sum
            (
                4,
                "type player = { \"name\": int or null, .. };",
                "chain: fault 7 at 4\n",
            ),
            // kind in newtype
            (
                6,
                "fix 101 newtype x = { \"a\": whole };",
                "chain: fault 7 at 6\n",
            ),
            // kind in add
            (6, "fix 101 add \"x\" = bool true;", "chain: fault 7 at 6\n"),
            // kind in fill
            (
                6,
                "fix 101 add \"x\" = list whole;",
                "chain: fault 7 at 6\n",
            ),
            // kind in default
            (6, "fix 101 default \"x\" = null;", "chain: fault 7 at 6\n"),
            // kind in learn
            (6, "fix 101 learn \"x\" whole;", "chain: fault 7 at 6\n"),
            // kind in to
            (6, "fix 101 map \"name\" to whole;", "chain: fault 7 at 6\n"),
            // kind in const
            (
                6,
                "fix 101 map \"name\" const whole 1;",
                "chain: fault 7 at 6\n",
            ),
            // kind in oftext
            (
                6,
                "fix 101 map \"name\" oftext whole 1;",
                "chain: fault 7 at 6\n",
            ),
            // kind in unify
            (
                6,
                "fix 101 unify \"name\" totext or to whole;",
                "chain: fault 7 at 6\n",
            ),
            // kind in addcase
            (
                6,
                "fix 101 addcase \"l\" { \"x\": whole };",
                "chain: fault 7 at 6\n",
            ),
            // kind in deep
            (
                6,
                "fix 101 deep \"name\" : const whole 1;",
                "chain: fault 7 at 6\n",
            ),
        ],
    )
}

#[test]
fn kinds_of_another_form_in_blocks(rt: HostRuntime) -> Result<(), Fail> {
    check_changes(
        &rt,
        rt.alloc(),
        BLOCKS,
        &[
            // int in json
            (4, "type block = { \"pos\": int };", "chain: fault 7 at 4\n"),
            // kind in a case
            (
                4,
                "type block = { choice \"id\" { \"a\" { \"x\": byte } } };",
                "chain: fault 7 at 4\n",
            ),
        ],
    )
}

#[test]
fn numbers_out_of_range_in_named(rt: HostRuntime) -> Result<(), Fail> {
    check_changes(
        &rt,
        rt.alloc(),
        NAMED,
        &[
            // int
            (
                6,
                "fix 101 add \"x\" = int 2147483648;",
                "chain: fault 8 at 6\n",
            ),
            // byte
            (6, "fix 101 add \"x\" = byte -129;", "chain: fault 8 at 6\n"),
            // short
            (
                6,
                "fix 101 add \"x\" = short 32768;",
                "chain: fault 8 at 6\n",
            ),
            // long
            (
                6,
                "fix 101 add \"x\" = long 9223372036854775808;",
                "chain: fault 8 at 6\n",
            ),
            // float bits
            (
                6,
                "fix 101 add \"x\" = float bits 4294967296;",
                "chain: fault 8 at 6\n",
            ),
            // double bits
            (
                6,
                "fix 101 add \"x\" = double bits 18446744073709551616;",
                "chain: fault 8 at 6\n",
            ),
            // negative bits
            (
                6,
                "fix 101 add \"x\" = double bits -1;",
                "chain: fault 8 at 6\n",
            ),
            // plus
            (
                6,
                "fix 101 map \"name\" plus 9223372036854775808;",
                "chain: fault 8 at 6\n",
            ),
            // times
            (
                6,
                "fix 101 map \"name\" times -9223372036854775809;",
                "chain: fault 8 at 6\n",
            ),
            // clamp low
            (
                6,
                "fix 101 map \"name\" clamp -9223372036854775809 0;",
                "chain: fault 8 at 6\n",
            ),
            // clamp high
            (
                6,
                "fix 101 unify \"name\" totext or clamp 0 9223372036854775808;",
                "chain: fault 8 at 6\n",
            ),
            // const
            (
                6,
                "fix 101 deep \"name\" : const short 40000;",
                "chain: fault 8 at 6\n",
            ),
            // oftext
            (
                6,
                "fix 101 map \"name\" oftext byte 200;",
                "chain: fault 8 at 6\n",
            ),
        ],
    )
}

#[test]
fn numbers_out_of_range_in_following(rt: HostRuntime) -> Result<(), Fail> {
    check_changes(
        &rt,
        rt.alloc(),
        FOLLOWING,
        &[
            // byte fits
            (
                6,
                "fix 101 add \"x\" = byte -128;",
                "accepted 2 schemas 1 fixes\n",
            ),
            // long fits
            (
                6,
                "fix 101 add \"x\" = long -9223372036854775808;",
                "accepted 2 schemas 1 fixes\n",
            ),
            // float bits fit
            (
                6,
                "fix 101 add \"x\" = float bits 4294967295;",
                "accepted 2 schemas 1 fixes\n",
            ),
        ],
    )
}

#[test]
fn equal_names_in_named(rt: HostRuntime) -> Result<(), Fail> {
    check_changes(
        &rt,
        rt.alloc(),
        NAMED,
        &[
            // two fields
            (
                4,
                "type player = { \"name\": text, \"name\": int, .. };",
                "chain: fault 9 at 4\n",
            ),
            // two types
            (
                4,
                "type player = { \"name\": text, .. };\ntype player = { .. };",
                "chain: fault 9 at 5\n",
            ),
            // inner record
            (
                4,
                "type player = { \"name\": text, \"a\": list { \"b\": int, \"b\": int }, .. };",
                "chain: fault 9 at 4\n",
            ),
            // table
            (
                6,
                "fix 101 map \"name\" table (\"a\" to \"b\", \"c\" to \"d\", \"a\" to \"e\");",
                "chain: fault 9 at 6\n",
            ),
            // newtype
            (
                6,
                "fix 101 newtype x = { \"b\": int, \"b\": int };",
                "chain: fault 9 at 6\n",
            ),
            // fill
            (
                6,
                "fix 101 add \"x\" = list { \"b\": int, \"b\": int };",
                "chain: fault 9 at 6\n",
            ),
            // in an unify
            (
                6,
                "fix 101 unify \"name\" lower or table (\"a\" to \"b\", \"a\" to \"b\");",
                "chain: fault 9 at 6\n",
            ),
        ],
    )
}

#[test]
fn equal_names_in_following(rt: HostRuntime) -> Result<(), Fail> {
    check_changes(
        &rt,
        rt.alloc(),
        FOLLOWING,
        &[
            // table of right sides
            (
                6,
                "fix 101 map \"name\" table (\"a\" to \"b\", \"c\" to \"b\");",
                "accepted 2 schemas 1 fixes\n",
            ),
        ],
    )
}

#[test]
fn equal_names_in_blocks(rt: HostRuntime) -> Result<(), Fail> {
    check_changes(
        &rt,
        rt.alloc(),
        BLOCKS,
        &[
            // tag and field
            (
                4,
                "type block = { \"id\": whole, choice \"id\" { \"a\" {} } };",
                "chain: fault 9 at 4\n",
            ),
            // two literals
            (
                4,
                "type block = { choice \"id\" { \"a\" {}, \"a\" {} } };",
                "chain: fault 9 at 4\n",
            ),
            // case and common field
            (
                4,
                "type block = { \"x\": whole, choice \"id\" { \"a\" { \"x\": text } } };",
                "chain: fault 9 at 4\n",
            ),
            // two in a case
            (
                4,
                "type block = { choice \"id\" { \"a\" { \"x\": text, \"x\": text } } };",
                "chain: fault 9 at 4\n",
            ),
            // same field in two cases
            (
                4,
                "type block = { \"pos\": whole, choice \"id\" { \"chest\" { \"x\": text }, \"sign\" { \"x\": text, \"line\": text } }, .. };",
                "accepted 2 schemas 1 fixes\n",
            ),
        ],
    )
}

#[test]
fn equal_names_in_kept(rt: HostRuntime) -> Result<(), Fail> {
    check_changes(
        &rt,
        rt.alloc(),
        KEPT,
        &[
            // in a field of addcase
            (
                7,
                "fix 2 on block addcase \"s\" { \"l\": { \"b\": text, \"b\": text } };",
                "chain: fault 9 at 7\n",
            ),
            // fields of addcase
            (
                7,
                "fix 2 on block addcase \"s\" { \"l\": text, \"l\": text };",
                "chain: fault 12 at 7\n",
            ),
        ],
    )
}

#[test]
fn equal_names(rt: HostRuntime) -> Result<(), Fail> {
    check_texts(
        &rt,
        rt.alloc(),
        &[
            // type of a later schema
            (
                "form nbt;\nversion \"DataVersion\";\nschema 100;\ntype player = { \"name\": text, .. };\nroot player;\nfix 101 nop;\nschema 101;\ntype player = { \"name\": text, .. };\nroot player;\n",
                "accepted 2 schemas 1 fixes\n",
            ),
        ],
    )
}
