//! Each rule, and each step of a path, is read.
use crate::reading::{Around, check_in};
use std::test::Fail;

/// A rule of a fix.
const RULE: Around<'static> = Around {
    words: "fix 1 ",
    before: "Fix(1, Rule(",
    after: "))",
};

/// The steps of a path, and what is done to what it leads to.
const PATH: Around<'static> = Around {
    words: "fix 1 deep ",
    before: "Fix(1, Deep(",
    after: "))",
};

#[test]
fn each_rule(rt: HostRuntime) -> Result<(), Fail> {
    check_in(
        &rt,
        rt.alloc(),
        &RULE,
        &[
            ("nop", "Nop"),
            ("all nop", "All(RuleBox { rule: Nop })"),
            ("everywhere nop", "Everywhere(RuleBox { rule: Nop })"),
            ("on item nop", "On('item', RuleBox { rule: Nop })"),
            ("at \"a\" nop", "At('a', RuleBox { rule: Nop })"),
            ("seq(nop)", "Seq(RuleList { list: [Nop] })"),
            (
                "seq(nop, drop \"a\", nop)",
                "Seq(RuleList { list: [Nop, Fn(None, Drop('a')), Nop] })",
            ),
            (
                "orelse(drop \"a\", nop)",
                "OrElse(RuleBox { rule: Fn(None, Drop('a')) }, RuleBox { rule: Nop })",
            ),
            ("wrap \"a\"", "Fn(None, Wrap('a'))"),
            ("in \"b\" wrap \"a\"", "Fn(Some('b'), Wrap('a'))"),
        ],
    )
}

#[test]
fn each_step(rt: HostRuntime) -> Result<(), Fail> {
    check_in(
        &rt,
        rt.alloc(),
        &PATH,
        &[
            ("\"a\" : lower", "[Named('a')], Lower"),
            ("each : plus 1", "[Each], Plus(1)"),
            ("left : totext", "[Left], ToText"),
            ("right : totext", "[Right], ToText"),
            ("case \"a\" : lower", "[Case('a')], Lower"),
            (
                "\"a\" case \"b\" \"c\" each : prefix \"d\"",
                "[Named('a'), Case('b'), Named('c'), Each], Prefix('d')",
            ),
        ],
    )
}
