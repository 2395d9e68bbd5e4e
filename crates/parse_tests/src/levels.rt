//! Rules and templates nest as deep as they may, and no deeper.
use crate::reading::{is_declaration, joined};
use std::alloc::Global;
use std::process::Abort;
use std::test::Fail;

/// A text that nests: what it begins with, what opens a level, what stands innermost, and what closes a level.
type Nested<'a> = (&'a str, &'a str, &'a str, &'a str);

/// The text with so many levels opened and closed.
fn nested(alloc: Global, shape: Nested, times: u32) -> Result<String, Fail> {
    let (begins, opens, innermost, closes) = shape;
    let mut text = String::from_str(alloc, begins)?;
    for _ in 0..times {
        text.push_str(opens)?;
    }
    text.push_str(innermost)?;
    for _ in 0..times {
        text.push_str(closes)?;
    }
    Ok(text)
}

/// Whether the text with so many levels opened and closed is a declaration.
fn is_nested(alloc: Global, shape: Nested, times: u32) -> Result<bool, Fail> {
    let text = nested(alloc, shape, times)?;
    is_declaration(alloc, text.as_str())
}

/// Each row: a text that nests, and how often it opens a level at most.
fn check(rt: &impl Abort, alloc: Global, table: &[(Nested, u16)]) -> Result<(), Fail> {
    for (shape, most) in table {
        let most = u32::from(*most);
        assert!(rt; is_nested(alloc, *shape, most)?);
        assert!(rt; !is_nested(alloc, *shape, most + 1)?);
    }
    Ok(())
}

#[test]
fn levels_of_templates(rt: HostRuntime) -> Result<(), Fail> {
    check(
        &rt,
        rt.alloc(),
        &[
            (("type a = ", "list ", "int", ""), 255),
            (("type a = ", "(", "int", ")"), 255),
            (("type a = ", "{ \"a\": ", "int", " }"), 255),
            (("type a = ", "int or ", "int", ""), 255),
            (
                (
                    "type a = ",
                    "{ choice \"t\" { \"k\" { \"a\": ",
                    "int",
                    " } } }",
                ),
                255,
            ),
            (("fix 1 newtype a = ", "list ", "int", ""), 255),
            (("fix 1 add \"a\" = ", "list ", "int", ""), 256),
            (("fix 1 addcase \"a\" { \"b\": ", "list ", "int }", ""), 255),
        ],
    )
}

#[test]
fn levels_of_rules(rt: HostRuntime) -> Result<(), Fail> {
    check(
        &rt,
        rt.alloc(),
        &[
            (("fix 1 ", "all ", "nop", ""), 255),
            (("fix 1 ", "everywhere ", "nop", ""), 255),
            (("fix 1 ", "on a ", "nop", ""), 255),
            (("fix 1 ", "at \"a\" ", "nop", ""), 255),
            (("fix 1 ", "seq(", "nop", ")"), 255),
            (("fix 1 ", "orelse(nop, ", "nop", ")"), 255),
            (("fix 1 seq(", "nop, ", "nop)", ""), 254),
        ],
    )
}

#[test]
fn a_template_in_a_rule_begins_at_the_first_level(rt: HostRuntime) -> Result<(), Fail> {
    let alloc = rt.alloc();
    let rules = nested(alloc, ("fix 1 ", "all ", "add \"a\" = ", ""), 255)?;
    let parts = nested(alloc, ("", "list ", "int", ""), 256)?;
    let text = joined(alloc, &[rules.as_str(), parts.as_str()])?;
    assert!(&rt; is_declaration(alloc, text.as_str())?);
    Ok(())
}

#[test]
fn fields_and_steps_have_no_limit(rt: HostRuntime) -> Result<(), Fail> {
    let alloc = rt.alloc();
    assert!(&rt; is_nested(alloc, ("type a = { ", "\"a\": int, ", ".. }", ""), 1000)?);
    assert!(&rt; is_nested(alloc, ("fix 1 deep ", "each ", ": lower", ""), 1000)?);
    Ok(())
}
