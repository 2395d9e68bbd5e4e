//! Both sides of limits that a row of a table is too short for.
use crate::chains::{FOLLOWING, IDLE, KEPT};
use crate::checking::{check_repeated, check_texts};
use std::alloc::Global;
use std::test::Fail;

#[test]
fn levels_and_lengths(rt: HostRuntime) -> Result<(), Fail> {
    let alloc = rt.alloc();
    // a string of 1,024 bytes
    check_repeated(
        &rt,
        alloc,
        FOLLOWING,
        6,
        ["fix 101 rename \"name\" \"", "n", "\"", ""],
        1024,
        "accepted 2 schemas 1 fixes\n",
    )?;
    // a string of 1,025 bytes
    check_repeated(
        &rt,
        alloc,
        FOLLOWING,
        6,
        ["fix 101 rename \"name\" \"", "n", "\"", ""],
        1025,
        "chain: declaration 6\n",
    )?;
    // 256 levels of rules
    check_repeated(
        &rt,
        alloc,
        FOLLOWING,
        6,
        ["fix 101 ", "on player ", "nop", ""],
        255,
        "accepted 2 schemas 1 fixes\n",
    )?;
    // 257 levels of rules
    check_repeated(
        &rt,
        alloc,
        FOLLOWING,
        6,
        ["fix 101 ", "on player ", "nop", ""],
        256,
        "chain: declaration 6\n",
    )?;
    // 64 templates deep
    check_repeated(
        &rt,
        alloc,
        IDLE,
        4,
        ["type player = ", "{ \"a\": ", "int", " }"],
        63,
        "accepted 2 schemas 1 fixes\n",
    )?;
    // 65 templates deep
    check_repeated(
        &rt,
        alloc,
        IDLE,
        4,
        ["type player = ", "{ \"a\": ", "int", " }"],
        64,
        "chain: fault 10 at 3\n",
    )?;
    // a newtype 64 deep
    check_repeated(
        &rt,
        alloc,
        IDLE,
        6,
        ["fix 101 newtype x = ", "{ \"a\": ", "int", " }"],
        63,
        "accepted 2 schemas 1 fixes\n",
    )?;
    // a newtype 65 deep
    check_repeated(
        &rt,
        alloc,
        IDLE,
        6,
        ["fix 101 newtype x = ", "{ \"a\": ", "int", " }"],
        64,
        "chain: fault 10 at 6\n",
    )?;
    // a fill 64 deep, in a record
    check_repeated(
        &rt,
        alloc,
        IDLE,
        6,
        ["fix 101 add \"x\" = list ", "{ \"a\": ", "int", " }"],
        62,
        "chain: fault 13 at 6\n",
    )?;
    // a fill 65 deep
    check_repeated(
        &rt,
        alloc,
        IDLE,
        6,
        ["fix 101 add \"x\" = list ", "{ \"a\": ", "int", " }"],
        63,
        "chain: fault 10 at 6\n",
    )?;
    // a field of addcase 65 deep
    check_repeated(
        &rt,
        alloc,
        KEPT,
        7,
        [
            "fix 2 on block addcase \"s\" { \"l\": ",
            "{ \"a\": ",
            "text }",
            " }",
        ],
        64,
        "chain: fault 10 at 7\n",
    )?;
    Ok(())
}

/// A schema of so many types.
fn many_types(alloc: Global, count: usize) -> Result<String, Fail> {
    let mut text = String::from_str(alloc, "form nbt; version \"v\"; schema 1; root t0;")?;
    for number in 0..count {
        let one = format!(in alloc; "type t{number} = {{ .. }};")?;
        text.push_str(one.as_str())?;
    }
    Ok(text)
}

#[test]
fn as_many_types_as_may_be(rt: HostRuntime) -> Result<(), Fail> {
    let alloc = rt.alloc();
    let most = many_types(alloc, 512)?;
    let more = many_types(alloc, 513)?;
    check_texts(
        &rt,
        alloc,
        &[
            (most.as_str(), "accepted 1 schemas 0 fixes\n"),
            (more.as_str(), "chain: fault 10 at 3\n"),
        ],
    )
}

/// A chain whose schemas are those from 100 to before `end`.
fn many_schemas(alloc: Global, end: usize) -> Result<String, Fail> {
    let mut text = String::from_str(
        alloc,
        "form nbt; version \"v\"; schema 100; type p = { .. }; root p;",
    )?;
    for version in 101..end {
        let one = format!(in alloc; "schema {version} follows;")?;
        text.push_str(one.as_str())?;
    }
    Ok(text)
}

/// A chain of so many fixes that do nothing.
fn many_fixes(alloc: Global, count: usize) -> Result<String, Fail> {
    let mut text = String::from_str(
        alloc,
        "form nbt; version \"v\"; schema 100; type p = { .. }; root p;",
    )?;
    for _ in 0..count {
        text.push_str("fix 101 nop;")?;
    }
    text.push_str("schema 101 follows;")?;
    Ok(text)
}

#[test]
fn as_many_schemas_and_fixes_as_may_be(rt: HostRuntime) -> Result<(), Fail> {
    let alloc = rt.alloc();
    let schemas = many_schemas(alloc, 1124)?;
    let more_schemas = many_schemas(alloc, 1125)?;
    let fixes = many_fixes(alloc, 4096)?;
    let more_fixes = many_fixes(alloc, 4097)?;
    check_texts(
        &rt,
        alloc,
        &[
            (schemas.as_str(), "accepted 1024 schemas 0 fixes\n"),
            (more_schemas.as_str(), "chain: fault 4 at 1029\n"),
            (fixes.as_str(), "accepted 2 schemas 4096 fixes\n"),
            (more_fixes.as_str(), "chain: fault 4 at 4102\n"),
        ],
    )
}
