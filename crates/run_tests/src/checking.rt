//! The command `check` on a text, compared with the line that is wanted.
use crate::running::status_of;
use mig_files::{MemoryFiles, MemorySink};
use std::alloc::Global;
use std::process::Abort;
use std::test::Fail;

/// The line that `check` puts for the text, with its status.
fn check_text(rt: &impl Abort, alloc: Global, text: &str, line: &str) -> Result<(), Fail> {
    let mut files = MemoryFiles::new(alloc);
    files.put(alloc, ".", "c.mig", text.as_bytes())?;
    let mut report = MemorySink::new(alloc);
    let status = status_of(rt, alloc, &["check", "c.mig"], &mut files, &mut report);
    let wanted = if line.starts_with("accepted") { 0 } else { 2 };
    assert!(rt; report.bytes() == line.as_bytes(), "{text} is not: {line}");
    assert_eq!(rt; status, wanted, "the status of {text}");
    Ok(())
}

/// The declarations, with what is given in place of the one of this number, counted from 1.
fn with_change(alloc: Global, chain: &[&str], number: usize, change: &str) -> Result<String, Fail> {
    let mut text = String::new(alloc);
    for (place, declaration) in chain.iter().enumerate() {
        if place + 1 == number {
            text.push_str(change)?;
        } else {
            text.push_str(declaration)?;
        }
        text.push_str("\n")?;
    }
    Ok(text)
}

/// Each text, and the line that is wanted.
pub fn check_texts(rt: &impl Abort, alloc: Global, table: &[(&str, &str)]) -> Result<(), Fail> {
    for (text, line) in table {
        check_text(rt, alloc, text, line)?;
    }
    Ok(())
}

/// Each row: the number of a declaration of the chain, what stands in its place, and the line that is wanted.
pub fn check_changes(
    rt: &impl Abort,
    alloc: Global,
    chain: &[&str],
    table: &[(usize, &str, &str)],
) -> Result<(), Fail> {
    for (number, change, line) in table {
        let text = with_change(alloc, chain, *number, change)?;
        check_text(rt, alloc, text.as_str(), line)?;
    }
    Ok(())
}

/// The chain with a declaration that is longer than a row: `front`, so many times `part`, and `back` in place of the one of the number.
pub fn check_repeated(
    rt: &impl Abort,
    alloc: Global,
    chain: &[&str],
    number: usize,
    parts: [&str; 4],
    times: usize,
    line: &str,
) -> Result<(), Fail> {
    let [front, part, middle, close] = parts;
    let mut change = String::from_str(alloc, front)?;
    for _ in 0..times {
        change.push_str(part)?;
    }
    change.push_str(middle)?;
    for _ in 0..times {
        change.push_str(close)?;
    }
    change.push_str(";")?;
    let text = with_change(alloc, chain, number, change.as_str())?;
    check_text(rt, alloc, text.as_str(), line)
}
