//! Many texts of the same bytes, which lend them or have copies of them.
use mig_tree::Text;
use std::alloc::Global;

/// How many texts are made.
const TEXTS: usize = 1_000_000;

/// Makes texts that lend the bytes, and lets them go.
fn lend(alloc: Global, bytes: &[u8]) -> Option<usize> {
    let mut list = Vec::with_capacity(alloc, TEXTS).ok()?;
    for _ in 0..TEXTS {
        list.push(Text::lent(bytes)).ok()?;
    }
    Some(list.len())
}

/// Makes texts with copies of the bytes, and lets them go.
fn copy(alloc: Global, bytes: &[u8]) -> Option<usize> {
    let mut list = Vec::with_capacity(alloc, TEXTS).ok()?;
    for _ in 0..TEXTS {
        list.push(Text::copied(alloc, bytes).ok()?).ok()?;
    }
    Some(list.len())
}

/// Whether the texts were made.
pub fn are_made(alloc: Global, part: &str, bytes: &[u8]) -> bool {
    match part {
        "lend" => lend(alloc, bytes) == Some(TEXTS),
        "copy" => copy(alloc, bytes) == Some(TEXTS),
        _ => false,
    }
}
