//! Lists of foci that are taken apart, and put together, part by part.
ghost use Rattle.std.specs.Prelude.{◌≡◌, ◌≤◌, ◌∷◌, ◌++◌, [], IfOk, OnOk, drop, length, reverse, take};

use mig_path::{Memory, Value};
use std::alloc::Global;

/// Takes the first values of a list that lies there in reverse.
pub fn take_front<'a>(
    alloc: Global,
    reversed: &mut Vec<Value<'a>>,
    count: usize,
) -> Result<Vec<Value<'a>>, Memory>
    requires { count ≤ length reversed.old.items }
    ensures front { IfOk result (λ list. list.items ≡ take count (reverse reversed.old.items)) }
    ensures back { OnOk result (reverse reversed.new.items ≡ drop count (reverse reversed.old.items)) }
{
    let mut list = Vec::with_capacity(alloc, count)?;
    for _ in 0..count {
        match reversed.pop() {
            Some(value) => list.push(value)?,
            None => unreachable!(),
        }
    }
    Ok(list)
}

/// Adds the foci of one more value, and what is left of it.
pub fn add_part<'a, G: Drop>(
    more: Vec<Value<'a>>,
    group: G,
    foci: &mut Vec<Value<'a>>,
    groups: &mut Vec<G>,
) -> Result<(), Memory>
    ensures foci { OnOk result (foci.new.items ≡ foci.old.items ++ more.entry.items) }
    ensures groups { OnOk result (groups.new.items ≡ groups.old.items ++ group ∷ []) }
{
    let mut more = more;
    foci.append(&mut more)?;
    groups.push(group)?;
    Ok(())
}
