//! Lists of one focus.
ghost use Rattle.std.specs.Prelude.{◌≡◌, ◌∷◌, [], IfOk, length};

use crate::{Memory, Value};
use std::alloc::Global;

/// The list of one value.
pub fn single<'a>(alloc: Global, value: Value<'a>) -> Result<Vec<Value<'a>>, Memory>
    ensures { IfOk result (λ list. list.items ≡ value.entry ∷ []) }
{
    let mut list = Vec::with_capacity(alloc, 1)?;
    list.push(value)?;
    Ok(list)
}

/// The value of a list of one.
pub fn only<'a>(list: Vec<Value<'a>>) -> Value<'a>
    requires { length list.items ≡ 1 }
    ensures { list.entry.items ≡ result ∷ [] }
{
    let mut list = list;
    match list.pop() {
        Some(value) => value,
        None => unreachable!(),
    }
}
