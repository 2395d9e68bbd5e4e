//! Which values of `serde_json` are trees: every number in them is whole, of 64 bits.
ghost use Rattle.std.specs.Prelude.{◌≡◌, is_some};
ghost use Rattle.serde_json.specs.View.{view, items_view, members_view};
ghost use Rattle.mig_json.specs.Save.{tree_of, trees_in, pairs_in};

use serde_json::{Map, Value};

/// Whether each number of the value is a whole number of 64 bits signed, so that the value has a tree.
#[cycle(fits)]
pub(crate) fn fits(value: &Value) -> bool
    ensures { result ≡ is_some (tree_of (view value.now)) }
{
    match value {
        Value::Null | Value::Bool(_) | Value::String(_) => true,
        Value::Number(number) => number.as_i64().is_some(),
        Value::Array(items) => all_items_fit(items.as_slice()),
        Value::Object(members) => all_members_fit(members),
    }
}

#[cycle(fits)]
fn all_items_fit(values: &[Value]) -> bool
    ensures { result ≡ is_some (trees_in (items_view values.now)) }
{
    for value in values {
        if !fits(value) {
            return false;
        }
    }
    true
}

#[cycle(fits)]
fn all_members_fit(members: &Map<String, Value>) -> bool
    ensures { result ≡ is_some (pairs_in (members_view members.now.entries)) }
{
    for (_key, member) in members.iter() {
        if !fits(member) {
            return false;
        }
    }
    true
}
