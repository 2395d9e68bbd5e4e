//! The tree of a document, which lends its texts.
ghost use Rattle.std.specs.Prelude.{◌≡◌, IfOk};
ghost use Rattle.serde_json.specs.View.{view, items_view, members_view};
ghost use Rattle.mig_model.specs.Plain.{trees_of, pairs_of};
ghost use Rattle.mig_tree.specs.View.{plain_of};
ghost use Rattle.mig_json.specs.Save.{tree_of, trees_in, pairs_in};
ghost use Rattle.mig_json.specs.Kinds.{IsJson, AreJson, ArePairsJson};
ghost use Rattle.mig_json.specs.Lending.{Gives};

use crate::JsonError;
use mig_tree::{Entries, Entry, Items, Text, Tree};
use serde_json::{Map, Value};
use std::alloc::Global;

/// The tree of a value, whose names and texts the value lends. `Wrong` comes where a number is none of 64 bits signed.
#[cycle(lend)]
pub(crate) fn lend<'a>(alloc: Global, value: &'a Value) -> Result<Tree<'a>, JsonError>
    ensures tree { Gives plain_of result (tree_of (view value.now)) }
    ensures json { IfOk result (λ t. IsJson (plain_of t)) }
{
    match value {
        Value::Null => Ok(Tree::Null),
        Value::Bool(value) => Ok(Tree::Bool(*value)),
        Value::Number(number) => match number.as_i64() {
            Some(whole) => Ok(Tree::Whole(whole)),
            None => Err(JsonError::Wrong),
        },
        Value::String(text) => Ok(Tree::Text(Text::lent(text.as_str().as_bytes()))),
        Value::Array(items) => Ok(Tree::List(lend_items(alloc, items.as_slice())?)),
        Value::Object(members) => Ok(Tree::Map(lend_members(alloc, members)?)),
    }
}

#[cycle(lend)]
fn lend_items<'a>(alloc: Global, values: &'a [Value]) -> Result<Items<'a>, JsonError>
    ensures trees { Gives (λ ts. ts) result (trees_in (items_view values.now)) }
    ensures json { IfOk result (λ ts. AreJson (trees_of ts)) }
{
    let mut items = Items::empty(alloc);
    for value in values {
        items.push(lend(alloc, value)?)?;
    }
    Ok(items)
}

#[cycle(lend)]
fn lend_members<'a>(
    alloc: Global,
    members: &'a Map<String, Value>,
) -> Result<Entries<'a>, JsonError>
    ensures pairs { Gives (λ ps. ps) result (pairs_in (members_view members.now.entries)) }
    ensures json { IfOk result (λ ps. ArePairsJson (pairs_of ps)) }
{
    let mut list = Vec::new(alloc);
    for (key, member) in members.iter() {
        let name = Text::lent(key.as_str().as_bytes());
        name.keeps();
        let tree = lend(alloc, member)?;
        tree.keeps();
        list.push(Entry { name, tree })?;
    }
    let _len = list.len();
    Ok(Entries::new(list))
}
