//! The tree of a value, whose nodes are entered one after another.
ghost use Rattle.std.specs.Prelude.{◌≡◌, ◌+◌, ◌≤◌, ◌++◌, IfOk, OnOk, map, IsTrue};
ghost use Rattle.mig_model.specs.Plain.{pairs_of, trees_of};
ghost use Rattle.mig_model.specs.Plain as plain;
ghost use Rattle.mig_tree.specs.View.{plain_of, entry_of};
ghost use Rattle.mig_value.specs.Typed.{out, out_items, out_slots, items_of, slots_of, tag_pair};
ghost use Rattle.mig_value.specs.Parts.{record_of};
ghost use Rattle.mig_value.specs.View.{typed_of, slot_of};
ghost use Rattle.mig_value.specs.Nodes.{every, nodes};
ghost use Rattle.mig_write.specs.Lists.{item_nodes, slot_nodes, record_nodes, pairs_in, AddsSlots};

use mig_tree::{Entries, Entry, Items, Memory, Steps, Text, Tree, gather};
use mig_value::{RecValue, Slot, Value};
use std::alloc::Global;
use std::sync::ledger::Ledger;

/// The tree of the value. Each node in it is entered once; texts and arrays are moved.
#[cycle(write)]
pub fn write<'a, L: Ledger>(
    alloc: Global,
    value: Value<'a>,
    steps: &mut Steps<L>,
) -> Result<Tree<'a>, Memory>
    ensures tree { IfOk result (λ t. plain_of t ≡ out (typed_of value.entry)) }
    ensures exact { OnOk result (steps.new ≡ steps.old + nodes every (typed_of value.entry)) }
    ensures count { steps.new ≤ steps.old + nodes every (typed_of value.entry) }
    ensures grows { steps.old ≤ steps.new }
{
    match value {
        Value::Atom(tree) => Ok(tree),
        Value::List(values) => {
            let items = write_items(alloc, values.into_vec(), steps)?;
            Ok(Tree::List(items))
        }
        Value::Left(value) | Value::Right(value) => write(alloc, value.into_value(), steps),
        Value::Rec(parts) => {
            let entries = write_record(alloc, parts, steps)?;
            Ok(Tree::Map(entries))
        }
        Value::Point(node) => {
            let body = Box::into_inner(node).enter(steps);
            write(alloc, body, steps)
        }
    }
}

/// The trees of the items.
#[cycle(write)]
fn write_items<'a, L: Ledger>(
    alloc: Global,
    values: Vec<Value<'a>>,
    steps: &mut Steps<L>,
) -> Result<Items<'a>, Memory>
    ensures trees { IfOk result (λ ts. trees_of ts ≡ out_items (items_of (map typed_of values.entry.items))) }
    ensures exact { OnOk result (steps.new ≡ steps.old + item_nodes every (map typed_of values.entry.items)) }
    ensures count { steps.new ≤ steps.old + item_nodes every (map typed_of values.entry.items) }
    ensures grows { steps.old ≤ steps.new }
{
    let mut list = Vec::with_capacity(alloc, values.len())?;
    for value in values {
        let tree = write(alloc, value, steps)?;
        tree.keeps();
        list.push(tree)?;
    }
    Ok(Items::new(list))
}

/// Puts the pairs of the slots behind those that are there.
#[cycle(write)]
fn write_slots<'a, L: Ledger>(
    alloc: Global,
    list: &mut Vec<Entry<'a>>,
    slots: Vec<Slot<'a>>,
    steps: &mut Steps<L>,
) -> Result<(), Memory>
    ensures pairs { OnOk result (AddsSlots list.old.items slots.entry.items list.new.items) }
    ensures exact { OnOk result (steps.new ≡ steps.old + slot_nodes every (map slot_of slots.entry.items)) }
    ensures count { steps.new ≤ steps.old + slot_nodes every (map slot_of slots.entry.items) }
    ensures grows { steps.old ≤ steps.new }
{
    for slot in slots {
        let Slot { name, value } = slot;
        let tree = write(alloc, value, steps)?;
        list.push(Entry { name, tree })?;
    }
    Ok(())
}

/// Puts the tag's pair behind those that are there.
fn write_tag<'a>(list: &mut Vec<Entry<'a>>, tag: Option<(Text<'a>, Text<'a>)>) -> Result<(), Memory>
    ensures { OnOk result (map entry_of list.new.items ≡ map entry_of list.old.items ++ tag_pair tag.entry) }
{
    if let Some((name, literal)) = tag {
        let tree = Tree::Text(literal);
        list.push(Entry { name, tree })?;
    }
    Ok(())
}

/// Room for the pairs of a record: those of the lists, and one for a tag.
fn room(fields: &[Slot], cased: &[Slot], rest: &[Slot]) -> usize {
    fields.len() + cased.len() + rest.len() + 1
}

/// All pairs of the record, list by list.
#[cycle(write)]
fn write_parts<'a, L: Ledger>(
    alloc: Global,
    parts: RecValue<'a>,
    steps: &mut Steps<L>,
) -> Result<Vec<Entry<'a>>, Memory>
    ensures pairs { IfOk result (λ list. map entry_of list.items ≡ pairs_in parts.entry) }
    ensures exact { OnOk result (steps.new ≡ steps.old + record_nodes every parts.entry) }
    ensures count { steps.new ≤ steps.old + record_nodes every parts.entry }
    ensures grows { steps.old ≤ steps.new }
{
    let (fields, tag, cased, rest) = parts.into_parts(alloc);
    let fields = fields.into_vec();
    let cased = cased.into_vec();
    let rest = rest.into_vec();
    let mut list = Vec::with_capacity(alloc, room(&fields, &cased, &rest))?;
    write_slots(alloc, &mut list, fields, steps)?;
    write_tag(&mut list, tag)?;
    write_slots(alloc, &mut list, cased, steps)?;
    write_slots(alloc, &mut list, rest, steps)?;
    Ok(list)
}

/// The map of all pairs of the record, in the order of their names.
#[cycle(write)]
fn write_record<'a, L: Ledger>(
    alloc: Global,
    parts: RecValue<'a>,
    steps: &mut Steps<L>,
) -> Result<Entries<'a>, Memory>
    ensures map { IfOk result (λ ps. plain.map (pairs_of ps) ≡ out (record_of parts.entry)) }
    ensures exact { OnOk result (steps.new ≡ steps.old + record_nodes every parts.entry) }
    ensures count { steps.new ≤ steps.old + record_nodes every parts.entry }
    ensures grows { steps.old ≤ steps.new }
{
    parts.keeps();
    let list = write_parts(alloc, parts, steps)?;
    match gather(list) {
        Some(entries) => Ok(entries),
        None => unreachable!(),
    }
}
