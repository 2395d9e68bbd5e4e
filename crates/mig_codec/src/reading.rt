//! Trees are read at templates, the first wrong place stopping it.
ghost use Rattle.std.specs.Prelude.{◌≡◌, [], Option, Some, true};
ghost use Rattle.mig_model.specs.Inhabits.{is_in_form, items_in_form, entries_in_form};
ghost use Rattle.mig_model.specs.Plain as plain;
ghost use Rattle.mig_model.specs.Plain.{trees_of, pairs_of};
ghost use Rattle.mig_model.specs.Place.{Place};
ghost use Rattle.mig_model.specs.Template as model;
ghost use Rattle.mig_model.specs.Record.{record_of};
ghost use Rattle.mig_template.specs.View.{template_of};
ghost use Rattle.mig_tree.specs.View.{plain_of, entry_of};
ghost use Rattle.mig_codec.specs.Parted.{HasTag, IsRow, Places, PlacesUnknown, ReadsRow, TagAt};
ghost use Rattle.mig_codec.specs.Reading.{IsPart, Reads, ReadsItems, ReadsNode, ReadsUnder, StopsAt};
ghost use Rattle.mig_row.specs.Row.{belongs, tagged};
ghost use Rattle.mig_row.specs.RowView.{row_view, missing_view, or_first, tag_place};

use crate::pieces::{Pieces, Placed};
use crate::stop::{Stop, below, below_name, stop_at, stop_here};
use mig_row::{Belongs, Row, earlier, row_of};
use mig_schema::Family;
use mig_template::{Record, Rest, Template};
use mig_tree::{Entries, Entry, Items, Name, Step, Text, Tree};
use mig_value::{Node, RecValue, Slot, Value, ValueBox, Values};
use std::alloc::Global;

/// Lets a tree go that is wrong where it stands.
fn wrong_tree(alloc: Global, tree: Tree) -> Stop
    ensures { StopsAt result (Some []) }
{
    drop(tree);
    stop_here(alloc)
}

/// The tag isn't a literal of the choice, nor another text that is kept.
fn no_literal(alloc: Global, schema: &Record) -> Stop
    ensures { StopsAt result (tag_place schema.now.choice) }
{
    match schema.choice() {
        Some(choice) => stop_at(alloc, choice.tag().bytes()),
        None => stop_here(alloc),
    }
}

/// What comes first: the missing name, or what stopped.
fn first_of(alloc: Global, missing: Option<&Name>, stop: Stop) -> Stop
    ensures { (o : Option Place) → StopsAt stop o → StopsAt result (or_first (missing_view missing.entry) o) }
{
    match (stop, missing) {
        (Stop::Wrong(steps), Some(name)) => {
            drop(steps);
            stop_at(alloc, name.bytes())
        }
        (stop, _) => stop,
    }
}

/// The text of the tag, where it is known to be one.
fn text_of<'a>(tree: Tree<'a>) -> Text<'a>
    requires { TagAt (plain_of tree) }
    ensures { plain_of tree.entry ≡ plain.text result }
{
    match tree {
        Tree::Text(text) => text,
        _ => unreachable!(),
    }
}

/// Reads a tree at a part of a body.
#[cycle(read)]
pub fn read_part<'a>(
    alloc: Global,
    family: &Family,
    template: &Template,
    tree: Tree<'a>,
) -> Result<Value<'a>, Stop>
    requires part { IsPart family.now (template_of template.now) }
    requires form { is_in_form family.now.form (plain_of tree) ≡ true }
    ensures { Reads family.now (template_of template.now) (plain_of tree.entry) result }
{
    match template {
        Template::Leaf(kind) => {
            if tree.kind() == *kind {
                Ok(Value::Atom(tree))
            } else {
                Err(wrong_tree(alloc, tree))
            }
        }
        Template::Any => Ok(Value::Atom(tree)),
        Template::List(part) => read_list(alloc, family, part.get(), tree),
        Template::Point(name) => {
            let node = read_node(alloc, family, name, tree)?;
            Ok(Value::Point(Box::new(alloc, node)?))
        }
        Template::Rec(schema) => read_map(alloc, family, schema, tree),
        Template::Sum(left, right) => read_sum(alloc, family, left.get(), right.get(), tree),
    }
}

/// Reads a list, each item at the part.
#[cycle(read)]
fn read_list<'a>(
    alloc: Global,
    family: &Family,
    part: &Template,
    tree: Tree<'a>,
) -> Result<Value<'a>, Stop>
    requires part { IsPart family.now (model.list (template_of part.now)) }
    requires form { is_in_form family.now.form (plain_of tree) ≡ true }
    ensures { Reads family.now (model.list (template_of part.now)) (plain_of tree.entry) result }
{
    match tree {
        Tree::List(items) => {
            let values = read_items(alloc, family, part, items)?;
            Ok(Value::List(values))
        }
        other => Err(wrong_tree(alloc, other)),
    }
}

/// Reads the items of a list.
#[cycle(read)]
fn read_items<'a>(
    alloc: Global,
    family: &Family,
    part: &Template,
    items: Items<'a>,
) -> Result<Values<'a>, Stop>
    requires part { IsPart family.now (template_of part.now) }
    requires form { items_in_form family.now.form (trees_of items) ≡ true }
    ensures { ReadsItems family.now (template_of part.now) items.entry result }
{
    let mut values = Vec::with_capacity(alloc, items.len())?;
    for item in items.into_vec() {
        match read_part(alloc, family, part, item) {
            Ok(value) => values.push(value)?,
            Err(stop) => return Err(below(Step::Index(values.len()), stop)),
        }
    }
    Ok(Values::new(values))
}

/// Reads a tree of a named type. Each point of a formed family names one.
#[cycle(read)]
fn read_node<'a>(
    alloc: Global,
    family: &Family,
    name: &Name,
    tree: Tree<'a>,
) -> Result<Node<'a>, Stop>
    requires { is_in_form family.now.form (plain_of tree) ≡ true }
    ensures { ReadsNode family.now name.now (plain_of tree.entry) result }
{
    family.keeps();
    let name_copy = name.copy(alloc)?;
    match family.body(name) {
        Some(body) => {
            let value = read_part(alloc, family, body, tree)?;
            Ok(Node::new(name_copy, value))
        }
        None => Ok(Node::new(name_copy, Value::Atom(tree))),
    }
}

/// Reads a tree at the side of a sum that has its kind.
#[cycle(read)]
fn read_sum<'a>(
    alloc: Global,
    family: &Family,
    left: &Template,
    right: &Template,
    tree: Tree<'a>,
) -> Result<Value<'a>, Stop>
    requires part { IsPart family.now (model.sum (template_of left.now) (template_of right.now)) }
    requires form { is_in_form family.now.form (plain_of tree) ≡ true }
    ensures { Reads family.now (model.sum (template_of left.now) (template_of right.now)) (plain_of tree.entry) result }
{
    let kind = tree.kind();
    if left.kinds(family.form()).has(kind) {
        let value = read_part(alloc, family, left, tree)?;
        return Ok(Value::Left(ValueBox::new(alloc, value)?));
    }
    if right.kinds(family.form()).has(kind) {
        let value = read_part(alloc, family, right, tree)?;
        return Ok(Value::Right(ValueBox::new(alloc, value)?));
    }
    Err(wrong_tree(alloc, tree))
}

/// Reads a map at a record.
#[cycle(read)]
fn read_map<'a>(
    alloc: Global,
    family: &Family,
    schema: &Record,
    tree: Tree<'a>,
) -> Result<Value<'a>, Stop>
    requires part { IsPart family.now (record_of schema.now) }
    requires form { is_in_form family.now.form (plain_of tree) ≡ true }
    ensures { Reads family.now (record_of schema.now) (plain_of tree.entry) result }
{
    match tree {
        Tree::Map(entries) => {
            schema.keeps();
            match row_of(schema, &entries) {
                Some(row) => {
                    let parts = read_row(alloc, family, &row, entries)?;
                    Ok(Value::Rec(parts))
                }
                None => Err(no_literal(alloc, schema)),
            }
        }
        other => Err(wrong_tree(alloc, other)),
    }
}

/// Reads the pairs of a map, each where its name belongs.
#[cycle(read)]
fn read_row<'a>(
    alloc: Global,
    family: &Family,
    row: &Row,
    entries: Entries<'a>,
) -> Result<RecValue<'a>, Stop>
    requires row { IsRow family.now (row_view row.now) }
    requires tag { HasTag (row_view row.now).tag entries }
    requires form { entries_in_form family.now.form (pairs_of entries) ≡ true }
    ensures { ReadsRow family.now (row_view row.now) entries.entry result }
{
    let missing = row.missing(&entries);
    let mut pieces = Pieces::new(alloc);
    for entry in entries.into_vec() {
        let before = earlier(missing, entry.name.bytes());
        match read_entry(alloc, family, row, entry) {
            Ok(placed) => pieces.add(placed)?,
            Err(stop) => return Err(first_of(alloc, before, stop)),
        }
    }
    match missing {
        Some(name) => Err(stop_at(alloc, name.bytes())),
        None => {
            let parts = pieces.into_record(alloc)?;
            Ok(parts)
        }
    }
}

/// Reads one pair of a map.
#[cycle(read)]
fn read_entry<'a>(
    alloc: Global,
    family: &Family,
    row: &Row,
    entry: Entry<'a>,
) -> Result<Placed<'a>, Stop>
    requires row { IsRow family.now (row_view row.now) }
    requires tag { belongs (row_view row.now) entry.name ≡ tagged → TagAt (plain_of entry.tree) }
    requires form { is_in_form family.now.form (plain_of entry.tree) ≡ true }
    ensures { Places family.now (row_view row.now) entry.entry.name (plain_of entry.entry.tree) result }
{
    let Entry { name, tree } = entry;
    match row.belongs(name.bytes()) {
        Belongs::Common(template) => {
            let value = read_under(alloc, family, template, name.bytes(), tree)?;
            Ok(Placed::Field(Slot { name, value }))
        }
        Belongs::Tagged => Ok(Placed::Tag(name, text_of(tree))),
        Belongs::Cased(template) => {
            let value = read_under(alloc, family, template, name.bytes(), tree)?;
            Ok(Placed::Cased(Slot { name, value }))
        }
        Belongs::Unknown => place_unknown(alloc, row.rest, name, tree),
    }
}

/// Takes an unknown name in where the rest is open.
fn place_unknown<'a>(
    alloc: Global,
    rest: Rest,
    name: Text<'a>,
    tree: Tree<'a>,
) -> Result<Placed<'a>, Stop>
    ensures { PlacesUnknown rest name.entry (plain_of tree.entry) result }
{
    match rest {
        Rest::Open => Ok(Placed::Unknown(Slot {
            name,
            value: Value::Atom(tree),
        })),
        Rest::Closed => {
            drop(tree);
            Err(stop_at(alloc, name.bytes()))
        }
    }
}

/// Reads the tree under a name of a map.
#[cycle(read)]
fn read_under<'a>(
    alloc: Global,
    family: &Family,
    template: &Template,
    name: &[u8],
    tree: Tree<'a>,
) -> Result<Value<'a>, Stop>
    requires part { IsPart family.now (template_of template.now) }
    requires form { is_in_form family.now.form (plain_of tree) ≡ true }
    ensures { ReadsUnder family.now (template_of template.now) name.now (plain_of tree.entry) result }
{
    match read_part(alloc, family, template, tree) {
        Ok(value) => Ok(value),
        Err(stop) => Err(below_name(alloc, name, stop)),
    }
}
