//! A name and a tree are written as their canonical bytes.
ghost use Rattle.std.specs.Prelude.{◌≡◌, ◌++◌, ◌∷◌, [], ◌<◌, ◌≤◌, ◌^◌, ◌/◌, length, map, OnOk, IfOk};
ghost use Rattle.std.specs.Int.{w8, w16, w32, w64, to_be_bytes};
ghost use Rattle.mig_model.specs.declared.limits.TheConstants.{MOST_SAVE_BYTES};
ghost use Rattle.mig_tree.specs.View.{plain_of, entry_of};
ghost use Rattle.mig_model.specs.Plain.{trees_of, pairs_of};
ghost use Rattle.mig_nbt.specs.Format.{tag_number, NbtSave};
ghost use Rattle.mig_nbt.specs.Writing.{tag_of_plain, element_of, text_bytes, payload, payloads, tags, IsSpelled, AreSpelled, ArePairsSpelled, IsName, save_text};
ghost use Rattle.mig_model.specs.Kinds.{IsMap};
ghost use Rattle.mig_nbt.specs.Law.{RoundTrip, DecodeLaw, levels};

use crate::tag::Tag;
use mig_tree::{Entry, Memory, Tree};
use std::alloc::{AllocError, Global};

/// The number of the tag.
fn number_of(tag: Tag) -> u8
    ensures { result ≡ tag_number tag }
{
    match tag {
        Tag::End => 0,
        Tag::Byte => 1,
        Tag::Short => 2,
        Tag::Int => 3,
        Tag::Long => 4,
        Tag::Float => 5,
        Tag::Double => 6,
        Tag::ByteArray => 7,
        Tag::Text => 8,
        Tag::Items => 9,
        Tag::Compound => 10,
        Tag::IntArray => 11,
        Tag::LongArray => 12,
    }
}

/// The tag of the tree's payload.
fn tag_of_tree(tree: &Tree) -> Tag
    ensures { result ≡ tag_of_plain (plain_of tree.now) }
{
    match tree {
        Tree::Byte(_) => Tag::Byte,
        Tree::Short(_) => Tag::Short,
        Tree::Int(_) => Tag::Int,
        Tree::Long(_) => Tag::Long,
        Tree::Float(_) => Tag::Float,
        Tree::Double(_) => Tag::Double,
        Tree::Text(_) => Tag::Text,
        Tree::Bytes(_) => Tag::ByteArray,
        Tree::Ints(_) => Tag::IntArray,
        Tree::Longs(_) => Tag::LongArray,
        Tree::List(_) => Tag::Items,
        Tree::Map(_) => Tag::Compound,
        Tree::Null | Tree::Bool(_) | Tree::Whole(_) => Tag::End,
    }
}

/// The tag of the elements.
fn element_of(trees: &[Tree]) -> Tag
    ensures { result ≡ element_of (trees_of (map plain_of trees.now)) }
{
    match trees {
        [] => Tag::End,
        [first, ..] => tag_of_tree(first),
    }
}

/// Adds the length and the text.
fn write_text(out: &mut Vec<u8>, text: &[u8]) -> Result<(), AllocError>
    requires { length text.now < 2 ^ 16 }
    ensures { OnOk result (out.new.items ≡ out.old.items ++ text_bytes text.now) }
{
    out.extend_from_slice(&(text.len() as u16).to_be_bytes())?;
    out.extend_from_slice(text)
}

/// Adds the count and the array.
fn write_array(out: &mut Vec<u8>, count: u32, array: &[u8]) -> Result<(), AllocError>
    ensures { OnOk result (out.new.items ≡ out.old.items ++ (to_be_bytes w32 count ++ array.now)) }
{
    out.extend_from_slice(&count.to_be_bytes())?;
    out.extend_from_slice(array)
}

/// Adds the payload of the tree.
#[cycle(payload)]
fn write_payload(out: &mut Vec<u8>, tree: &Tree) -> Result<(), AllocError>
    requires { IsSpelled (plain_of tree.now) }
    ensures { OnOk result (out.new.items ≡ out.old.items ++ payload (plain_of tree.now)) }
{
    match tree {
        Tree::Byte(number) => out.extend_from_slice(&number.to_be_bytes()),
        Tree::Short(number) => out.extend_from_slice(&number.to_be_bytes()),
        Tree::Int(number) => out.extend_from_slice(&number.to_be_bytes()),
        Tree::Long(number) => out.extend_from_slice(&number.to_be_bytes()),
        Tree::Float(bits) => out.extend_from_slice(&bits.to_be_bytes()),
        Tree::Double(bits) => out.extend_from_slice(&bits.to_be_bytes()),
        Tree::Text(text) => write_text(out, text.bytes()),
        Tree::Bytes(array) => write_array(out, array.len() as u32, array),
        Tree::Ints(array) => write_array(out, (array.len() / 4) as u32, array),
        Tree::Longs(array) => write_array(out, (array.len() / 8) as u32, array),
        Tree::List(items) => {
            let trees = items.as_slice();
            out.push(number_of(element_of(trees)))?;
            out.extend_from_slice(&(trees.len() as u32).to_be_bytes())?;
            write_payloads(out, trees)
        }
        Tree::Map(entries) => write_tags(out, entries.as_slice()),
        Tree::Null | Tree::Bool(_) | Tree::Whole(_) => unreachable!(),
    }
}

/// Adds the payloads of the trees.
#[cycle(payload)]
fn write_payloads(out: &mut Vec<u8>, trees: &[Tree]) -> Result<(), AllocError>
    requires { AreSpelled (trees_of (map plain_of trees.now)) }
    ensures { OnOk result (out.new.items
        ≡ out.old.items ++ payloads (trees_of (map plain_of trees.now))) }
{
    for tree in trees {
        write_payload(out, tree)?;
    }
    Ok(())
}

/// Adds the named tags of the entries, and the tag End.
#[cycle(payload)]
fn write_tags(out: &mut Vec<u8>, entries: &[Entry]) -> Result<(), AllocError>
    requires { ArePairsSpelled (pairs_of (map entry_of entries.now)) }
    ensures { OnOk result (out.new.items
        ≡ out.old.items ++ tags (pairs_of (map entry_of entries.now))) }
{
    for entry in entries {
        out.push(number_of(tag_of_tree(&entry.tree)))?;
        write_text(out, entry.name.bytes())?;
        write_payload(out, &entry.tree)?;
    }
    out.push(0)?;
    Ok(())
}

/// The canonical text of a named map: names ascend by bytes, and the element number of an empty list is 0.
///
/// It has no limit of levels or bytes, but it is read again only within the reader's limits.
pub fn write(alloc: Global, name: &[u8], tree: &Tree) -> Result<Vec<u8>, Memory>
    requires name { IsName name.now }
    requires map { IsMap (plain_of tree.now) }
    requires spelled { IsSpelled (plain_of tree.now) }
    ensures text { IfOk result (λ out. out.items ≡ save_text name.now (plain_of tree.now)) }
    ensures reads_back { IfOk result (λ out. levels (plain_of tree.now) ≤ 512
        → length out.items ≤ MOST_SAVE_BYTES → NbtSave out.items name.now (plain_of tree.now)) }
{
    tree.keeps();
    let mut out = Vec::new(alloc);
    out.push(10)?;
    write_text(&mut out, name)?;
    write_payload(&mut out, tree)?;
    Ok(out)
}

/// The law between writing and reading: a spelled map within the reader's limits is what its canonical text stands for.
pub fn round_trip()
    ensures { RoundTrip }
{}

/// The law between the reading function and the relation: it gives a name and a tree exactly where the bytes are their file.
pub fn decoding()
    ensures { DecodeLaw }
{}
