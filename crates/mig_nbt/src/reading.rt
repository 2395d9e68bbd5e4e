//! Bytes are read as a name and a tree, from left to right.
ghost use Rattle.std.specs.Prelude.{IfOk, Err, ℕ, List, map, ◌≡◌, ◌+◌, ◌*◌, ◌^◌, ◌<◌, ◌≤◌, length, IsTrue, ◌↔◌, Some, None};
ghost use Rattle.std.specs.Int.{w8, w16, w32, w64};
ghost use Rattle.mig_nbt.specs.Reading.{Gives, are_groups, still_to_come, is_more, number_at, tag_of, tag_at, text_at, array_at, leaf_at, payload_at, payloads_at, list_at, tags_at, map_at, save_at};
ghost use Rattle.mig_nbt.specs.Format.{NbtSave};
ghost use Rattle.mig_model.specs.Plain.{Plain};
ghost use Rattle.mig_model.specs.Kinds.{IsMap};
ghost use Rattle.mig_nbt.specs.Writing.{IsName, IsSpelled};
ghost use Rattle.mig_tree.specs.View.{plain_of, entry_of};

use crate::error::NbtError;
use crate::tag::Tag;
use mig_model::MOST_SAVE_BYTES;
use mig_tree::{Entry, Items, Text, Tree, gather};
use std::alloc::Global;

/// A byte, and what is behind it.
fn u8_at(bytes: &[u8]) -> Result<(u8, &[u8]), NbtError>
    ensures { Gives (λ x. (x.0, x.1.now)) result (number_at w8 bytes.now) }
{
    match bytes {
        [] => Err(NbtError::Wrong),
        [number, rest @ ..] => Ok((*number, rest)),
    }
}

/// A number of two bytes, and what is behind it.
fn u16_at(bytes: &[u8]) -> Result<(u16, &[u8]), NbtError>
    ensures { Gives (λ x. (x.0, x.1.now)) result (number_at w16 bytes.now) }
{
    if bytes.len() < 2 {
        return Err(NbtError::Wrong);
    }
    let (front, rest) = bytes.split_at(2);
    Ok((u16::from_be_bytes([front[0], front[1]]), rest))
}

/// A number of four bytes, and what is behind it.
fn u32_at(bytes: &[u8]) -> Result<(u32, &[u8]), NbtError>
    ensures { Gives (λ x. (x.0, x.1.now)) result (number_at w32 bytes.now) }
{
    if bytes.len() < 4 {
        return Err(NbtError::Wrong);
    }
    let (front, rest) = bytes.split_at(4);
    let number = u32::from_be_bytes([front[0], front[1], front[2], front[3]]);
    Ok((number, rest))
}

/// A number of eight bytes, and what is behind it.
fn u64_at(bytes: &[u8]) -> Result<(u64, &[u8]), NbtError>
    ensures { Gives (λ x. (x.0, x.1.now)) result (number_at w64 bytes.now) }
{
    if bytes.len() < 8 {
        return Err(NbtError::Wrong);
    }
    let (front, rest) = bytes.split_at(8);
    let number = u64::from_be_bytes([
        front[0], front[1], front[2], front[3], front[4], front[5], front[6], front[7],
    ]);
    Ok((number, rest))
}

/// The tag of the number, where there is one.
fn tag_of(number: u8) -> Option<Tag>
    ensures { result ≡ tag_of number }
{
    match number {
        0 => Some(Tag::End),
        1 => Some(Tag::Byte),
        2 => Some(Tag::Short),
        3 => Some(Tag::Int),
        4 => Some(Tag::Long),
        5 => Some(Tag::Float),
        6 => Some(Tag::Double),
        7 => Some(Tag::ByteArray),
        8 => Some(Tag::Text),
        9 => Some(Tag::Items),
        10 => Some(Tag::Compound),
        11 => Some(Tag::IntArray),
        12 => Some(Tag::LongArray),
        _ => None,
    }
}

/// A tag by its number, and what is behind it.
#[tactic(auto, unfolding(crate::specs::Reading::tag_at))]
fn tag_at(bytes: &[u8]) -> Result<(Tag, &[u8]), NbtError>
    ensures { Gives (λ x. (x.0, x.1.now)) result (tag_at bytes.now) }
{
    match bytes {
        [] => Err(NbtError::Wrong),
        [number, rest @ ..] => match tag_of(*number) {
            None => Err(NbtError::Wrong),
            Some(tag) => Ok((tag, rest)),
        },
    }
}

/// A count that isn't negative, that many elements of so many bytes, and what is behind them.
#[tactic(auto, unfolding(crate::specs::Reading::array_at))]
fn array_at(size: usize, bytes: &[u8]) -> Result<(&[u8], &[u8]), NbtError>
    requires { size ≤ 8 }
    ensures { Gives (λ x. (x.0.now, x.1.now)) result (array_at size bytes.now) }
{
    let (count, rest) = u32_at(bytes)?;
    if count >= 0x8000_0000 {
        return Err(NbtError::Wrong);
    }
    let len = count as usize * size;
    if rest.len() < len {
        return Err(NbtError::Wrong);
    }
    Ok(rest.split_at(len))
}

/// Whether the text is of whole groups.
fn are_groups(text: &[u8]) -> bool
    ensures { result ≡ are_groups text.now }
{
    let mut pending = 0;
    for byte in text {
        match still_to_come(pending, *byte) {
            None => return false,
            Some(count) => pending = count,
        }
    }
    pending == 0
}

/// How many more bytes a group has behind this byte.
fn still_to_come(pending: u8, byte: u8) -> Option<u8>
    ensures { result ≡ still_to_come pending byte }
{
    if pending > 0 {
        return if is_more(byte) {
            Some(pending - 1)
        } else {
            None
        };
    }
    if byte < 0x80 {
        Some(0)
    } else if byte >= 0xc0 && byte < 0xe0 {
        Some(1)
    } else if byte >= 0xe0 && byte < 0xf0 {
        Some(2)
    } else {
        None
    }
}

/// Whether the byte is one behind the first of a group.
fn is_more(byte: u8) -> bool
    ensures { result ≡ is_more byte }
{
    byte >= 0x80 && byte < 0xc0
}

/// A text behind its length, and what is behind it.
#[tactic(auto, unfolding(crate::specs::Reading::text_at))]
fn text_at(bytes: &[u8]) -> Result<(&[u8], &[u8]), NbtError>
    ensures { Gives (λ x. (x.0.now, x.1.now)) result (text_at bytes.now) }
{
    let (len, rest) = u16_at(bytes)?;
    let len = len as usize;
    if rest.len() < len {
        return Err(NbtError::Wrong);
    }
    let (text, rest) = rest.split_at(len);
    if !are_groups(text) {
        return Err(NbtError::Wrong);
    }
    Ok((text, rest))
}

/// A payload with nothing inside.
/// A payload with nothing inside, and what is behind it.
#[tactic(auto, unfolding(crate::specs::Reading::leaf_at))]
fn leaf_at(tag: Tag, bytes: &[u8]) -> Result<(Tree, &[u8]), NbtError>
    ensures { Gives (λ x. (plain_of x.0, x.1.now)) result (leaf_at tag bytes.now) }
{
    match tag {
        Tag::Byte => {
            let (number, rest) = u8_at(bytes)?;
            Ok((Tree::Byte(number.cast_signed()), rest))
        }
        Tag::Short => {
            let (number, rest) = u16_at(bytes)?;
            Ok((Tree::Short(number.cast_signed()), rest))
        }
        Tag::Int => {
            let (number, rest) = u32_at(bytes)?;
            Ok((Tree::Int(number.cast_signed()), rest))
        }
        Tag::Long => {
            let (number, rest) = u64_at(bytes)?;
            Ok((Tree::Long(number.cast_signed()), rest))
        }
        Tag::Float => {
            let (number, rest) = u32_at(bytes)?;
            Ok((Tree::Float(number), rest))
        }
        Tag::Double => {
            let (number, rest) = u64_at(bytes)?;
            Ok((Tree::Double(number), rest))
        }
        Tag::Text => {
            let (text, rest) = text_at(bytes)?;
            Ok((Tree::Text(Text::lent(text)), rest))
        }
        Tag::ByteArray => {
            let (array, rest) = array_at(1, bytes)?;
            Ok((Tree::Bytes(array), rest))
        }
        Tag::IntArray => {
            let (array, rest) = array_at(4, bytes)?;
            Ok((Tree::Ints(array), rest))
        }
        Tag::LongArray => {
            let (array, rest) = array_at(8, bytes)?;
            Ok((Tree::Longs(array), rest))
        }
        Tag::End | Tag::Items | Tag::Compound => Err(NbtError::Wrong),
    }
}

/// A payload in which lists and compounds nest at most so many levels deep.
/// A payload in which lists and compounds nest at most so many levels deep, and what is behind it.
#[cycle(payload)]
#[tactic(auto, unfolding(crate::specs::Reading::payload_at))]
fn payload_at<'a>(
    alloc: Global,
    levels: u32,
    tag: Tag,
    bytes: &'a [u8],
) -> Result<(Tree<'a>, &'a [u8]), NbtError>
    ensures { Gives (λ x. (plain_of x.0, x.1.now)) result (payload_at levels tag bytes.now) }
{
    match tag {
        Tag::Items => {
            if levels == 0 {
                return Err(NbtError::Wrong);
            }
            list_at(alloc, levels - 1, bytes)
        }
        Tag::Compound => {
            if levels == 0 {
                return Err(NbtError::Wrong);
            }
            map_at(alloc, levels - 1, bytes)
        }
        _ => leaf_at(tag, bytes),
    }
}

/// A list, whose elements are of one tag, and what is behind it.
#[cycle(payload)]
#[tactic(auto, unfolding(crate::specs::Reading::list_at))]
fn list_at<'a>(
    alloc: Global,
    levels: u32,
    bytes: &'a [u8],
) -> Result<(Tree<'a>, &'a [u8]), NbtError>
    ensures { Gives (λ x. (plain_of x.0, x.1.now)) result (list_at (payload_at levels) bytes.now) }
{
    let (element, rest) = tag_at(bytes)?;
    let (count, rest) = u32_at(rest)?;
    if count >= 0x8000_0000 {
        return Err(NbtError::Wrong);
    }
    let (items, rest) = payloads_at(alloc, levels, element, count, rest)?;
    Ok((Tree::List(items), rest))
}

/// So many payloads of the tag, and what is behind them.
#[cycle(payload)]
fn payloads_at<'a>(
    alloc: Global,
    levels: u32,
    element: Tag,
    count: u32,
    bytes: &'a [u8],
) -> Result<(Items<'a>, &'a [u8]), NbtError>
    ensures { Gives (λ x. (x.0, x.1.now)) result
        (payloads_at (payload_at levels element) count bytes.now) }
{
    let mut items = Items::empty(alloc);
    let mut rest = bytes;
    for _ in 0..count {
        let (tree, after) = payload_at(alloc, levels, element, rest)?;
        items.push(tree)?;
        rest = after;
    }
    Ok((items, rest))
}

/// A compound whose names are distinct, and what is behind it.
#[cycle(payload)]
#[tactic(auto, unfolding(crate::specs::Reading::map_at))]
fn map_at<'a>(alloc: Global, levels: u32, bytes: &'a [u8]) -> Result<(Tree<'a>, &'a [u8]), NbtError>
    ensures { Gives (λ x. (plain_of x.0, x.1.now)) result (map_at (payload_at levels) bytes.now) }
{
    let (list, rest) = tags_at(alloc, levels, bytes)?;
    match gather(list) {
        Some(entries) => Ok((Tree::Map(entries), rest)),
        None => Err(NbtError::Wrong),
    }
}

/// The named tags in the order of the file. Each takes a byte at least, so the count of the bytes bounds the turns.
/// Named tags up to the tag End, and what is behind it.
#[cycle(payload)]
fn tags_at<'a>(
    alloc: Global,
    levels: u32,
    bytes: &'a [u8],
) -> Result<(Vec<Entry<'a>>, &'a [u8]), NbtError>
    ensures { Gives (λ x. (map entry_of x.0.items, x.1.now)) result
        (tags_at (payload_at levels) (length bytes.now) bytes.now) }
{
    let mut list = Vec::new(alloc);
    let mut rest = bytes;
    for _ in 0..bytes.len() {
        let (tag, after) = tag_at(rest)?;
        if let Tag::End = tag {
            return Ok((list, after));
        }
        let (name, after) = text_at(after)?;
        let (tree, after) = payload_at(alloc, levels, tag, after)?;
        list.push(Entry {
            name: Text::lent(name),
            tree,
        })?;
        rest = after;
    }
    Err(NbtError::Wrong)
}

/// The name and the tree of a file.
/// One named compound and nothing behind it.
#[tactic(auto, unfolding(crate::specs::Reading::save_at))]
fn save_at(alloc: Global, bytes: &[u8]) -> Result<(Text, Tree), NbtError>
    ensures { Gives (λ x. (x.0, plain_of x.1)) result (save_at bytes.now) }
{
    if bytes.len() > MOST_SAVE_BYTES {
        return Err(NbtError::Wrong);
    }
    let (tag, rest) = tag_at(bytes)?;
    let Tag::Compound = tag else {
        return Err(NbtError::Wrong);
    };
    let (name, rest) = text_at(rest)?;
    let (tree, rest) = payload_at(alloc, 512, Tag::Compound, rest)?;
    if rest.len() > 0 {
        return Err(NbtError::Wrong);
    }
    Ok((Text::lent(name), tree))
}

/// The name and the tree of a file. `Wrong` comes exactly where the bytes are no file.
pub fn read(alloc: Global, bytes: &[u8]) -> Result<(Text, Tree), NbtError>
    ensures found { IfOk result (λ x. NbtSave bytes.now x.0 (plain_of x.1)) }

    // What is read can be written.
    ensures spelled { IfOk result (λ x. IsName x.0 × IsMap (plain_of x.1) × IsSpelled (plain_of x.1)) }
    ensures wrong { result ≡ Err NbtError.Wrong → (name : List ℕ) (t : Plain) → NbtSave bytes.now name t → ⊥ }

    // A file is of one name and tree alone.
    ensures only { IfOk result (λ x. (name : List ℕ) (t : Plain) → NbtSave bytes.now name t
        → (name ≡ x.0) × (t ≡ plain_of x.1)) }
{
    save_at(alloc, bytes)
}
