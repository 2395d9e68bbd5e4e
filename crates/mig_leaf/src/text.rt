//! Texts that leaf functions make.
ghost use Rattle.std.specs.Prelude.{◌≡◌, IfOk, map, unwrap_or};
ghost use Rattle.mig_model.specs.Kinds.{kind_of};
ghost use Rattle.mig_tree.specs.View.{plain_of};
ghost use Rattle.mig_model.specs.Leaf.{text_of, looked_up, prefixed, stripped, lower_byte};

use crate::Table;
use mig_tree::{Kind, Memory, Name, Text, Tree};
use std::alloc::Global;

/// How many bytes a text may have, since NBT writes its length in two bytes.
const TEXT_LIMIT: usize = 65_535;

/// The text of a tree that is one.
pub fn text_of<'a>(tree: Tree<'a>) -> Text<'a>
    requires { kind_of (plain_of tree) ≡ Kind.Text }
    ensures { result ≡ text_of (plain_of tree.entry) }
{
    match tree {
        Tree::Text(text) => text,
        _ => unreachable!(),
    }
}

/// What stands for the text in the table; else the text.
pub fn translated<'a>(alloc: Global, table: &Table, text: Text<'a>) -> Result<Text<'a>, Memory>
    ensures { IfOk result (λ t. t ≡ unwrap_or (looked_up table.now text.entry) text.entry) }
{
    match table.get(text.bytes()) {
        Some(bytes) => Text::copied(alloc, bytes),
        None => Ok(text),
    }
}

/// The prefix and then the text, where that is no longer than a text may be; else the text.
pub fn prefixed<'a>(alloc: Global, prefix: &Name, text: Text<'a>) -> Result<Text<'a>, Memory>
    ensures { IfOk result (λ t. t ≡ prefixed prefix.now text.entry) }
{
    let prefix = prefix.bytes();
    let len = prefix.len().saturating_add(text.bytes().len());
    if prefix.is_empty() || len > TEXT_LIMIT {
        return Ok(text);
    }
    let mut bytes = Vec::with_capacity(alloc, len)?;
    bytes.extend_from_slice(prefix)?;
    bytes.extend_from_slice(text.bytes())?;
    Ok(Text::own(bytes))
}

/// The text without the prefix at its front; else the text.
pub fn stripped<'a>(alloc: Global, prefix: &Name, text: Text<'a>) -> Result<Text<'a>, Memory>
    ensures { IfOk result (λ t. t ≡ stripped prefix.now text.entry) }
{
    let prefix = prefix.bytes();
    match text.bytes().strip_prefix(prefix) {
        Some(rest) if !prefix.is_empty() => Text::copied(alloc, rest),
        _ => Ok(text),
    }
}

/// The byte, in lower case where it is one of ASCII's upper-case letters.
fn lower_byte(byte: u8) -> u8
    ensures { result ≡ lower_byte byte }
{
    byte.to_ascii_lowercase()
}

/// The text with `a` for `A` and so on; other bytes stay.
pub fn lowered<'a>(alloc: Global, text: Text<'a>) -> Result<Text<'a>, Memory>
    ensures { IfOk result (λ t. t ≡ map lower_byte text.entry) }
{
    if !text.bytes().iter().any(|byte| byte.is_ascii_uppercase()) {
        return Ok(text);
    }
    let lower = text.bytes().iter().map(|byte| lower_byte(*byte));
    Ok(Text::own(lower.collect(alloc)?))
}
