//! Whole numbers: their ranges, and their texts.
ghost use Rattle.std.specs.Prelude.{◌≡◌, ◌↔◌, ◌&&◌, ℤ, int_le, IsTrue, IfOk, IfSome, Some, FitsSigned};
ghost use Rattle.std.specs.Int.{w64};
ghost use Rattle.std.specs.Fmt.{signed_decimal};
ghost use Rattle.mig_model.specs.Kinds.{kind_of};
ghost use Rattle.mig_tree.specs.View.{plain_of};
ghost use Rattle.mig_leaf.specs.Spelling.{BeginsPlain};
ghost use Rattle.mig_model.specs.Leaf.{is_whole_number, least, greatest, is_in, clamped, number_tree, number_of, spells, spelled};

use mig_tree::{Kind, Memory, Text, Tree};
use std::alloc::Global;

/// Whether trees of the kind are whole numbers.
pub fn is_whole_number(kind: Kind) -> bool
    ensures { result ≡ is_whole_number kind }
{
    matches!(
        kind,
        Kind::Byte | Kind::Short | Kind::Int | Kind::Long | Kind::Whole
    )
}

/// The least and the greatest number of a whole-number kind.
fn range(kind: Kind) -> (i64, i64)
    requires { IsTrue (is_whole_number kind) }
    ensures { result ≡ (least kind, greatest kind) }
{
    match kind {
        Kind::Byte => (i64::from(i8::MIN), i64::from(i8::MAX)),
        Kind::Short => (i64::from(i16::MIN), i64::from(i16::MAX)),
        Kind::Int => (i64::from(i32::MIN), i64::from(i32::MAX)),
        _ => (i64::MIN, i64::MAX),
    }
}

/// Whether a whole-number kind has the number.
fn is_in(kind: Kind, number: i64) -> bool
    requires { IsTrue (is_whole_number kind) }
    ensures { result ≡ is_in kind number }
{
    let (low, high) = range(kind);
    low <= number && number <= high
}

/// Whether what lies from one number to the other is a range of the kind.
pub fn has_range(kind: Kind, low: i64, high: i64) -> bool
    ensures { result ≡ (is_whole_number kind && is_in kind low && is_in kind high && int_le low high) }
{
    is_whole_number(kind) && is_in(kind, low) && is_in(kind, high) && low <= high
}

/// The number of a tree of a whole-number kind.
pub fn number_of(tree: Tree) -> i64
    requires { IsTrue (is_whole_number (kind_of (plain_of tree))) }
    ensures { result ≡ number_of (plain_of tree.entry) }
{
    match tree {
        Tree::Byte(number) => i64::from(number),
        Tree::Short(number) => i64::from(number),
        Tree::Int(number) => i64::from(number),
        Tree::Long(number) => number,
        Tree::Whole(number) => number,
        _ => unreachable!(),
    }
}

/// The number as a tree of a whole-number kind, to which it is clamped.
pub fn clamped<'a>(kind: Kind, number: i64) -> Tree<'a>
    requires { IsTrue (is_whole_number kind) }
    ensures { plain_of result ≡ clamped kind number }
{
    let (low, high) = range(kind);
    let number = number.clamp(low, high);
    match kind {
        Kind::Byte => Tree::Byte(number as i8),
        Kind::Short => Tree::Short(number as i16),
        Kind::Int => Tree::Int(number as i32),
        Kind::Long => Tree::Long(number),
        _ => Tree::Whole(number),
    }
}

/// The number in plain decimal, with `-` for a negative one.
pub fn decimal<'a>(alloc: Global, number: i64) -> Result<Text<'a>, Memory>
    ensures { IfOk result (λ text. text ≡ signed_decimal number) }
{
    let text = number.to_string(alloc)?;
    Ok(Text::own(text.into_bytes()))
}

/// Whether the text begins as a number in plain decimal does: no `+`, no `0` before another digit, and no `-0`.
fn begins_plain(text: &[u8]) -> bool
    ensures { IsTrue result ↔ BeginsPlain text.now }
{
    matches!(text, [b'0'] | [b'1'..=b'9', ..] | [b'-', b'1'..=b'9', ..])
}

/// The number whose plain decimal is the text, where 64 bits hold it.
fn plain_number(text: &[u8]) -> Option<i64>
    ensures found { IfSome result (λ number. text.now ≡ signed_decimal number) }
    ensures only { (number : ℤ) → FitsSigned w64 number → text.now ≡ signed_decimal number → result ≡ Some number }
{
    if !begins_plain(text) {
        return None;
    }
    str::from_utf8(text).ok()?.parse().ok()
}

/// The number of the kind that the text spells.
pub fn spelled(kind: Kind, text: &[u8]) -> Option<i64>
    requires { IsTrue (is_whole_number kind) }
    ensures value { result ≡ spelled kind text.now }
    ensures only { (number : ℤ) → IsTrue (spells kind text.now number) → result ≡ Some number }
{
    let number = plain_number(text)?;
    is_in(kind, number).then_some(number)
}
