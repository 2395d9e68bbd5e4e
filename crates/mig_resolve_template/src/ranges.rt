//! Whether the numbers of a constant or of a leaf function are in the ranges of their places.
ghost use Rattle.std.specs.Prelude.{◌≡◌};
ghost use Rattle.mig_model.specs.declared.kind.Kind as model;
ghost use Rattle.mig_model.specs.Leaf.{is_in};
ghost use Rattle.mig_syntax.specs.RuleView.{const_of, leaf_of};
ghost use Rattle.mig_resolve_template.specs.Constants.{bits_in, const_in_range, leaf_in_range};

use mig_model::Kind;
use mig_syntax::{ConstText, LeafText};

/// Whether a number is in the range of a whole-number kind. Of other kinds it is that of 64 bits.
fn number_in_range(kind: Kind, number: i128) -> bool
    ensures { result ≡ is_in kind number }
{
    match kind {
        Kind::Byte => -128 <= number && number <= 127,
        Kind::Short => -32_768 <= number && number <= 32_767,
        Kind::Int => -2_147_483_648 <= number && number <= 2_147_483_647,
        _ => is_long(number),
    }
}

/// Whether 64 bits hold the number, one of them for its sign.
fn is_long(number: i128) -> bool
    ensures { result ≡ is_in model.Kind.Long number }
{
    -9_223_372_036_854_775_808 <= number && number <= 9_223_372_036_854_775_807
}

/// Whether the number is one of the bits of a float or of a double.
fn bits_in_range(kind: Kind, bits: i128) -> bool
    ensures { result ≡ bits_in kind bits }
{
    match kind {
        Kind::Float => 0 <= bits && bits <= 4_294_967_295,
        _ => 0 <= bits && bits <= 18_446_744_073_709_551_615,
    }
}

/// Whether the number of the constant, where it has one, is in the range of its kind.
pub fn const_in_range(constant: &ConstText) -> bool
    ensures { result ≡ const_in_range (const_of constant.now) }
{
    match constant {
        ConstText::Number(kind, number) => number_in_range(*kind, *number),
        ConstText::Bits(kind, bits) => bits_in_range(*kind, *bits),
        ConstText::Text(_) | ConstText::Bool(_) | ConstText::Null | ConstText::Empty(_) => true,
    }
}

/// Whether each number of the function is in the range of its place.
pub fn leaf_in_range(function: &LeafText) -> bool
    ensures { result ≡ leaf_in_range (leaf_of function.now) }
{
    match function {
        LeafText::Const(constant) | LeafText::OfText(constant) => const_in_range(constant),
        LeafText::Plus(number) | LeafText::Times(number) => is_long(*number),
        LeafText::Clamp(low, high) => is_long(*low) && is_long(*high),
        LeafText::To(_)
        | LeafText::ToText
        | LeafText::Table(_)
        | LeafText::Prefix(_)
        | LeafText::Strip(_)
        | LeafText::Lower => true,
    }
}
