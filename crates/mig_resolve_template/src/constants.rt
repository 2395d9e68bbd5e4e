//! Constants out of their syntax.
ghost use Rattle.std.specs.Prelude.{◌≡◌, true, IfOk};
ghost use Rattle.mig_model.specs.Leaf.{is_in};
ghost use Rattle.mig_leaf.specs.View as values;
ghost use Rattle.mig_syntax.specs.RuleView.{const_of};
ghost use Rattle.mig_resolve_template.specs.Constants.{number_from, bits_from, empty_from, bits_in, const_in_range, const_from};

use mig_leaf::Const;
use mig_model::{Kind, Memory};
use mig_syntax::ConstText;
use std::alloc::Global;

/// The constant of a whole number in the range of its kind.
fn whole_number(kind: Kind, number: i128) -> Const
    requires { is_in kind number ≡ true }
    ensures { values.const_of result ≡ number_from kind number }
{
    match kind {
        Kind::Byte => Const::Byte(number as i8),
        Kind::Short => Const::Short(number as i16),
        Kind::Int => Const::Int(number as i32),
        Kind::Long => Const::Long(number as i64),
        _ => Const::Whole(number as i64),
    }
}

/// The float or the double of these bits.
fn of_bits(kind: Kind, bits: i128) -> Const
    requires { bits_in kind bits ≡ true }
    ensures { values.const_of result ≡ bits_from kind bits }
{
    match kind {
        Kind::Float => Const::Float(bits as u32),
        _ => Const::Double(bits as u64),
    }
}

/// The empty array of the kind.
fn empty_array(kind: Kind) -> Const
    ensures { values.const_of result ≡ empty_from kind }
{
    match kind {
        Kind::Bytes => Const::NoBytes,
        Kind::Ints => Const::NoInts,
        _ => Const::NoLongs,
    }
}

/// The constant that the syntax stands for, where its number is in the range of its kind.
pub fn constant(alloc: Global, constant: &ConstText) -> Result<Const, Memory>
    requires { const_in_range (const_of constant.now) ≡ true }
    ensures { IfOk result (λ c. values.const_of c ≡ const_from (const_of constant.now)) }
{
    Ok(match constant {
        ConstText::Number(kind, number) => whole_number(*kind, *number),
        ConstText::Bits(kind, bits) => of_bits(*kind, *bits),
        ConstText::Text(text) => Const::Text(text.copy(alloc)?),
        ConstText::Bool(value) => Const::Bool(*value),
        ConstText::Null => Const::Null,
        ConstText::Empty(kind) => empty_array(*kind),
    })
}
