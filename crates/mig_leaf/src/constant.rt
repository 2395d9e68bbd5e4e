//! Constants.
ghost use Rattle.std.specs.Prelude.{◌≡◌, IfOk};

use mig_tree::{Kind, Memory, Name, Text, Tree};
use std::alloc::Global;

/// A constant of a leaf kind. Floats are their bits; the last three are the empty arrays.
#[derive(Debug, Drop)]
pub enum Const {
    Byte(i8),
    Short(i16),
    Int(i32),
    Long(i64),
    Whole(i64),
    Float(u32),
    Double(u64),
    Text(Name),
    Bool(bool),
    Null,
    NoBytes,
    NoInts,
    NoLongs,
}

const NOTHING: &[u8] = b"";

impl Const {
    ghost use Rattle.mig_tree.specs.View.{plain_of};
    ghost use Rattle.mig_model.specs.Const.{const_kind, const_tree};
    ghost use Rattle.mig_leaf.specs.View.{const_of};

    /// The kind of the constant.
    pub fn kind(&self) -> Kind
        ensures { result ≡ const_kind (const_of self.now) }
    {
        match self {
            Const::Byte(_) => Kind::Byte,
            Const::Short(_) => Kind::Short,
            Const::Int(_) => Kind::Int,
            Const::Long(_) => Kind::Long,
            Const::Whole(_) => Kind::Whole,
            Const::Float(_) => Kind::Float,
            Const::Double(_) => Kind::Double,
            Const::Text(_) => Kind::Text,
            Const::Bool(_) => Kind::Bool,
            Const::Null => Kind::Null,
            Const::NoBytes => Kind::Bytes,
            Const::NoInts => Kind::Ints,
            Const::NoLongs => Kind::Longs,
        }
    }

    /// The constant as a tree, which has a text's bytes of its own.
    pub fn tree<'a>(&self, alloc: Global) -> Result<Tree<'a>, Memory>
        ensures { IfOk result (λ t. plain_of t ≡ const_tree (const_of self.now)) }
    {
        Ok(match self {
            Const::Byte(number) => Tree::Byte(*number),
            Const::Short(number) => Tree::Short(*number),
            Const::Int(number) => Tree::Int(*number),
            Const::Long(number) => Tree::Long(*number),
            Const::Whole(number) => Tree::Whole(*number),
            Const::Float(bits) => Tree::Float(*bits),
            Const::Double(bits) => Tree::Double(*bits),
            Const::Text(text) => Tree::Text(Text::copied(alloc, text.bytes())?),
            Const::Bool(value) => Tree::Bool(*value),
            Const::Null => Tree::Null,
            Const::NoBytes => Tree::Bytes(NOTHING),
            Const::NoInts => Tree::Ints(NOTHING),
            Const::NoLongs => Tree::Longs(NOTHING),
        })
    }

    /// An equal constant.
    pub fn copy(&self, alloc: Global) -> Result<Const, Memory>
        ensures { IfOk result (λ c. const_of c ≡ const_of self.now) }
    {
        Ok(match self {
            Const::Byte(number) => Const::Byte(*number),
            Const::Short(number) => Const::Short(*number),
            Const::Int(number) => Const::Int(*number),
            Const::Long(number) => Const::Long(*number),
            Const::Whole(number) => Const::Whole(*number),
            Const::Float(bits) => Const::Float(*bits),
            Const::Double(bits) => Const::Double(*bits),
            Const::Text(text) => Const::Text(text.copy(alloc)?),
            Const::Bool(value) => Const::Bool(*value),
            Const::Null => Const::Null,
            Const::NoBytes => Const::NoBytes,
            Const::NoInts => Const::NoInts,
            Const::NoLongs => Const::NoLongs,
        })
    }
}
