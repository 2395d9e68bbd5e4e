//! Save trees.
ghost use Rattle.std.specs.Prelude.{◌≡◌, OnOk, OnErr, option_map};

use crate::{Entries, Items, Kind, Memory, Text};

/// A save or a part of one. The first twelve variants are those of NBT; JSON has `Text`, `List`, `Map` and the last three.
///
/// Floats are their bits. `Ints` and `Longs` are the big-endian groups of 4 and 8 bytes as they stand in the source.
#[cycle(tree)]
#[derive(Debug, Drop)]
pub enum Tree<'a> {
    Byte(i8),
    Short(i16),
    Int(i32),
    Long(i64),
    Float(u32),
    Double(u64),
    Text(Text<'a>),
    Bytes(&'a [u8]),
    Ints(&'a [u8]),
    Longs(&'a [u8]),
    List(Items<'a>),
    Map(Entries<'a>),
    Null,
    Bool(bool),
    Whole(i64),
}

impl<'a> Tree<'a> {
    ghost use Rattle.mig_tree.specs.View.{plain_of};
    ghost use Rattle.mig_model.specs.Kinds.{kind_of, IsMap, get_in, put_in, removed};
    ghost use Rattle.mig_model.specs.Keeps.{Keeps};

    /// The kind of the tree.
    pub fn kind(&self) -> Kind
        ensures { result ≡ kind_of (plain_of self.now) }
    {
        match self {
            Tree::Byte(_) => Kind::Byte,
            Tree::Short(_) => Kind::Short,
            Tree::Int(_) => Kind::Int,
            Tree::Long(_) => Kind::Long,
            Tree::Float(_) => Kind::Float,
            Tree::Double(_) => Kind::Double,
            Tree::Text(_) => Kind::Text,
            Tree::Bytes(_) => Kind::Bytes,
            Tree::Ints(_) => Kind::Ints,
            Tree::Longs(_) => Kind::Longs,
            Tree::List(_) => Kind::List,
            Tree::Map(_) => Kind::Map,
            Tree::Null => Kind::Null,
            Tree::Bool(_) => Kind::Bool,
            Tree::Whole(_) => Kind::Whole,
        }
    }

    /// Does nothing. Its contract tells what every tree keeps: numbers within their widths, and names that are distinct and ascend.
    pub fn keeps(&self)
        ensures { Keeps (plain_of self.now) }
    {
        match self {
            Tree::Byte(number) => {
                let _number = *number;
            }
            Tree::Short(number) => {
                let _number = *number;
            }
            Tree::Int(number) => {
                let _number = *number;
            }
            Tree::Long(number) | Tree::Whole(number) => {
                let _number = *number;
            }
            Tree::Float(bits) => {
                let _bits = *bits;
            }
            Tree::Double(bits) => {
                let _bits = *bits;
            }
            Tree::Text(text) => text.keeps(),
            Tree::Bytes(array) | Tree::Ints(array) | Tree::Longs(array) => {
                let _len = array.len();
            }
            Tree::List(items) => {
                let _items = items.as_slice();
            }
            Tree::Map(entries) => {
                let _entries = entries.as_slice();
            }
            Tree::Null | Tree::Bool(_) => {}
        }
    }

    /// The tree under the name, where this is a map that has it.
    #[tactic(auto, using(mig_model::specs::Kinds::entries_of_pairs))]
    pub fn get(&self, name: &[u8]) -> Option<&Tree<'a>>
        ensures { option_map (λ t. plain_of t.now) result ≡ get_in name.now (plain_of self.now) }
    {
        match self {
            Tree::Map(entries) => entries.get(name),
            _ => None,
        }
    }

    /// Puts the tree under the name, in place of an earlier one. An `Err` changes nothing.
    #[tactic(auto, using(mig_model::specs::Kinds::entries_of_pairs))]
    pub fn put(&mut self, name: Text<'a>, tree: Tree<'a>) -> Result<(), Memory>
        requires { IsMap (plain_of self.old) }
        ensures ok { OnOk result (plain_of self.new ≡ put_in name.entry (plain_of tree.entry) (plain_of self.old)) }
        ensures err { OnErr result (plain_of self.new ≡ plain_of self.old) }
    {
        let Tree::Map(entries) = self else {
            unreachable!()
        };
        entries.put(name, tree)
    }

    /// Takes the pair of the name out and answers its tree.
    #[tactic(auto, using(mig_model::specs::Kinds::entries_of_pairs))]
    pub fn remove(&mut self, name: &[u8]) -> Option<Tree<'a>>
        requires { IsMap (plain_of self.old) }
        ensures tree { option_map plain_of result ≡ get_in name.now (plain_of self.old) }
        ensures rest { plain_of self.new ≡ removed name.now (plain_of self.old) }
    {
        let Tree::Map(entries) = self else {
            unreachable!()
        };
        entries.remove(name)
    }
}
