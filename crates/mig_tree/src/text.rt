//! Texts, which are lent from their source or hold their bytes.
ghost use Rattle.std.specs.Prelude.{◌≡◌, IfOk};
ghost use Rattle.mig_model.specs.Keeps.{IsShort};

use crate::Memory;
use arrayvec::ArrayVec;
use std::alloc::Global;
use std::marker::Model;

/// The bytes of a text, lent by the source, owned, or, where they are few, in the text itself. Contracts see the bytes alone, so two texts with the same bytes are equal there.
#[derive(Debug)]
pub struct Text<'a> {
    held: Held<'a>,
}

impl Drop for Text<'_> {
    fn drop(self) {
        let Text { held } = self;
        drop(held);
    }
}

#[derive(Debug, Drop)]
enum Held<'a> {
    Lent(&'a [u8]),
    Own(Vec<u8>),
    Short(ArrayVec<u8, 16>),
}

impl<'a> Model for Text<'a> {
    ghost use Rattle.std.specs.Prelude.{List, ℕ};

    ghost Value = { List ℕ };

    ghost use Rattle.mig_tree.specs.Text.{held_bytes};

    ghost view = { λ a. held_bytes a.held };
}

impl<'a> Text<'a> {
    /// A text that lends its bytes.
    pub fn lent(bytes: &'a [u8]) -> Text<'a>
        ensures { result ≡ bytes.now }
    {
        Text {
            held: Held::Lent(bytes),
        }
    }

    /// A text that owns its bytes.
    pub fn own(bytes: Vec<u8>) -> Text<'a>
        ensures { result ≡ bytes.items }
    {
        Text {
            held: Held::Own(bytes),
        }
    }

    /// A text with a copy of the bytes. Up to sixteen stand in the text itself and take no memory.
    pub fn copied(alloc: Global, bytes: &[u8]) -> Result<Text<'a>, Memory>
        ensures { IfOk result (λ text. text ≡ bytes.now) }
    {
        let mut short = ArrayVec::new();
        match short.try_extend_from_slice(bytes) {
            Ok(()) => Ok(Text {
                held: Held::Short(short),
            }),
            Err(_) => Ok(Text {
                held: Held::Own(Vec::from_slice(alloc, bytes)?),
            }),
        }
    }

    /// Whether the bytes are the source's. No contract speaks of the answer.
    pub fn is_lent(&self) -> bool {
        match &self.held {
            Held::Lent(_) => true,
            Held::Own(_) | Held::Short(_) => false,
        }
    }

    /// The bytes of the text.
    pub fn bytes(&self) -> &[u8]
        ensures { result.now ≡ self.now }
    {
        match &self.held {
            Held::Lent(bytes) => bytes,
            Held::Own(bytes) => bytes.as_slice(),
            Held::Short(bytes) => bytes.as_slice(),
        }
    }

    /// Does nothing. Its contract tells that a machine word holds the length.
    pub fn keeps(&self)
        ensures { IsShort self.now }
    {
        let _len = self.bytes().len();
    }
}
