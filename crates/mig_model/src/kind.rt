//! The kinds of trees.
/// The kind of a tree. The first twelve are those of NBT; JSON has `Text`, `List`, `Map` and the last three.
#[derive(Clone, Copy, Debug, PartialEq, Eq)]
pub enum Kind {
    Byte,
    Short,
    Int,
    Long,
    Float,
    Double,
    Text,
    Bytes,
    Ints,
    Longs,
    List,
    Map,
    Null,
    Bool,
    Whole,
}

impl Kind {
    ghost use Rattle.std.specs.Prelude.{◌≡◌};
    ghost use Rattle.mig_model.specs.Family.{kinds};
    ghost use Rattle.mig_model.specs.Template.{is_leaf};

    /// Every kind, in the order of their declaration.
    pub fn all() -> [Kind; 15]
        ensures { result ≡ kinds }
    {
        [
            Kind::Byte,
            Kind::Short,
            Kind::Int,
            Kind::Long,
            Kind::Float,
            Kind::Double,
            Kind::Text,
            Kind::Bytes,
            Kind::Ints,
            Kind::Longs,
            Kind::List,
            Kind::Map,
            Kind::Null,
            Kind::Bool,
            Kind::Whole,
        ]
    }

    /// Whether trees of the kind are leaves, which hold no trees: so it is for every kind but lists and maps.
    pub fn is_leaf(self) -> bool
        ensures { result ≡ is_leaf self }
    {
        !matches!(self, Kind::List | Kind::Map)
    }
}
