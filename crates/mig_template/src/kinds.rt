//! The kinds that a template's trees have.
ghost use Rattle.std.specs.Prelude.{◌≡◌, ◌||◌, ◌&&◌, false};
ghost use Rattle.std.specs.List.{list_any};
ghost use Rattle.mig_model.specs.declared.kind.Kind as model;
ghost use Rattle.mig_model.specs.Family.{kinds};
ghost use Rattle.mig_model.specs.Template.{same_kind, is_of_form};
ghost use Rattle.mig_template.specs.KindSet.{is_in};

use crate::{Form, Kind};

/// A set of kinds, with one bool for each.
#[derive(Clone, Copy, Debug, PartialEq, Eq)]
pub struct KindSet {
    pub byte: bool,
    pub short: bool,
    pub int: bool,
    pub long: bool,
    pub float: bool,
    pub double: bool,
    pub text: bool,
    pub bytes: bool,
    pub ints: bool,
    pub longs: bool,
    pub list: bool,
    pub map: bool,
    pub null: bool,
    pub boolean: bool,
    pub whole: bool,
}

/// Whether the two kinds are one.
pub fn same_kind(one: Kind, other: Kind) -> bool
    ensures { result ≡ same_kind one other }
{
    one == other
}

fn either(one: bool, other: bool) -> bool
    ensures { result ≡ (one || other) }
{
    one || other
}

impl KindSet {
    /// No kind.
    pub fn none() -> KindSet
        ensures { (k : model.Kind) → is_in result k ≡ false }
    {
        KindSet {
            byte: false,
            short: false,
            int: false,
            long: false,
            float: false,
            double: false,
            text: false,
            bytes: false,
            ints: false,
            longs: false,
            list: false,
            map: false,
            null: false,
            boolean: false,
            whole: false,
        }
    }

    /// One kind alone.
    pub fn one(kind: Kind) -> KindSet
        ensures { (k : model.Kind) → is_in result k ≡ same_kind kind k }
    {
        KindSet {
            byte: same_kind(kind, Kind::Byte),
            short: same_kind(kind, Kind::Short),
            int: same_kind(kind, Kind::Int),
            long: same_kind(kind, Kind::Long),
            float: same_kind(kind, Kind::Float),
            double: same_kind(kind, Kind::Double),
            text: same_kind(kind, Kind::Text),
            bytes: same_kind(kind, Kind::Bytes),
            ints: same_kind(kind, Kind::Ints),
            longs: same_kind(kind, Kind::Longs),
            list: same_kind(kind, Kind::List),
            map: same_kind(kind, Kind::Map),
            null: same_kind(kind, Kind::Null),
            boolean: same_kind(kind, Kind::Bool),
            whole: same_kind(kind, Kind::Whole),
        }
    }

    /// The kinds of the form.
    pub fn of_form(form: Form) -> KindSet
        ensures { (k : model.Kind) → is_in result k ≡ is_of_form form k }
    {
        match form {
            Form::Nbt => KindSet {
                byte: true,
                short: true,
                int: true,
                long: true,
                float: true,
                double: true,
                text: true,
                bytes: true,
                ints: true,
                longs: true,
                list: true,
                map: true,
                null: false,
                boolean: false,
                whole: false,
            },
            Form::Json => KindSet {
                byte: false,
                short: false,
                int: false,
                long: false,
                float: false,
                double: false,
                text: true,
                bytes: false,
                ints: false,
                longs: false,
                list: true,
                map: true,
                null: true,
                boolean: true,
                whole: true,
            },
        }
    }

    /// The kinds that are in either.
    pub fn union(self, other: KindSet) -> KindSet
        ensures { (k : model.Kind) → is_in result k ≡ (is_in self k || is_in other k) }
    {
        KindSet {
            byte: either(self.byte, other.byte),
            short: either(self.short, other.short),
            int: either(self.int, other.int),
            long: either(self.long, other.long),
            float: either(self.float, other.float),
            double: either(self.double, other.double),
            text: either(self.text, other.text),
            bytes: either(self.bytes, other.bytes),
            ints: either(self.ints, other.ints),
            longs: either(self.longs, other.longs),
            list: either(self.list, other.list),
            map: either(self.map, other.map),
            null: either(self.null, other.null),
            boolean: either(self.boolean, other.boolean),
            whole: either(self.whole, other.whole),
        }
    }

    /// Whether the kind is in the set.
    pub fn has(&self, kind: Kind) -> bool
        ensures { result ≡ is_in self.now kind }
    {
        match kind {
            Kind::Byte => self.byte,
            Kind::Short => self.short,
            Kind::Int => self.int,
            Kind::Long => self.long,
            Kind::Float => self.float,
            Kind::Double => self.double,
            Kind::Text => self.text,
            Kind::Bytes => self.bytes,
            Kind::Ints => self.ints,
            Kind::Longs => self.longs,
            Kind::List => self.list,
            Kind::Map => self.map,
            Kind::Null => self.null,
            Kind::Bool => self.boolean,
            Kind::Whole => self.whole,
        }
    }

    /// Whether the kind is in both sets.
    fn is_in_both(&self, other: &KindSet, kind: Kind) -> bool
        ensures { result ≡ (is_in self.now kind && is_in other.now kind) }
    {
        self.has(kind) && other.has(kind)
    }

    /// Whether a kind is in both sets.
    pub fn meets(&self, other: &KindSet) -> bool
        ensures { result ≡ list_any (λ k. is_in self.now k && is_in other.now k) kinds }
    {
        let kinds = Kind::all();
        for kind in &kinds {
            if self.is_in_both(other, *kind) {
                return true;
            }
        }
        false
    }
}
