//! A record at a map whose tag is known.
ghost use Rattle.std.specs.Prelude.{◌≡◌, Some, option_map};
ghost use Rattle.mig_model.specs.Plain.{text};
ghost use Rattle.mig_model.specs.Place.{missing, sooner};
ghost use Rattle.mig_model.specs.Template.{fields_of};
ghost use Rattle.mig_model.specs.Names.{under};
ghost use Rattle.mig_row.specs.Row.{row_of, with_tag, is_must_field, musts_among};
ghost use Rattle.mig_row.specs.RowView.{row_view, missing_view, earlier};

use mig_template::{Choice, Fields, Presence, Record, Rest, Template};
use mig_tree::{Entries, Name, Tree};
use std::cmp::Ordering;

/// A record at a map whose tag is known.
#[derive(Debug, Drop)]
pub struct Row<'r> {
    pub fields: &'r Fields,
    /// The name of the tag, where there is a choice.
    pub tag: Option<&'r Name>,
    /// The fields of the tag's case; a tag that is kept without being a literal has none.
    pub cased: Option<&'r Fields>,
    pub rest: Rest,
}

/// Where a name of a record's map belongs.
#[derive(Debug, Drop)]
pub enum Belongs<'r> {
    Common(&'r Template),
    Tagged,
    Cased(&'r Template),
    Unknown,
}

/// The record at a map with this text under the tag, and `None` where it is no literal and isn't kept.
fn row_tagged<'r>(schema: &'r Record, choice: &'r Choice, literal: &[u8]) -> Option<Row<'r>>
    ensures { option_map row_view result ≡ with_tag schema.now choice.now.0 choice.now.2 (Some (text literal.now)) }
{
    let fields = schema.fields();
    let tag = Some(choice.tag());
    match schema.case(literal) {
        Some(cased) => Some(Row {
            fields,
            tag,
            cased: Some(cased),
            rest: schema.rest(),
        }),
        None => {
            if choice.kept() {
                Some(Row {
                    fields,
                    tag,
                    cased: None,
                    rest: Rest::Open,
                })
            } else {
                None
            }
        }
    }
}

/// The record at the map, and `None` where there is a choice and the tag is neither a literal of it nor another text that is kept.
pub fn row_of<'r>(schema: &'r Record, entries: &Entries) -> Option<Row<'r>>
    ensures { option_map row_view result ≡ row_of schema.now entries.now }
{
    match schema.choice() {
        None => Some(Row {
            fields: schema.fields(),
            tag: None,
            cased: None,
            rest: schema.rest(),
        }),
        Some(choice) => match entries.get(choice.tag().bytes()) {
            Some(Tree::Text(literal)) => row_tagged(schema, choice, literal.bytes()),
            _ => None,
        },
    }
}

/// Whether the name is that of a Must field.
fn is_must(fields: &Fields, name: &[u8]) -> bool
    ensures { result ≡ is_must_field (under name.now fields.now) }
{
    match fields.get(name) {
        Some(field) => field.presence == Presence::Must,
        None => false,
    }
}

/// How many names of the map are those of Must fields. It takes log n comparisons for each name.
fn musts_among(fields: &Fields, entries: &Entries) -> usize
    ensures { result ≡ musts_among fields.now entries.now }
{
    entries
        .as_slice()
        .iter()
        .filter(|entry| is_must(fields, entry.name.bytes()))
        .count()
}

/// The first Must field that isn't there, of all fields.
fn look_for_missing<'r>(fields: &'r Fields, entries: &Entries) -> Option<&'r Name>
    ensures { missing_view result ≡ missing (fields_of fields.now) entries.now }
{
    for field in fields.as_slice() {
        if field.presence == Presence::Must && entries.get(field.name.bytes()).is_none() {
            return Some(&field.name);
        }
    }
    None
}

/// The first Must field that isn't there. Only where the map has too few of them are all fields looked at.
fn first_missing<'r>(fields: &'r Fields, entries: &Entries) -> Option<&'r Name>
    ensures { missing_view result ≡ missing (fields_of fields.now) entries.now }
{
    let _pairs = entries.as_slice();
    if musts_among(fields, entries) == fields.musts() {
        return None;
    }
    look_for_missing(fields, entries)
}

/// The name that comes first.
fn sooner<'r>(one: Option<&'r Name>, other: Option<&'r Name>) -> Option<&'r Name>
    ensures { missing_view result ≡ sooner (missing_view one.entry) (missing_view other.entry) }
{
    match (one, other) {
        (Some(first), Some(second)) => {
            if second.bytes().cmp(first.bytes()) == Ordering::Less {
                other
            } else {
                one
            }
        }
        (Some(_), None) => one,
        (None, _) => other,
    }
}

/// The missing name, where it comes before this one.
pub fn earlier<'r>(missing: Option<&'r Name>, name: &[u8]) -> Option<&'r Name>
    ensures { missing_view result ≡ earlier name.now (missing_view missing.entry) }
{
    match missing {
        Some(first) => {
            if first.bytes().cmp(name) == Ordering::Less {
                missing
            } else {
                None
            }
        }
        None => None,
    }
}

impl<'r> Row<'r> {
    ghost use Rattle.mig_row.specs.Row.{among_fields, belongs, missing_in};
    ghost use Rattle.mig_row.specs.RowView.{belongs_view};

    /// Where the name belongs among the fields alone.
    fn among_fields(&self, name: &[u8]) -> Belongs<'r>
        ensures { belongs_view result ≡ among_fields (row_view self.now) name.now }
    {
        if let Some(field) = self.fields.get(name) {
            return Belongs::Common(&field.template);
        }
        match self.cased {
            Some(cased) => match cased.get(name) {
                Some(field) => Belongs::Cased(&field.template),
                None => Belongs::Unknown,
            },
            None => Belongs::Unknown,
        }
    }

    /// Where the name belongs. It takes log n comparisons.
    pub fn belongs(&self, name: &[u8]) -> Belongs<'r>
        ensures { belongs_view result ≡ belongs (row_view self.now) name.now }
    {
        match self.tag {
            Some(tag) => {
                if name.cmp(tag.bytes()) == Ordering::Equal {
                    Belongs::Tagged
                } else {
                    self.among_fields(name)
                }
            }
            None => self.among_fields(name),
        }
    }

    /// The first Must field that isn't there. It takes log n comparisons for each name of the map; only where one is missing, a look-up for each field as well.
    pub fn missing(&self, entries: &Entries) -> Option<&'r Name>
        ensures { missing_view result ≡ missing_in (row_view self.now) entries.now }
    {
        let first = first_missing(self.fields, entries);
        match self.cased {
            Some(cased) => sooner(first, first_missing(cased, entries)),
            None => first,
        }
    }
}
