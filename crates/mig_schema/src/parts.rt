//! The parts of a family, and the first fault that they have.
ghost use Rattle.std.specs.Prelude.{◌≡◌, ◌||◌, false, length, option_map, nat_lt, IfOk};
ghost use Rattle.std.specs.List.{slice_get};
ghost use Rattle.std.specs.Map.{keys_of};
ghost use Rattle.mig_model.specs.Family.{find_type, is_named, any_type, is_record, uses_name, must_field, way_end, version_record, has_flaw, first_of, first_flaw};
ghost use Rattle.mig_model.specs.Fields.{is_field, is_in_choice};
ghost use Rattle.mig_model.specs.Template.{fields_of, cases_of};
ghost use Rattle.mig_model.specs.Template as plain;
ghost use Rattle.mig_model.specs.Family as flaws;
ghost use Rattle.mig_model.specs.Record.{record_of};
ghost use Rattle.mig_template.specs.View.{template_of};
ghost use Rattle.mig_schema.specs.Types.{named_all, family_of, AllKept};
ghost use Rattle.mig_schema.specs.Check.{body_fails, record_only};
ghost use Rattle.mig_schema.specs.Fault.{IsFound, first_flaws, later_flaws};

use crate::checks::Check;
use crate::depth::is_deeper;
use crate::named::NamedTypes;
use crate::{Form, Memory, Name, SchemaFault, Template, VersionPath};
use mig_template::{Choice, Fields, Presence, Record, is_point};
use std::alloc::Global;
use std::cmp::Ordering;
use std::marker::Model;

/// The parts of a family, of which nothing is asked but that type names are distinct. Contracts see a plain family.
#[derive(Debug, Drop)]
pub struct Parts {
    form: Form,
    version: VersionPath,
    types: NamedTypes,
    root: Name,
}

/// What is asked of each body.
#[derive(Clone, Copy, Debug, PartialEq, Eq)]
pub enum BodyFault {
    /// It nests more than 64 templates.
    TooDeep,
    /// A template in it has what is asked.
    Inside(Check),
    /// It is a point, or a point is a side of a sum in it.
    Unguarded,
}

impl Model for Parts {
    ghost use Rattle.mig_model.specs.Family.{Family};
    ghost use Rattle.mig_schema.specs.Types.{family_of};
    ghost use Rattle.mig_schema.specs.Code.{coded_family};

    ghost Value = { Family };

    ghost coded = { coded_family };

    ghost view = { λ a. family_of a.form a.version a.types a.root };
}

impl Parts {
    /// These parts.
    pub fn new(form: Form, version: VersionPath, types: NamedTypes, root: Name) -> Parts
        ensures { result ≡ family_of form version types root }
    {
        Parts {
            form,
            version,
            types,
            root,
        }
    }

    /// Equal parts, with the types in the same order.
    pub fn copy(&self, alloc: Global) -> Result<Parts, Memory>
        ensures { IfOk result (λ p. p ≡ self.now) }
    {
        let version = self.version.copy(alloc)?;
        let types = self.types.copy(alloc)?;
        let root = self.root.copy(alloc)?;
        Ok(Parts {
            form: self.form,
            version,
            types,
            root,
        })
    }

    /// The form.
    pub fn form(&self) -> Form
        ensures { result ≡ self.now.form }
    {
        self.form
    }

    /// The version path.
    pub fn version_path(&self) -> &VersionPath
        ensures { result.now ≡ self.now.version }
    {
        &self.version
    }

    /// The types.
    pub fn types(&self) -> &NamedTypes
        ensures { result.now ≡ self.now.types }
    {
        &self.types
    }

    /// The root's name.
    pub fn root(&self) -> &Name
        ensures { result.now ≡ self.now.root }
    {
        &self.root
    }

    /// The template of the name. It takes one look-up.
    pub fn get(&self, name: &Name) -> Option<&Template>
        ensures { option_map (λ t. template_of t.now) result ≡ find_type name.now self.now.types }
    {
        self.types().get(name)
    }

    /// Whether the name is a named type.
    pub fn is_named(&self, name: &Name) -> bool
        ensures { result ≡ is_named self.now name.now }
    {
        self.get(name).is_some()
    }
}

/// Whether a field has the name.
fn is_field(fields: &Fields, name: &[u8]) -> bool
    ensures { result ≡ is_field name.now (fields_of fields.now) }
{
    fields.has(name)
}

/// Whether the name is the tag or a field of a case.
fn is_in_choice(choice: &Choice, name: &[u8]) -> bool
    ensures { result ≡ is_in_choice name.now (plain.choice choice.now.0 (cases_of choice.now.1) choice.now.2) }
{
    if name.cmp(choice.tag().bytes()) == Ordering::Equal {
        return true;
    }
    for case in choice.cases() {
        if is_field(&case.fields, name) {
            return true;
        }
    }
    false
}

/// Whether the name is a field, the tag or a case field of the record.
fn uses_name(parts: &Record, name: &[u8]) -> bool
    ensures { result ≡ uses_name name.now (record_of parts.now) }
{
    if is_field(parts.fields(), name) {
        return true;
    }
    match parts.choice() {
        Some(choice) => is_in_choice(choice, name),
        None => false,
    }
}

/// The template of the common field of that name, where the field has to be there.
fn must_field<'r>(parts: &'r Record, name: &[u8]) -> Option<&'r Template>
    ensures { option_map (λ t. template_of t.now) result ≡ must_field name.now (record_of parts.now) }
{
    match parts.fields().get(name) {
        Some(field) => match field.presence {
            Presence::Must => Some(&field.template),
            Presence::May => None,
        },
        None => None,
    }
}

/// Whether it is a record.
fn is_record(body: &Template) -> bool
    ensures { result ≡ is_record (template_of body.now) }
{
    matches!(body, Template::Rec(_))
}

impl Parts {
    /// Whether the body has what is asked.
    fn body_fails(&self, fault: BodyFault, body: &Template) -> bool
        ensures { result ≡ body_fails self.now fault (template_of body.now) }
    {
        match fault {
            BodyFault::TooDeep => is_deeper(body, 64),
            BodyFault::Inside(check) => self.is_inside(check, body),
            BodyFault::Unguarded => is_point(body) || self.is_inside(Check::PointSide, body),
        }
    }

    /// Whether a body has what is asked.
    fn any_body_fails(&self, fault: BodyFault) -> bool
        ensures { result ≡ any_type (body_fails self.now fault) self.now }
    {
        for body in self.types().bodies() {
            if self.body_fails(fault, body) {
                return true;
            }
        }
        false
    }

    /// Whether there are more than 512 types.
    fn has_too_many(&self) -> bool
        ensures { result ≡ has_flaw flaws.too_many self.now }
    {
        self.types().len() > 512
    }

    /// Whether a point or the root isn't a named type.
    fn has_unknown_name(&self) -> bool
        ensures { result ≡ has_flaw flaws.unknown_name self.now }
    {
        self.any_body_fails(BodyFault::Inside(Check::Unknown)) || !self.is_named(self.root())
    }

    /// Whether the form is NBT and a list's element hasn't exactly one kind.
    fn has_mixed_list(&self) -> bool
        ensures { result ≡ has_flaw flaws.mixed_list self.now }
    {
        self.form() == Form::Nbt && self.any_body_fails(BodyFault::Inside(Check::Mixed))
    }

    /// Whether the root's body isn't a record.
    fn has_no_record(&self) -> bool
        ensures { result ≡ has_flaw flaws.root_not_record self.now }
    {
        match self.get(self.root()) {
            Some(body) => !is_record(body),
            None => true,
        }
    }

    /// The record at the end of the way from the template, and `None` where the way leads to none.
    fn way_end<'s>(&'s self, names: &[Name], template: &'s Template) -> Option<&'s Record>
        ensures { option_map (λ r. record_of r.now) result
            ≡ record_only (way_end self.now names.now (template_of template.now)) }
    {
        let Template::Rec(record) = template else {
            return None;
        };
        let Some((name, rest)) = names.split_first() else {
            return Some(record);
        };
        if rest.is_empty() {
            return Some(record);
        }
        match must_field(record, name.bytes())? {
            Template::Point(name) => self.way_end(rest, self.get(name)?),
            template => self.way_end(rest, template),
        }
    }

    /// The record that the version stands in, and `None` where the version path leads to none.
    fn version_record(&self) -> Option<&Record>
        ensures { option_map (λ r. record_of r.now) result ≡ record_only (version_record self.now) }
    {
        match self.get(self.root()) {
            Some(body) => self.way_end(self.version_path().names(), body),
            None => None,
        }
    }

    /// Whether the version path leads to no record.
    fn has_no_version_record(&self) -> bool
        ensures { result ≡ has_flaw flaws.version_path self.now }
    {
        self.version_record().is_none()
    }

    /// Whether the record that the version path leads to has the path's last name.
    fn uses_version_name(&self) -> bool
        ensures { result ≡ has_flaw flaws.version_name_used self.now }
    {
        match self.version_record() {
            Some(record) => uses_name(record, self.version_path().last().bytes()),
            None => false,
        }
    }

    /// The first of the faults that one body or the number of types has.
    fn first_body_fault(&self) -> Option<SchemaFault>
        ensures { IsFound result (first_of first_flaws self.now) }
    {
        if self.has_too_many() {
            return Some(SchemaFault::TooMany);
        }
        if self.any_body_fails(BodyFault::TooDeep) {
            return Some(SchemaFault::TooDeep);
        }
        if self.any_body_fails(BodyFault::Inside(Check::WrongLeaf)) {
            return Some(SchemaFault::WrongKind);
        }
        if self.has_unknown_name() {
            return Some(SchemaFault::UnknownName);
        }
        if self.any_body_fails(BodyFault::Unguarded) {
            return Some(SchemaFault::Unguarded);
        }
        None
    }

    /// The first of the other faults.
    fn first_later_fault(&self) -> Option<SchemaFault>
        ensures { IsFound result (first_of later_flaws self.now) }
    {
        if self.any_body_fails(BodyFault::Inside(Check::Overlap)) {
            return Some(SchemaFault::SumOverlap);
        }
        if self.has_mixed_list() {
            return Some(SchemaFault::MixedList);
        }
        if self.has_no_record() {
            return Some(SchemaFault::RootNotRecord);
        }
        if self.has_no_version_record() {
            return Some(SchemaFault::VersionPath);
        }
        if self.uses_version_name() {
            return Some(SchemaFault::VersionNameUsed);
        }
        None
    }

    /// The first fault in the order of the faults. That a name is there twice is none of these.
    pub fn first_fault(&self) -> Option<SchemaFault>
        ensures { IsFound result (first_flaw self.now) }
    {
        self.keeps();
        match self.first_body_fault() {
            Some(fault) => Some(fault),
            None => self.first_later_fault(),
        }
    }

    /// Does nothing. Its contract tells what the parts keep.
    pub fn keeps(&self)
        ensures once { has_flaw flaws.twice_named self.now ≡ false }
        ensures keep { AllKept self.now.types }
    {
        self.types().keeps();
    }
}
