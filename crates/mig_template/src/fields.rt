//! The fields of a record or of a case, in the order of their names.
ghost use Rattle.std.specs.Prelude.{◌≡◌, ◌↔◌, length, map, option_map, IfSome, IfOk, IsTrue};
ghost use Rattle.std.specs.List.Sorted.{IsSearchInRange};
ghost use Rattle.std.specs.Map.{keys_of};
ghost use Rattle.std_collections.specs.Layout.BTreeMap.{seek};
ghost use Rattle.mig_model.specs.Names.{by_bytes, Ascends, under, is_among};
ghost use Rattle.mig_model.specs.Record.{musts_in};
ghost use Rattle.mig_model.specs.TemplateKept.{TemplateKept};
ghost use Rattle.mig_template.specs.Retyped.{retyped, with_templates};
ghost use Rattle.mig_template.specs.View.{template_of, field_of};

use crate::{Memory, Name, Presence, Template};
use mig_model::{Keyed, place_by_key};
use std::alloc::Global;
use std::marker::Model;

/// A field of a record or of a case: its name, whether it has to be there, and the template of its tree.
#[cycle(template)]
#[derive(Debug, Drop)]
pub struct Field {
    pub name: Name,
    pub presence: Presence,
    pub template: Template,
}

/// Fields whose names are distinct and ascend by bytes. Contracts see the list of the fields.
#[cycle(template)]
#[derive(Debug)]
pub struct Fields {
    list: Vec<Field>,
    musts: usize,
}

impl Drop for Fields {
    #[cycle(drops)]
    fn drop(self) {
        let Fields { list, musts: _ } = self;
        drop(list);
    }
}

impl Model for Fields {
    ghost use Rattle.std.specs.Prelude.{List, map};
    ghost use Rattle.mig_model.specs.Template.{Field};
    ghost use Rattle.mig_template.specs.Code.{coded_fields};

    ghost Value = { List Field };

    ghost coded = { coded_fields };

    ghost use Rattle.mig_template.specs.View.{field_of};

    ghost view = { λ a. map field_of a.list.items };

    ghost use Rattle.std.specs.Prelude.{◌≡◌};
    ghost use Rattle.mig_model.specs.Record.{musts_in};
    ghost use Rattle.mig_model.specs.TemplateKept.{FieldListKept};

    ghost invariant = { λ a. FieldListKept (map field_of a.list.items) × (a.musts
        ≡ musts_in (map field_of a.list.items)) };

    ghost use Rattle.mig_template.specs.Size.{field_list_size};

    ghost size = { field_list_size };

    ghost use Rattle.std.proofs.Common.{arith};
    ghost use Rattle.mig_template.specs.Falls.{most_fields};

    ghost size_decreases = { λ a h. omega (arith, most_fields a.list.items) };
}

/// How many of the fields have to be there.
fn count_musts(list: &[Field]) -> usize
    ensures { result ≡ musts_in (map field_of list.now) }
{
    list.iter()
        .filter(|field| field.presence == Presence::Must)
        .count()
}

impl Keyed for Field {
    ghost key = { λ f. f.name };

    fn key(&self) -> &[u8] {
        self.name.bytes()
    }
}

impl Field {
    /// The field with another template, or a copy of it.
    fn with_template(&self, alloc: Global, template: Option<Template>) -> Result<Field, Memory>
        ensures field { IfOk result (λ f. field_of f ≡ retyped (option_map template_of template) (field_of self.now)) }
        ensures keep { IfOk result (λ f. TemplateKept (template_of f.template)) }
    {
        let name = self.name.copy(alloc)?;
        let template = match template {
            Some(template) => template,
            None => self.template.copy(alloc)?,
        };
        template.keeps();
        Ok(Field {
            name,
            presence: self.presence,
            template,
        })
    }

    /// Whether the two are equal.
    #[cycle(same)]
    pub fn same(&self, other: &Field) -> bool
        ensures { IsTrue result ↔ (field_of self.now ≡ field_of other.now) }
    {
        self.name.bytes() == other.name.bytes()
            && self.presence == other.presence
            && self.template.same(&other.template)
    }
}

impl Fields {
    ghost use Rattle.mig_model.specs.TemplateKept.{FieldListKept};

    /// These fields, whose names ascend and whose templates keep what a template keeps. It counts those that have to be there.
    pub fn new(list: Vec<Field>) -> Fields
        requires { FieldListKept (map field_of list.items) }
        ensures { result ≡ map field_of list.items }
    {
        let musts = count_musts(&list);
        Fields { list, musts }
    }

    /// How many of the fields have to be there. It is kept, and counts nothing.
    pub fn musts(&self) -> usize
        ensures { result ≡ musts_in self.now }
    {
        self.musts
    }

    /// The fields, ascending by name.
    pub fn as_slice(&self) -> &[Field]
        ensures fields { map field_of result.now ≡ self.now }
        ensures keep { FieldListKept self.now }
    {
        self.list.as_slice()
    }

    /// Does nothing. Its contract tells what all fields keep.
    pub fn keeps(&self)
        ensures { FieldListKept self.now }
    {
        let _fields = self.as_slice();
    }

    /// Gives the fields up.
    pub fn into_vec(self) -> Vec<Field>
        ensures fields { map field_of result.items ≡ self }
        ensures keep { FieldListKept self }
    {
        let Fields { list, musts: _ } = self;
        list
    }

    /// Where the name is, or where it would go. It takes log n comparisons.
    fn place(list: &[Field], name: &[u8]) -> Result<usize, usize>
        requires { Ascends (map field_of list.now) }
        ensures bound { IsSearchInRange result (length list.now) }
        ensures place { result ≡ seek (by_bytes name.now) (map field_of list.now) }
    {
        place_by_key(list, name)
    }

    /// The field of the name. It takes log n comparisons.
    pub fn get(&self, name: &[u8]) -> Option<&Field>
        ensures name { IfSome result (λ f. f.now.name ≡ name.now) }
        ensures found { option_map (λ f. (f.now.presence, template_of f.now.template)) result
            ≡ under name.now self.now }
    {
        match Fields::place(self.list.as_slice(), name) {
            Ok(at) => Some(&self.list[at]),
            Err(_) => None,
        }
    }

    /// Whether a field has the name. It takes log n comparisons.
    pub fn has(&self, name: &[u8]) -> bool
        ensures { result ≡ is_among (keys_of self.now) name.now }
    {
        self.get(name).is_some()
    }

    /// The fields with other templates, in their order. A field without one gets a copy of its own.
    pub fn with_templates(
        &self,
        alloc: Global,
        templates: Vec<Option<Template>>,
    ) -> Result<Fields, Memory>
        requires { length templates.items ≡ length self.now }
        ensures { IfOk result (λ fs. fs ≡ with_templates (map (option_map template_of) templates.items) self.now) }
    {
        let fields = self.as_slice();
        let mut list = Vec::new(alloc);
        for template in templates {
            let field = &fields[list.len()];
            list.push(field.with_template(alloc, template)?)?;
        }
        Ok(Fields::new(list))
    }

    /// Equal fields.
    #[cycle(copy)]
    pub fn copy(&self, alloc: Global) -> Result<Fields, Memory>
        ensures { IfOk result (λ fs. fs ≡ self.now) }
    {
        let mut list = Vec::new(alloc);
        for field in self.as_slice() {
            let name = field.name.copy(alloc)?;
            let template = field.template.copy(alloc)?;
            list.push(Field {
                name,
                presence: field.presence,
                template,
            })?;
        }
        Ok(Fields::new(list))
    }

    /// Whether the two are equal.
    #[cycle(same)]
    pub fn same(&self, other: &Fields) -> bool
        ensures { IsTrue result ↔ (self.now ≡ other.now) }
    {
        let list = self.as_slice();
        let others = other.as_slice();
        if list.len() != others.len() {
            return false;
        }
        for at in 0..list.len() {
            let one = &list[at];
            let another = &others[at];
            if !one.same(another) {
                return false;
            }
        }
        true
    }
}
