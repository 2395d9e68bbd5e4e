//! Named types, in the order of declaration, with one look-up for each name.
ghost use Rattle.std.specs.Prelude.{◌≡◌, ◌↔◌, ◌<◌, ◌++◌, ◌∷◌, [], length, map, option_map, false, IsTrue, IfOk, IfErr, None, Some, ℕ, List, nat_eq};
ghost use Rattle.std.specs.Cmp.Lexicographic.{pointwise};
ghost use Rattle.std.specs.List.{slice_get};
ghost use Rattle.std.specs.Map.{keys_of, values_of};
ghost use Rattle.indexmap.specs.IndexMap.{get, IsUnique};
ghost use Rattle.mig_model.specs.Family.{find_type};
ghost use Rattle.mig_model.specs.Names.{has_twice};
ghost use Rattle.mig_template.specs.View.{template_of};
ghost use Rattle.mig_schema.specs.Types.{named_all, type_place, AllKept, IsWithin};
ghost use Rattle.mig_schema.specs.Fault.{IsTwice};

use crate::{Memory, Name, SchemaFault, Template};
use indexmap::IndexMap;
use indexmap::map::Values;
use std::alloc::{AllocFailed, Global};
use std::marker::Model;

/// Types whose names are distinct, in the order of declaration. Contracts see the list of the names and their templates.
#[derive(Debug)]
pub struct NamedTypes {
    map: IndexMap<Name, Template>,
}

impl Drop for NamedTypes {
    fn drop(self) {
        let NamedTypes { map } = self;
        drop(map);
    }
}

impl Model for NamedTypes {
    ghost use Rattle.std.specs.Prelude.{List};
    ghost use Rattle.mig_schema.specs.Types.{Named, named_all, AllKept};
    ghost use Rattle.mig_schema.specs.Code.{coded_types};

    ghost Value = { List Named };

    ghost coded = { coded_types };

    ghost view = { λ a. named_all a.map.entries };

    ghost invariant = { λ a. AllKept (named_all a.map.entries) };
}

/// Adds the type, and says whether no type had the name before.
fn add(
    map: &mut IndexMap<Name, Template>,
    name: Name,
    template: Template,
) -> Result<bool, AllocFailed<(Name, Template)>>
    ensures new { IfOk result (λ new. IsTrue new ↔ (get (pointwise nat_eq) map.old name ≡ None)) }
    ensures last { IfOk result (λ new. IsTrue new → map.new.entries ≡ map.old.entries ++ (name, template) ∷ []) }
    ensures unique { IsUnique (pointwise nat_eq) map.new }
{
    let before = map.insert(name, template)?;
    Ok(before.is_none())
}

impl NamedTypes {
    /// The types. `TwiceNamed` comes exactly where a name occurs twice.
    pub fn new(alloc: Global, list: Vec<(Name, Template)>) -> Result<NamedTypes, SchemaFault>
        ensures types { IfOk result (λ t. t ≡ named_all list.items) }
        ensures once { IfOk result (λ t. has_twice (keys_of (named_all list.items)) ≡ false) }
        ensures only { IfErr result (λ e. IsTwice e (has_twice (keys_of (named_all list.items)))) }
    {
        let mut map = IndexMap::with_capacity(alloc, list.len())?;
        for (name, template) in list {
            template.keeps();
            if !add(&mut map, name, template)? {
                return Err(SchemaFault::TwiceNamed);
            }
        }
        Ok(NamedTypes { map })
    }

    /// Does nothing. Its contract tells what the types keep.
    pub fn keeps(&self)
        ensures once { has_twice (keys_of self.now) ≡ false }
        ensures keep { AllKept self.now }
    {
        let _len = self.map.len();
    }

    /// How many there are.
    pub fn len(&self) -> usize
        ensures len { result ≡ length self.now }
        ensures once { has_twice (keys_of self.now) ≡ false }
    {
        self.map.len()
    }

    /// The name at the place in the order of declaration, and `None` exactly where the place isn't below the length.
    pub fn name_at(&self, place: usize) -> Option<&Name>
        ensures { option_map (λ n. n.now) result ≡ slice_get (keys_of self.now) place }
    {
        match self.map.get_index(place) {
            Some((name, _)) => Some(name),
            None => None,
        }
    }

    /// The template at the place in the order of declaration.
    pub fn body_at(&self, place: usize) -> &Template
        requires { place < length self.now }
        ensures { slice_get (values_of self.now) place ≡ Some (template_of result.now) }
    {
        &self.map[place]
    }

    /// The templates in the order of declaration.
    pub fn bodies(&self) -> Values<'_, Name, Template>
        ensures { map template_of result ≡ values_of self.now }
    {
        self.map.values()
    }

    /// The template of the name, and `None` exactly where no type has the name. It takes one look-up.
    pub fn get(&self, name: &Name) -> Option<&Template>
        ensures { option_map (λ t. template_of t.now) result ≡ find_type name.now self.now }
    {
        self.map.get(name)
    }

    /// The place of the name in the order of declaration, and `None` exactly where no type has the name. It takes one look-up.
    pub fn place_of(&self, name: &Name) -> Option<usize>
        ensures { result ≡ type_place self.now name.now }
    {
        self.map.get_index_of(name)
    }

    /// Equal types in the same order.
    pub fn copy(&self, alloc: Global) -> Result<NamedTypes, Memory>
        ensures { IfOk result (λ t. t ≡ self.now) }
    {
        let mut map = IndexMap::with_capacity(alloc, self.len())?;
        for (name, body) in &self.map {
            let name = name.copy(alloc)?;
            let body = body.copy(alloc)?;
            let _new = add(&mut map, name, body)?;
        }
        Ok(NamedTypes { map })
    }

    /// Whether the type of the name has an equal template.
    fn has(&self, name: &Name, template: &Template) -> bool
        ensures { IsTrue result ↔ (find_type name.now self.now ≡ Some (template_of template.now)) }
    {
        match self.get(name) {
            Some(body) => body.same(template),
            None => false,
        }
    }

    /// Whether each type is in the other too, with an equal template.
    fn is_within(&self, other: &NamedTypes) -> bool
        ensures { IsTrue result ↔ IsWithin self.now other.now }
    {
        for (name, body) in &self.map {
            if !other.has(name, body) {
                return false;
            }
        }
        true
    }

    /// Whether the two have the same names with equal templates, in any order. It takes one look-up for each type.
    pub fn same(&self, other: &NamedTypes) -> bool
        ensures { IsTrue result ↔ ((n : List ℕ) → find_type n self.now ≡ find_type n other.now) }
    {
        self.len() == other.len() && self.is_within(other)
    }
}
