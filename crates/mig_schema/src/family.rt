//! Families.
ghost use Rattle.std.specs.Prelude.{◌≡◌, ◌<◌, ◌↔◌, Some, IsTrue, length, option_map, IfOk, IfErr};
ghost use Rattle.std.specs.List.{slice_get};
ghost use Rattle.std.specs.Map.{keys_of, values_of};
ghost use Rattle.mig_model.specs.Family.{IsFormed, IsSame, find_type, is_named, is_unknown, any_inside, first_flaw};
ghost use Rattle.mig_template.specs.View.{template_of};
ghost use Rattle.mig_schema.specs.Types.{named_all, family_of, AllKept};
ghost use Rattle.mig_schema.specs.Fault.{IsFamilyFault};
ghost use Rattle.mig_schema.specs.Reach.{Reaches, ArePlacesReached, ArePlacesReaching};

use crate::checks::Check;
use crate::named::NamedTypes;
use crate::parts::Parts;
use crate::{Form, Memory, Name, SchemaFault, Template, VersionPath};
use indexmap::IndexSet;
use std::alloc::Global;
use std::marker::Model;

/// A formed family: a form, the version path, named templates and the name of the root. Contracts see a plain family. The rules are this project's own.
#[derive(Debug)]
pub struct Family {
    parts: Parts,
}

impl Drop for Family {
    fn drop(self) {
        let Family { parts } = self;
        drop(parts);
    }
}

impl Model for Family {
    ghost use Rattle.mig_model.specs.Family.{Family, IsFormed};
    ghost use Rattle.mig_schema.specs.Types.{AllKept};
    ghost use Rattle.mig_schema.specs.Code.{coded_family};

    ghost Value = { Family };

    ghost coded = { coded_family };

    ghost view = { λ a. a.parts };

    ghost invariant = { λ a. IsFormed a.parts × AllKept a.parts.types };
}

impl Family {
    /// The family of these parts, or the first fault in the order of the faults. It takes one look-up for each type and each point.
    pub fn new(
        alloc: Global,
        form: Form,
        version: VersionPath,
        types: Vec<(Name, Template)>,
        root: Name,
    ) -> Result<Family, SchemaFault>
        ensures made { IfOk result (λ f. f ≡ family_of form version (named_all types.items) root) }
        ensures formed { IfOk result (λ f. IsFormed f) }
        ensures fault { IfErr result (λ e.
            IsFamilyFault e (first_flaw (family_of form version (named_all types.items) root))) }
    {
        let types = NamedTypes::new(alloc, types)?;
        let parts = Parts::new(form, version, types, root);
        match parts.first_fault() {
            Some(fault) => Err(fault),
            None => {
                parts.keeps();
                Ok(Family { parts })
            }
        }
    }

    /// Does nothing. Its contract tells what every family keeps.
    pub fn keeps(&self)
        ensures formed { IsFormed self.now }
        ensures keep { AllKept self.now.types }
    {
        let _form = self.parts.form();
    }

    /// The form.
    pub fn form(&self) -> Form
        ensures { result ≡ self.now.form }
    {
        self.parts.form()
    }

    /// The version path.
    pub fn version_path(&self) -> &VersionPath
        ensures { result.now ≡ self.now.version }
    {
        self.parts.version_path()
    }

    /// The root's name.
    pub fn root(&self) -> &Name
        ensures { result.now ≡ self.now.root }
    {
        self.parts.root()
    }

    /// How many named types there are.
    pub fn len(&self) -> usize
        ensures { result ≡ length self.now.types }
    {
        self.parts.types().len()
    }

    /// The name at the place in the order of declaration, and `None` exactly where the place isn't below the length.
    pub fn name_at(&self, place: usize) -> Option<&Name>
        ensures { option_map (λ n. n.now) result ≡ slice_get (keys_of self.now.types) place }
    {
        self.parts.types().name_at(place)
    }

    /// The template at the place in the order of declaration.
    pub fn body_at(&self, place: usize) -> &Template
        requires { place < length self.now.types }
        ensures { slice_get (values_of self.now.types) place ≡ Some (template_of result.now) }
    {
        self.parts.types().body_at(place)
    }

    /// Whether the name is a named type.
    pub fn is_named(&self, name: &Name) -> bool
        ensures { result ≡ is_named self.now name.now }
    {
        self.parts.is_named(name)
    }

    /// The template of the name, and `None` exactly where the name isn't a named type. It takes one look-up.
    pub fn body(&self, name: &Name) -> Option<&Template>
        ensures { option_map (λ t. template_of t.now) result ≡ find_type name.now self.now.types }
    {
        self.parts.get(name)
    }

    /// Whether a point in the template is to a name that is no named type.
    pub fn lacks_type_in(&self, template: &Template) -> bool
        ensures { result ≡ any_inside (is_unknown self.now) (template_of template.now) }
    {
        self.parts.is_inside(Check::Unknown, template)
    }

    /// An equal family, with its types in the same order.
    pub fn copy(&self, alloc: Global) -> Result<Family, Memory>
        ensures { IfOk result (λ f. f ≡ self.now) }
    {
        let parts = self.parts.copy(alloc)?;
        Ok(Family { parts })
    }

    /// The places, in the order of declaration, of the types that the name reaches, itself among them. Each body is visited at most once.
    pub fn reached(&self, alloc: Global, from: &Name) -> Result<IndexSet<usize>, Memory>
        ensures { IfOk result (λ found. ArePlacesReached self.now from.now found.keys) }
    {
        self.parts.reached(alloc, from)
    }

    /// The places, in the order of declaration, of the types that reach one of the names, as far as these are types, which are among them. Each body is visited once.
    pub fn reaching(&self, alloc: Global, names: &[Name]) -> Result<IndexSet<usize>, Memory>
        ensures { IfOk result (λ found. ArePlacesReaching self.now names.now found.keys) }
    {
        self.parts.reaching(alloc, names)
    }

    /// Whether the first name reaches the second: it is that name, or a point in its body is to a name that reaches it. Each body is visited at most once.
    pub fn reaches(&self, alloc: Global, from: &Name, to: &Name) -> Result<bool, Memory>
        requires { IsTrue (is_named self.now to.now) }
        ensures { IfOk result (λ reached. IsTrue reached ↔ Reaches self.now from.now to.now) }
    {
        self.parts.reaches(alloc, from, to)
    }

    /// Whether form, version path, root, the set of names and each body are equal. The order of the types doesn't count.
    pub fn same(&self, other: &Family) -> bool
        ensures { IsTrue result ↔ IsSame self.now other.now }
    {
        self.form() == other.form()
            && self.version_path().same(other.version_path())
            && self.root() == other.root()
            && self.parts.types().same(other.parts.types())
    }
}
