//! What makes a body faulty by its own parts alone.
ghost use Rattle.std.specs.Prelude.{◌≡◌};
ghost use Rattle.mig_model.specs.declared.kind.Kind as model;
ghost use Rattle.mig_model.specs.Family.{has_kind_in, is_unknown, has_point_side, sides_overlap, is_mixed, any_inside};
ghost use Rattle.mig_template.specs.KindSet.{is_in};
ghost use Rattle.mig_template.specs.View.{template_of};
ghost use Rattle.mig_schema.specs.Check.{fails};

use crate::kinds::{is_one, is_wrong_leaf};
use crate::parts::Parts;
use crate::{Form, Template};
use mig_template::{KindSet, TemplateTest, is_point, passes_inside};

/// What is asked of each template inside a body.
#[derive(Clone, Copy, Debug, PartialEq, Eq)]
pub enum Check {
    /// A leaf of a kind that is no leaf kind of the form.
    WrongLeaf,
    /// A point to a name that is no type.
    Unknown,
    /// A sum with a point as a side.
    PointSide,
    /// A sum whose sides share a kind.
    Overlap,
    /// A list whose element hasn't exactly one kind.
    Mixed,
}

/// Whether it is a sum with a point as a side.
fn has_point_side(template: &Template) -> bool
    ensures { result ≡ has_point_side (template_of template.now) }
{
    match template {
        Template::Sum(left, right) => is_point(left.get()) || is_point(right.get()),
        _ => false,
    }
}

/// Whether it is a sum whose sides share a kind.
fn do_sides_overlap(form: Form, template: &Template) -> bool
    ensures { result ≡ sides_overlap form (template_of template.now) }
{
    match template {
        Template::Sum(left, right) => left.get().shares_kind(form, right.get()),
        _ => false,
    }
}

impl Parts {
    /// Whether it is a point to a name that is no type.
    fn is_unknown(&self, template: &Template) -> bool
        ensures { result ≡ is_unknown self.now (template_of template.now) }
    {
        match template {
            Template::Point(name) => !self.is_named(name),
            _ => false,
        }
    }

    /// The root kinds, where a point has those of its named body.
    fn kinds_in(&self, template: &Template) -> KindSet
        ensures { (k : model.Kind) → is_in result k ≡ has_kind_in self.now (template_of template.now) k }
    {
        match template {
            Template::Point(name) => match self.get(name) {
                Some(body) => body.kinds(self.form()),
                None => KindSet::of_form(self.form()),
            },
            _ => template.kinds(self.form()),
        }
    }

    /// Whether it is a list whose element hasn't exactly one kind.
    fn is_mixed(&self, template: &Template) -> bool
        ensures { result ≡ is_mixed self.now (template_of template.now) }
    {
        match template {
            Template::List(part) => {
                let kinds = self.kinds_in(part.get());
                !is_one(&kinds)
            }
            _ => false,
        }
    }

    /// Whether the template itself has what is asked.
    fn fails(&self, check: Check, template: &Template) -> bool
        ensures { result ≡ fails self.now check (template_of template.now) }
    {
        match check {
            Check::WrongLeaf => is_wrong_leaf(self.form(), template),
            Check::Unknown => self.is_unknown(template),
            Check::PointSide => has_point_side(template),
            Check::Overlap => do_sides_overlap(self.form(), template),
            Check::Mixed => self.is_mixed(template),
        }
    }

    /// Whether the template or one inside it has what is asked.
    pub fn is_inside(&self, check: Check, template: &Template) -> bool
        ensures { result ≡ any_inside (fails self.now check) (template_of template.now) }
    {
        let asked = CheckOf { parts: self, check };
        passes_inside(&asked, template)
    }
}

// A check of templates that belong to these types.
#[derive(Drop)]
struct CheckOf<'a> {
    parts: &'a Parts,
    check: Check,
}

impl<'a> TemplateTest for CheckOf<'a> {
    ghost passes = { λ c. fails c.parts.now c.check };

    fn passes(&self, template: &Template) -> bool {
        self.parts.fails(self.check, template)
    }
}
