//! Templates, the types of trees.
ghost use Rattle.std.specs.Prelude.{◌≡◌, ◌↔◌, IfOk, IsTrue};

use crate::kinds::same_kind;
use crate::{Form, IsPoint, Kind, KindSet, Memory, Name, Record, passes_inside};
use std::alloc::Global;
use std::marker::Model;

/// What a tree may be: a leaf of a kind, any tree of the form, a list of one template, a named type, a record, or one of two.
#[cycle(template)]
#[derive(Debug, Drop)]
pub enum Template {
    Leaf(Kind),
    Any,
    List(TemplateBox),
    /// The name of a type.
    Point(Name),
    Rec(Record),
    Sum(TemplateBox, TemplateBox),
}

/// A template on the heap.
#[cycle(template)]
#[derive(Debug)]
pub struct TemplateBox {
    template: Box<Template>,
}

impl Drop for TemplateBox {
    #[cycle(drops)]
    fn drop(self) {
        let TemplateBox { template } = self;
        drop(template);
    }
}

impl Model for TemplateBox {
    ghost use Rattle.mig_model.specs.Template.{Template};
    ghost use Rattle.mig_template.specs.Code.{coded_template};

    ghost Value = { Template };

    ghost coded = { coded_template };

    ghost use Rattle.mig_template.specs.View.{template_of};

    ghost view = { λ a. template_of a.template.value };

    ghost use Rattle.mig_model.specs.TemplateKept.{TemplateKept};

    ghost invariant = { λ a. TemplateKept (template_of a.template.value) };

    ghost use Rattle.mig_template.specs.Size.{template_size};

    ghost size = { template_size };

    ghost use Rattle.std.proofs.Common.{arith};
    ghost use Rattle.mig_template.specs.Falls.{deep_le};

    ghost size_decreases = { λ a h. omega (arith, deep_le a.template.value) };
}

impl TemplateBox {
    ghost use Rattle.mig_template.specs.View.{template_of};
    ghost use Rattle.mig_model.specs.TemplateKept.{TemplateKept};

    /// The template, on the heap.
    pub fn new(alloc: Global, template: Template) -> Result<TemplateBox, Memory>
        ensures { IfOk result (λ b. b ≡ template_of template) }
    {
        template.keeps();
        Ok(TemplateBox {
            template: Box::new(alloc, template)?,
        })
    }

    /// The template itself.
    pub fn get(&self) -> &Template
        ensures template { template_of result.now ≡ self.now }
        ensures keep { TemplateKept self.now }
    {
        &*self.template
    }
}

impl Template {
    ghost use Rattle.mig_model.specs.declared.kind.Kind as model;
    ghost use Rattle.mig_model.specs.Family.{has_point, sides_overlap};
    ghost use Rattle.mig_model.specs.Template.{has_kind, sum};
    ghost use Rattle.mig_template.specs.KindSet.{is_in};
    ghost use Rattle.mig_template.specs.View.{template_of};
    ghost use Rattle.mig_model.specs.TemplateKept.{TemplateKept};

    /// Does nothing. Its contract tells what every template keeps at every depth.
    pub fn keeps(&self)
        ensures { TemplateKept (template_of self.now) }
    {
        match self {
            Template::List(part) => {
                let _part = part.get();
            }
            Template::Rec(record) => record.keeps(),
            Template::Sum(left, right) => {
                let _left = left.get();
                let _right = right.get();
            }
            Template::Leaf(_) | Template::Any | Template::Point(_) => {}
        }
    }

    /// The root kinds: a leaf has its kind, a list List, a record Map, a sum those of both sides, `Any` all kinds of the form, and a point none.
    pub fn kinds(&self, form: Form) -> KindSet
        ensures { (k : model.Kind) → is_in result k ≡ has_kind form (template_of self.now) k }
    {
        match self {
            Template::Leaf(kind) => KindSet::one(*kind),
            Template::Any => KindSet::of_form(form),
            Template::List(_) => KindSet::one(Kind::List),
            Template::Point(_) => KindSet::none(),
            Template::Rec(_) => KindSet::one(Kind::Map),
            Template::Sum(left, right) => {
                let left = left.get().kinds(form);
                let right = right.get().kinds(form);
                left.union(right)
            }
        }
    }

    /// Whether the two have a root kind in common, so that a sum of them couldn't be told by its kinds.
    pub fn shares_kind(&self, form: Form, other: &Template) -> bool
        ensures { result ≡ sides_overlap form (sum (template_of self.now) (template_of other.now)) }
    {
        let kinds = self.kinds(form);
        let others = other.kinds(form);
        kinds.meets(&others)
    }

    /// Whether a point occurs in it.
    pub fn has_point(&self) -> bool
        ensures { result ≡ has_point (template_of self.now) }
    {
        passes_inside(&IsPoint, self)
    }

    /// An equal template.
    #[cycle(copy)]
    pub fn copy(&self, alloc: Global) -> Result<Template, Memory>
        ensures { IfOk result (λ t. template_of t ≡ template_of self.now) }
    {
        match self {
            Template::Leaf(kind) => Ok(Template::Leaf(*kind)),
            Template::Any => Ok(Template::Any),
            Template::List(part) => {
                let part = part.get().copy(alloc)?;
                Ok(Template::List(TemplateBox::new(alloc, part)?))
            }
            Template::Point(name) => Ok(Template::Point(name.copy(alloc)?)),
            Template::Rec(record) => Ok(Template::Rec(record.copy(alloc)?)),
            Template::Sum(left, right) => {
                let left = left.get().copy(alloc)?;
                let right = right.get().copy(alloc)?;
                let left = TemplateBox::new(alloc, left)?;
                Ok(Template::Sum(left, TemplateBox::new(alloc, right)?))
            }
        }
    }

    /// Whether the two are equal.
    #[cycle(same)]
    pub fn same(&self, other: &Template) -> bool
        ensures { IsTrue result ↔ (template_of self.now ≡ template_of other.now) }
    {
        match self {
            Template::Leaf(kind) => match other {
                Template::Leaf(other) => same_kind(*kind, *other),
                _ => false,
            },
            Template::Any => matches!(other, Template::Any),
            Template::List(part) => match other {
                Template::List(other) => part.get().same(other.get()),
                _ => false,
            },
            Template::Point(name) => match other {
                Template::Point(other) => name.bytes() == other.bytes(),
                _ => false,
            },
            Template::Rec(record) => match other {
                Template::Rec(other) => record.same(other),
                _ => false,
            },
            Template::Sum(left, right) => match other {
                Template::Sum(first, second) => {
                    left.get().same(first.get()) && right.get().same(second.get())
                }
                _ => false,
            },
        }
    }
}
