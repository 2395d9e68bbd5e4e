//! What fills a new field.
ghost use Rattle.std.specs.Prelude.{◌≡◌, IfOk};
ghost use Rattle.mig_field.specs.FieldFn.{fill_template};
ghost use Rattle.mig_field.specs.SameTemplate.{same_template};
ghost use Rattle.mig_model.specs.Template.{leaf, list};
ghost use Rattle.mig_template.specs.View.{template_of};
ghost use Rattle.mig_func.specs.View.{fill_of};

use mig_leaf::Const;
use mig_template::{Template, TemplateBox};
use mig_tree::{Kind, Memory};
use std::alloc::Global;

/// What a new field gets.
#[derive(Debug)]
pub enum Fill {
    /// The constant.
    Const(Const),
    /// An empty list, whose items would have the template.
    EmptyList(Template),
}

// By hand, as that of `FieldOp` is.
impl Drop for Fill {
    fn drop(self) {
        match self {
            Fill::Const(constant) => drop(constant),
            Fill::EmptyList(item) => drop(item),
        }
    }
}

/// Whether it is a leaf of the kind.
fn is_leaf_of(template: &Template, kind: Kind) -> bool
    ensures { result ≡ same_template (template_of template.now) (leaf kind) }
{
    match template {
        Template::Leaf(other) => *other == kind,
        Template::Any
        | Template::List(_)
        | Template::Point(_)
        | Template::Rec(_)
        | Template::Sum(_, _) => false,
    }
}

/// Whether the two templates are equal.
fn is_same(one: &Template, other: &Template) -> bool
    ensures { result ≡ same_template (template_of one.now) (template_of other.now) }
{
    one.same(other)
}

/// Whether it is a list of such items.
fn is_list_of(template: &Template, item: &Template) -> bool
    ensures { result ≡ same_template (template_of template.now) (list (template_of item.now)) }
{
    match template {
        Template::List(part) => is_same(part.get(), item),
        Template::Leaf(_)
        | Template::Any
        | Template::Point(_)
        | Template::Rec(_)
        | Template::Sum(_, _) => false,
    }
}

impl Fill {
    /// The template of what the field gets.
    pub fn template(&self, alloc: Global) -> Result<Template, Memory>
        ensures { IfOk result (λ t. template_of t ≡ fill_template (fill_of self.now)) }
    {
        match self {
            Fill::Const(constant) => Ok(Template::Leaf(constant.kind())),
            Fill::EmptyList(item) => {
                let item = item.copy(alloc)?;
                Ok(Template::List(TemplateBox::new(alloc, item)?))
            }
        }
    }

    /// Whether the template is that of what the field gets.
    pub fn is_of(&self, template: &Template) -> bool
        ensures { result ≡ same_template (template_of template.now) (fill_template (fill_of self.now)) }
    {
        match self {
            Fill::Const(constant) => is_leaf_of(template, constant.kind()),
            Fill::EmptyList(item) => is_list_of(template, item),
        }
    }

    /// An equal filling.
    pub fn copy(&self, alloc: Global) -> Result<Fill, Memory>
        ensures { IfOk result (λ f. fill_of f ≡ fill_of self.now) }
    {
        Ok(match self {
            Fill::Const(constant) => Fill::Const(constant.copy(alloc)?),
            Fill::EmptyList(item) => Fill::EmptyList(item.copy(alloc)?),
        })
    }
}
