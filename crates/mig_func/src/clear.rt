//! Whether each sum in a template can be told by the kinds of its sides.
ghost use Rattle.std.specs.Prelude.{◌≡◌};
ghost use Rattle.mig_field.specs.NewRecord.{is_unclear, is_clear};
ghost use Rattle.mig_model.specs.Template.{sum};
ghost use Rattle.mig_template.specs.View.{template_of};

use mig_template::{Template, TemplateTest, is_point, passes_inside};
use mig_tree::Form;

/// Whether a sum of the two is one whose sides aren't told apart by their kinds.
fn is_unclear_sum(left: &Template, right: &Template) -> bool
    ensures { result ≡ is_unclear (sum (template_of left.now) (template_of right.now)) }
{
    matches!(left, Template::Any)
        || matches!(right, Template::Any)
        || is_point(left)
        || is_point(right)
        || left.shares_kind(Form::Nbt, right)
}

/// Whether it is a sum whose sides aren't told apart by their kinds.
fn is_unclear(template: &Template) -> bool
    ensures { result ≡ is_unclear (template_of template.now) }
{
    match template {
        Template::Leaf(_)
        | Template::Any
        | Template::List(_)
        | Template::Point(_)
        | Template::Rec(_) => false,
        Template::Sum(left, right) => is_unclear_sum(left.get(), right.get()),
    }
}

// The test of `is_unclear`.
struct IsUnclear;

impl TemplateTest for IsUnclear {
    ghost passes = { λ test. is_unclear };

    fn passes(&self, template: &Template) -> bool {
        is_unclear(template)
    }
}

/// Whether the sides of each sum in the template are told apart by their kinds.
pub fn is_clear(template: &Template) -> bool
    ensures { result ≡ is_clear (template_of template.now) }
{
    !passes_inside(&IsUnclear, template)
}
