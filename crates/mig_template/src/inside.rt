//! Whether a template, or one inside it, passes a test: one walk for every test.
ghost use Rattle.std.specs.Prelude.{◌≡◌, Bool};
ghost use Rattle.mig_model.specs.Family.{is_point, any_inside, any_in_fields, any_in_cases};
ghost use Rattle.mig_model.specs.Template as model;
ghost use Rattle.mig_model.specs.Template.{fields_of, cases_of};
ghost use Rattle.mig_template.specs.View.{template_of};

use crate::{Choice, Fields, Template};

/// What is asked of a template by itself.
pub trait TemplateTest {
    ghost passes: { Self → model.Template → Bool };

    /// Whether the template itself passes.
    fn passes(&self, template: &Template) -> bool
        ensures { result ≡ passes self.now (template_of template.now) };
}

/// Whether the template or one inside it passes the test. A point isn't followed.
#[cycle(inside)]
pub fn passes_inside<T: TemplateTest>(test: &T, template: &Template) -> bool
    ensures { result ≡ any_inside (T.passes test.now) (template_of template.now) }
{
    if test.passes(template) {
        return true;
    }
    match template {
        Template::Leaf(_) | Template::Any | Template::Point(_) => false,
        Template::List(part) => passes_inside(test, part.get()),
        Template::Rec(record) => {
            if passes_in_fields(test, record.fields()) {
                return true;
            }
            match record.choice() {
                Some(choice) => passes_in_choice(test, choice),
                None => false,
            }
        }
        Template::Sum(left, right) => {
            passes_inside(test, left.get()) || passes_inside(test, right.get())
        }
    }
}

// Whether a template in the fields passes.
#[cycle(inside)]
fn passes_in_fields<T: TemplateTest>(test: &T, fields: &Fields) -> bool
    ensures { result ≡ any_in_fields (T.passes test.now) (fields_of fields.now) }
{
    for field in fields.as_slice() {
        if passes_inside(test, &field.template) {
            return true;
        }
    }
    false
}

// Whether a template in the cases passes.
#[cycle(inside)]
fn passes_in_choice<T: TemplateTest>(test: &T, choice: &Choice) -> bool
    ensures { result ≡ any_in_cases (T.passes test.now) (cases_of choice.now.1) }
{
    for case in choice.cases() {
        if passes_in_fields(test, &case.fields) {
            return true;
        }
    }
    false
}

/// Whether it is a point.
pub fn is_point(template: &Template) -> bool
    ensures { result ≡ is_point (template_of template.now) }
{
    matches!(template, Template::Point(_))
}

/// The test of `is_point`.
pub struct IsPoint;

impl TemplateTest for IsPoint {
    ghost passes = { λ test. is_point };

    fn passes(&self, template: &Template) -> bool {
        is_point(template)
    }
}
