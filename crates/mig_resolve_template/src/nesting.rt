//! Whether a template nests deeper than so many levels.
ghost use Rattle.std.specs.Prelude.{◌≡◌, map};
ghost use Rattle.mig_syntax.specs.TemplateSyntax.{fields_of, cases_of};
ghost use Rattle.mig_syntax.specs.TemplateView.{template_of, field_of};
ghost use Rattle.mig_resolve_template.specs.Templates.{nests_above, fields_nest_above, cases_nest_above};

use mig_syntax::{ChoiceText, FieldText, TemplateText};

/// Whether more than so many templates stand on the longest way down, this one counted.
#[cycle(nesting)]
pub fn nests_above(levels: usize, template: &TemplateText) -> bool
    ensures { result ≡ nests_above levels (template_of template.now) }
{
    if levels == 0 {
        return true;
    }
    let below = levels - 1;
    match template {
        TemplateText::Leaf(_) | TemplateText::Any | TemplateText::Point(_) => false,
        TemplateText::List(part) => nests_above(below, part.get()),
        TemplateText::Rec(record) => {
            if fields_nest_above(below, record.fields.as_slice()) {
                return true;
            }
            match &record.choice {
                Some(choice) => choice_nests_above(below, choice),
                None => false,
            }
        }
        TemplateText::Sum(left, right) => {
            nests_above(below, left.get()) || nests_above(below, right.get())
        }
    }
}

/// Whether it is so for the template of a field.
#[cycle(nesting)]
pub fn fields_nest_above(levels: usize, fields: &[FieldText]) -> bool
    ensures { result ≡ fields_nest_above levels (fields_of (map field_of fields.now)) }
{
    for field in fields {
        if nests_above(levels, &field.template) {
            return true;
        }
    }
    false
}

/// Whether it is so for the template of a field of a case.
#[cycle(nesting)]
fn choice_nests_above(levels: usize, choice: &ChoiceText) -> bool
    ensures { result ≡ cases_nest_above levels (cases_of choice.now.1.0) }
{
    for case in choice.cases() {
        if fields_nest_above(levels, case.fields.as_slice()) {
            return true;
        }
    }
    false
}
