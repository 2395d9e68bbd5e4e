//! Whether a kind word is no leaf kind of the form of the saves.
ghost use Rattle.std.specs.Prelude.{◌≡◌, map};
ghost use Rattle.mig_model.specs.Const.{const_kind};
ghost use Rattle.mig_syntax.specs.RuleView.{const_of, leaf_of};
ghost use Rattle.mig_syntax.specs.TemplateSyntax.{fields_of, cases_of};
ghost use Rattle.mig_syntax.specs.TemplateView.{template_of, field_of};
ghost use Rattle.mig_resolve_template.specs.Constants.{const_from, is_wrong_kind, const_is_wrong, leaf_is_wrong};
ghost use Rattle.mig_resolve_template.specs.Templates.{template_is_wrong, fields_are_wrong, cases_are_wrong};

use mig_model::{Form, Kind};
use mig_syntax::{CaseText, ChoiceText, ConstText, FieldText, LeafText, TemplateText};
use mig_template::KindSet;

/// Whether the kind is no leaf kind of the form.
pub fn is_wrong_kind(form: Form, kind: Kind) -> bool
    ensures { result ≡ is_wrong_kind form kind }
{
    !(kind.is_leaf() && KindSet::of_form(form).has(kind))
}

/// The kind of the constant that the syntax stands for.
fn kind_of(constant: &ConstText) -> Kind
    ensures { result ≡ const_kind (const_from (const_of constant.now)) }
{
    match constant {
        ConstText::Number(Kind::Byte, _) => Kind::Byte,
        ConstText::Number(Kind::Short, _) => Kind::Short,
        ConstText::Number(Kind::Int, _) => Kind::Int,
        ConstText::Number(Kind::Long, _) => Kind::Long,
        ConstText::Number(_, _) => Kind::Whole,
        ConstText::Bits(Kind::Float, _) => Kind::Float,
        ConstText::Bits(_, _) => Kind::Double,
        ConstText::Text(_) => Kind::Text,
        ConstText::Bool(_) => Kind::Bool,
        ConstText::Null => Kind::Null,
        ConstText::Empty(Kind::Bytes) => Kind::Bytes,
        ConstText::Empty(Kind::Ints) => Kind::Ints,
        ConstText::Empty(_) => Kind::Longs,
    }
}

/// Whether the constant's kind is no leaf kind of the form.
pub fn const_is_wrong(form: Form, constant: &ConstText) -> bool
    ensures { result ≡ const_is_wrong form (const_of constant.now) }
{
    is_wrong_kind(form, kind_of(constant))
}

/// Whether a kind in the function is no leaf kind of the form.
pub fn leaf_is_wrong(form: Form, function: &LeafText) -> bool
    ensures { result ≡ leaf_is_wrong form (leaf_of function.now) }
{
    match function {
        LeafText::Const(constant) | LeafText::OfText(constant) => const_is_wrong(form, constant),
        LeafText::To(kind) => is_wrong_kind(form, *kind),
        LeafText::Plus(_)
        | LeafText::Times(_)
        | LeafText::Clamp(_, _)
        | LeafText::ToText
        | LeafText::Table(_)
        | LeafText::Prefix(_)
        | LeafText::Strip(_)
        | LeafText::Lower => false,
    }
}

/// Whether a kind word in the template is no leaf kind of the form.
#[cycle(wrong)]
pub fn template_is_wrong(form: Form, template: &TemplateText) -> bool
    ensures { result ≡ template_is_wrong form (template_of template.now) }
{
    match template {
        TemplateText::Leaf(kind) => is_wrong_kind(form, *kind),
        TemplateText::Any | TemplateText::Point(_) => false,
        TemplateText::List(part) => template_is_wrong(form, part.get()),
        TemplateText::Rec(record) => {
            if fields_are_wrong(form, record.fields.as_slice()) {
                return true;
            }
            match &record.choice {
                Some(choice) => choice_is_wrong(form, choice),
                None => false,
            }
        }
        TemplateText::Sum(left, right) => {
            template_is_wrong(form, left.get()) || template_is_wrong(form, right.get())
        }
    }
}

/// Whether a kind word in the fields is no leaf kind of the form.
#[cycle(wrong)]
pub fn fields_are_wrong(form: Form, fields: &[FieldText]) -> bool
    ensures { result ≡ fields_are_wrong form (fields_of (map field_of fields.now)) }
{
    for field in fields {
        if template_is_wrong(form, &field.template) {
            return true;
        }
    }
    false
}

/// Whether a kind word in the cases is no leaf kind of the form.
#[cycle(wrong)]
fn choice_is_wrong(form: Form, choice: &ChoiceText) -> bool
    ensures { result ≡ cases_are_wrong form (cases_of choice.now.1.0) }
{
    for case in choice.cases() {
        if fields_are_wrong(form, case.fields.as_slice()) {
            return true;
        }
    }
    false
}
