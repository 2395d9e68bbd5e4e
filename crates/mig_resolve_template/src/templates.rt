//! Templates out of their syntax.
ghost use Rattle.std.specs.Prelude.{◌≡◌, map, not, is_some, Some, IfOk, IfSome};
ghost use Rattle.mig_model.specs.Record.{choice_of};
ghost use Rattle.mig_model.specs.Template as model;
ghost use Rattle.mig_syntax.specs.TemplateSyntax as syntax;
ghost use Rattle.mig_syntax.specs.TemplateSyntax.{fields_of, cases_of};
ghost use Rattle.mig_syntax.specs.TemplateView as text;
ghost use Rattle.mig_template.specs.View as values;
ghost use Rattle.mig_template.specs.View.{given_case};
ghost use Rattle.mig_resolve_template.specs.Templates.{presence_from, rest_from, in_order, choice_in_order, template_from, given_fields, given_choice, given_cases, is_no_record, template_is_twice, fields_are_twice, cases_are_twice};

use mig_model::{Memory, Name, Presence, Rest};
use mig_syntax::{CaseText, ChoiceText, FieldText, RecordText, TemplateText};
use mig_template::{Field, Record, RecordFault, Template, TemplateBox};
use std::alloc::Global;

/// A literal, and the fields of its case as they are written.
type GivenCase = (Name, Vec<Field>);

/// The name of the tag, the cases as they are written, and whether a tag that is no literal is kept.
type GivenChoice = (Name, Vec<GivenCase>, bool);

/// `May` where `?` stands.
fn presence(may: bool) -> Presence
    ensures { result ≡ presence_from may }
{
    if may { Presence::May } else { Presence::Must }
}

/// `Open` where `..` stands.
fn rest(dots: bool) -> Rest
    ensures { result ≡ rest_from dots }
{
    if dots { Rest::Open } else { Rest::Closed }
}

/// The record of these parts, and `None` where they make none. It puts them in order.
fn ordered_record(
    alloc: Global,
    fields: Vec<Field>,
    choice: Option<GivenChoice>,
    dots: bool,
) -> Result<Option<Template>, Memory>
    ensures some { IfOk result (λ o. IfSome o (λ t. values.template_of t
        ≡ model.rec (model.fields_of (in_order (map values.field_of fields.items)))
        (choice_of (choice_in_order (values.given_choice choice))) (rest_from dots))) }
    ensures twice { IfOk result (λ o. is_some o
        ≡ not (is_no_record (map values.field_of fields.items) (values.given_choice choice))) }
{
    match Record::new(alloc, fields, choice, rest(dots)) {
        Ok(record) => Ok(Some(Template::Rec(record))),
        Err(RecordFault::TwiceNamed | RecordFault::NoCase) => Ok(None),
        Err(RecordFault::Memory) => Err(Memory),
    }
}

/// The list of one template.
fn list_of(alloc: Global, part: Template) -> Result<Template, Memory>
    ensures { IfOk result (λ t. values.template_of t ≡ model.list (values.template_of part)) }
{
    Ok(Template::List(TemplateBox::new(alloc, part)?))
}

/// One template or the other.
fn sum_of(alloc: Global, left: Template, right: Template) -> Result<Template, Memory>
    ensures { IfOk result (λ t.
        values.template_of t ≡ model.sum (values.template_of left) (values.template_of right)) }
{
    let left = TemplateBox::new(alloc, left)?;
    Ok(Template::Sum(left, TemplateBox::new(alloc, right)?))
}

/// The template that the syntax stands for; `None` where names of a record in it that must be distinct aren't, or a choice has no case.
#[cycle(resolving)]
pub fn template(alloc: Global, template: &TemplateText) -> Result<Option<Template>, Memory>
    ensures some { IfOk result (λ o. IfSome o (λ t.
        values.template_of t ≡ template_from (text.template_of template.now))) }
    ensures twice { IfOk result (λ o. is_some o ≡ not (template_is_twice (text.template_of template.now))) }
{
    match template {
        TemplateText::Leaf(kind) => Ok(Some(Template::Leaf(*kind))),
        TemplateText::Any => Ok(Some(Template::Any)),
        TemplateText::Point(name) => Ok(Some(Template::Point(name.copy(alloc)?))),
        TemplateText::List(part) => match self::template(alloc, part.get())? {
            Some(part) => Ok(Some(list_of(alloc, part)?)),
            None => Ok(None),
        },
        TemplateText::Rec(record) => record_template(alloc, record),
        TemplateText::Sum(left, right) => {
            let Some(left) = self::template(alloc, left.get())? else {
                return Ok(None);
            };
            match self::template(alloc, right.get())? {
                Some(right) => Ok(Some(sum_of(alloc, left, right)?)),
                None => Ok(None),
            }
        }
    }
}

/// The template of a record.
#[cycle(resolving)]
fn record_template(alloc: Global, record: &RecordText) -> Result<Option<Template>, Memory>
    ensures some { IfOk result (λ o. IfSome o (λ t. values.template_of t
        ≡ template_from (syntax.record_of (fields_of record.now.fields) (syntax.choice_of record.now.choice)
        record.now.dots))) }
    ensures twice { IfOk result (λ o. is_some o
        ≡ not (template_is_twice (syntax.record_of (fields_of record.now.fields)
        (syntax.choice_of record.now.choice) record.now.dots))) }
{
    let Some(common) = fields(alloc, record.fields.as_slice())? else {
        return Ok(None);
    };
    match &record.choice {
        Some(choice) => match given_choice(alloc, choice)? {
            Some(choice) => ordered_record(alloc, common, Some(choice), record.dots),
            None => Ok(None),
        },
        None => ordered_record(alloc, common, None, record.dots),
    }
}

/// The field as it is written.
#[cycle(resolving)]
fn given_field(alloc: Global, field: &FieldText) -> Result<Option<Field>, Memory>
    ensures some { IfOk result (λ o. IfSome o (λ f. values.field_of f
        ≡ (field.now.name, (presence_from field.now.may, template_from (text.template_of field.now.template))))) }
    ensures twice { IfOk result (λ o. is_some o ≡ not (template_is_twice (text.template_of field.now.template))) }
{
    let Some(template) = self::template(alloc, &field.template)? else {
        return Ok(None);
    };
    let name = field.name.copy(alloc)?;
    Ok(Some(Field {
        name,
        presence: presence(field.may),
        template,
    }))
}

/// The fields in the order in which they are written, whatever their names; `None` where the template of one is none.
#[cycle(resolving)]
pub fn fields(alloc: Global, fields: &[FieldText]) -> Result<Option<Vec<Field>>, Memory>
    ensures some { IfOk result (λ o. IfSome o (λ list.
        map values.field_of list.items ≡ given_fields (fields_of (map text.field_of fields.now)))) }
    ensures twice { IfOk result (λ o. is_some o
        ≡ not (fields_are_twice (fields_of (map text.field_of fields.now)))) }
{
    let mut list = Vec::new(alloc);
    for field in fields {
        match given_field(alloc, field)? {
            Some(field) => list.push(field)?,
            None => return Ok(None),
        }
    }
    Ok(Some(list))
}

/// The cases in the order in which they are written, whatever their literals.
#[cycle(resolving)]
fn given_cases(alloc: Global, cases: &[CaseText]) -> Result<Option<Vec<GivenCase>>, Memory>
    ensures some { IfOk result (λ o. IfSome o (λ list.
        map given_case list.items ≡ given_cases (cases_of (map text.case_of cases.now)))) }
    ensures twice { IfOk result (λ o. is_some o
        ≡ not (cases_are_twice (cases_of (map text.case_of cases.now)))) }
{
    let mut list = Vec::new(alloc);
    for case in cases {
        let Some(fields) = fields(alloc, case.fields.as_slice())? else {
            return Ok(None);
        };
        list.push((case.literal.copy(alloc)?, fields))?;
    }
    Ok(Some(list))
}

/// The choice as it is written.
#[cycle(resolving)]
fn given_choice(alloc: Global, choice: &ChoiceText) -> Result<Option<GivenChoice>, Memory>
    ensures some { IfOk result (λ o. IfSome o (λ c. values.given_choice (Some c)
        ≡ given_choice (syntax.choice_of (Some choice.now)))) }
    ensures twice { IfOk result (λ o. is_some o ≡ not (cases_are_twice (cases_of choice.now.1.0))) }
{
    let Some(cases) = given_cases(alloc, choice.cases())? else {
        return Ok(None);
    };
    let tag = choice.tag().copy(alloc)?;
    Ok(Some((tag, cases, choice.kept())))
}
