//! What becomes of a template by what becomes of its children.
ghost use Rattle.std.specs.Prelude.{◌≡◌, None, IfOk, OnOk, length, map, option_map, unwrap_or};
ghost use Rattle.mig_model.specs.Record.{choice_of, record_of};
ghost use Rattle.mig_template.specs.Retyped.{HavePlaces, cases_or_none, record_with};
ghost use Rattle.mig_template.specs.View.{template_of, case_of, given_templates};
ghost use Rattle.mig_rule.specs.Children as model;
ghost use Rattle.mig_rule.specs.Children.{field_children, case_children, choice_children};
ghost use Rattle.mig_rule.specs.Step.{Answers, outcome_of, met_all, new_templates, case_templates, decided, met_one, none_met};
ghost use Rattle.mig_rule.specs.Target as target;
ghost use Rattle.mig_rule.specs.Target.{by_children, changed_or};
ghost use Rattle.mig_model.specs.Template.{list, sum, fields_of, cases_of};

use crate::outcome::{Child, Met, Outcome};
use mig_template::{Case, Fields, Record, Template, TemplateBox};
use mig_tree::Memory;
use std::alloc::Global;

/// The new template of each field that becomes another.
pub fn of_fields<F: Fn(Child) -> Result<Outcome, Memory>>(
    alloc: Global,
    step: &F,
    fields: &Fields,
    met: &mut Met,
) -> Result<Vec<Option<Template>>, Memory>
    requires { F.IsAlwaysCallable step.now }
    ensures length { IfOk result (λ list. length (given_templates list) ≡ length fields.now) }
    ensures list { (o : model.Child → target.Outcome) → Answers (F.post step.now) o →
        IfOk result (λ list. given_templates list ≡ new_templates o (field_children (fields_of fields.now))) }
    ensures met { (o : model.Child → target.Outcome) → Answers (F.post step.now) o →
        OnOk result (met.new ≡ met_all o (field_children (fields_of fields.now)) met.old) }
{
    let mut list = Vec::new(alloc);
    for field in fields.as_slice() {
        let child = Child {
            name: Some(&field.name),
            template: &field.template,
        };
        let outcome = step(child)?;
        list.push(outcome.noted(met))?;
    }
    Ok(list)
}

/// The same for the fields of each case.
pub fn of_cases<F: Fn(Child) -> Result<Outcome, Memory>>(
    alloc: Global,
    step: &F,
    cases: &[Case],
    met: &mut Met,
) -> Result<Vec<Vec<Option<Template>>>, Memory>
    requires { F.IsAlwaysCallable step.now }
    ensures places { IfOk result (λ list. HavePlaces (map given_templates list.items) (map case_of cases.now)) }
    ensures list { (o : model.Child → target.Outcome) → Answers (F.post step.now) o →
        IfOk result (λ list. map given_templates list.items ≡ case_templates o (map case_of cases.now)) }
    ensures met { (o : model.Child → target.Outcome) → Answers (F.post step.now) o →
        OnOk result (met.new ≡ met_all o (case_children (cases_of (map case_of cases.now))) met.old) }
{
    let mut list = Vec::new(alloc);
    for case in cases {
        list.push(of_fields(alloc, step, &case.fields, met)?)?;
    }
    Ok(list)
}

/// The same for the cases of the record, if it has some.
pub fn of_choice<F: Fn(Child) -> Result<Outcome, Memory>>(
    alloc: Global,
    step: &F,
    on: &Record,
    met: &mut Met,
) -> Result<Vec<Vec<Option<Template>>>, Memory>
    requires { F.IsAlwaysCallable step.now }
    ensures places { IfOk result (λ list. HavePlaces (map given_templates list.items) (cases_or_none on.now.choice)) }
    ensures list { (o : model.Child → target.Outcome) → Answers (F.post step.now) o →
        IfOk result (λ list. map given_templates list.items ≡ case_templates o (cases_or_none on.now.choice)) }
    ensures met { (o : model.Child → target.Outcome) → Answers (F.post step.now) o →
        OnOk result (met.new ≡ met_all o (choice_children (choice_of on.now.choice)) met.old) }
{
    match on.choice() {
        Some(choice) => of_cases(alloc, step, choice.cases(), met),
        None => Ok(Vec::new(alloc)),
    }
}

/// A record with the new templates, where one is new; unfit where a child was.
fn decided(
    alloc: Global,
    on: &Record,
    met: Met,
    common: Vec<Option<Template>>,
    cased: Vec<Vec<Option<Template>>>,
) -> Result<Outcome, Memory>
    requires common { length (given_templates common) ≡ length on.now.fields }
    requires cased { HavePlaces (map given_templates cased.items) (cases_or_none on.now.choice) }
    ensures { IfOk result (λ x. outcome_of x ≡ decided met (record_of (record_with (given_templates common)
        (map given_templates cased.items) on.now))) }
{
    if met.unfit {
        return Ok(Outcome::Unfit);
    }
    if !met.changed {
        return Ok(Outcome::Stays);
    }
    let record = on.with_templates(alloc, common, cased)?;
    Ok(Outcome::Becomes(Template::Rec(record)))
}

/// What becomes of a record by what becomes of its fields and those of its cases.
pub fn of_record<F: Fn(Child) -> Result<Outcome, Memory>>(
    alloc: Global,
    step: &F,
    on: &Record,
) -> Result<Outcome, Memory>
    requires { F.IsAlwaysCallable step.now }
    ensures { (o : model.Child → target.Outcome) → Answers (F.post step.now) o →
        IfOk result (λ x. outcome_of x ≡ by_children o (record_of on.now)) }
{
    let mut met = Met {
        changed: false,
        unfit: false,
    };
    let common = of_fields(alloc, step, on.fields(), &mut met)?;
    let cased = of_choice(alloc, step, on, &mut met)?;
    decided(alloc, on, met, common, cased)
}

/// What the step answers for a child without a name.
fn ask<F: Fn(Child) -> Result<Outcome, Memory>>(
    step: &F,
    template: &Template,
) -> Result<Outcome, Memory>
    requires { F.IsAlwaysCallable step.now }
    ensures { (o : model.Child → target.Outcome) → Answers (F.post step.now) o →
        IfOk result (λ x. outcome_of x ≡ o (None, template_of template.now)) }
{
    let child = Child {
        name: None,
        template,
    };
    step(child)
}

/// What becomes of a list of such items.
fn of_list<F: Fn(Child) -> Result<Outcome, Memory>>(
    alloc: Global,
    step: &F,
    part: &Template,
) -> Result<Outcome, Memory>
    requires { F.IsAlwaysCallable step.now }
    ensures { (o : model.Child → target.Outcome) → Answers (F.post step.now) o →
        IfOk result (λ x. outcome_of x ≡ by_children o (list (template_of part.now))) }
{
    match ask(step, part)? {
        Outcome::Stays => Ok(Outcome::Stays),
        Outcome::Becomes(part) => {
            let part = TemplateBox::new(alloc, part)?;
            Ok(Outcome::Becomes(Template::List(part)))
        }
        Outcome::Unfit => Ok(Outcome::Unfit),
    }
}

/// The new template on the heap, or a copy of the old one.
fn boxed(alloc: Global, new: Option<Template>, old: &Template) -> Result<TemplateBox, Memory>
    ensures { IfOk result (λ b. b ≡ unwrap_or (option_map template_of new) (template_of old.now)) }
{
    let template = match new {
        Some(template) => template,
        None => old.copy(alloc)?,
    };
    TemplateBox::new(alloc, template)
}

/// A sum with the new sides, where one is new; unfit where a side was.
fn decided_sum(
    alloc: Global,
    left: &Template,
    right: &Template,
    one: Outcome,
    other: Outcome,
) -> Result<Outcome, Memory>
    ensures { IfOk result (λ x. outcome_of x ≡ decided (met_one (outcome_of other) (met_one (outcome_of one) none_met))
        (sum (changed_or (template_of left.now) (outcome_of one)) (changed_or (template_of right.now)
        (outcome_of other)))) }
{
    let mut met = Met {
        changed: false,
        unfit: false,
    };
    let one = one.noted(&mut met);
    let other = other.noted(&mut met);
    if met.unfit {
        return Ok(Outcome::Unfit);
    }
    if !met.changed {
        return Ok(Outcome::Stays);
    }
    let left = boxed(alloc, one, left)?;
    let right = boxed(alloc, other, right)?;
    Ok(Outcome::Becomes(Template::Sum(left, right)))
}

/// What becomes of a sum of the two.
fn of_sum<F: Fn(Child) -> Result<Outcome, Memory>>(
    alloc: Global,
    step: &F,
    left: &Template,
    right: &Template,
) -> Result<Outcome, Memory>
    requires { F.IsAlwaysCallable step.now }
    ensures { (o : model.Child → target.Outcome) → Answers (F.post step.now) o →
        IfOk result (λ x. outcome_of x ≡ by_children o (sum (template_of left.now) (template_of right.now))) }
{
    let one = ask(step, left)?;
    let other = ask(step, right)?;
    decided_sum(alloc, left, right, one, other)
}

/// What becomes of a template by what becomes of its children, as the step answers for each. The copies are of what stays beside a new child.
pub fn by_children<F: Fn(Child) -> Result<Outcome, Memory>>(
    alloc: Global,
    step: &F,
    template: &Template,
) -> Result<Outcome, Memory>
    requires { F.IsAlwaysCallable step.now }
    ensures { (o : model.Child → target.Outcome) → Answers (F.post step.now) o →
        IfOk result (λ x. outcome_of x ≡ by_children o (template_of template.now)) }
{
    match template {
        Template::Leaf(_) | Template::Any | Template::Point(_) => Ok(Outcome::Stays),
        Template::List(part) => of_list(alloc, step, part.get()),
        Template::Sum(left, right) => of_sum(alloc, step, left.get(), right.get()),
        Template::Rec(record) => of_record(alloc, step, record),
    }
}
