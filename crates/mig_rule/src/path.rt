//! Where the path of a deep fix leads.
ghost use Rattle.std.specs.Prelude.{◌≡◌, true, false, map, option_map};
ghost use Rattle.mig_model.specs.Names.{under};
ghost use Rattle.mig_model.specs.Record.{record_of};
ghost use Rattle.mig_template.specs.View.{template_of};
ghost use Rattle.mig_rule.specs.Path.{end_kind, leaf_kind, step_from, step_to, whole, with_case_alone};
ghost use Rattle.mig_rule.specs.Fix.{root_spot};
ghost use Rattle.mig_rule.specs.Spot.{alone, spot_of};
ghost use Rattle.mig_rule.specs.View.{step_of};

use crate::PathStep;
use mig_schema::Family;
use mig_template::{Fields, Kind, Record, Template};
use mig_tree::Name;

/// A record with one case alone.
#[derive(Clone, Copy, Debug, Drop)]
pub struct CaseAlone<'t> {
    pub on: &'t Record,
    pub tag: &'t Name,
    pub literal: &'t Name,
    pub fields: &'t Fields,
}

/// Where a path stands.
#[derive(Clone, Copy, Debug, Drop)]
pub enum Spot<'t> {
    /// At a template.
    Whole(&'t Template),
    /// At a record whose case was chosen.
    Case(CaseAlone<'t>),
}

/// The record with the case of the literal alone, if it has that.
fn with_case_alone<'t>(on: &'t Record, literal: &'t Name) -> Option<Spot<'t>>
    ensures { option_map spot_of result ≡ with_case_alone literal.now (record_of on.now) }
{
    let choice = on.choice()?;
    let fields = on.case(literal.bytes())?;
    let case = CaseAlone {
        on,
        tag: choice.tag(),
        literal,
        fields,
    };
    Some(Spot::Case(case))
}

/// The template of the field of that name.
fn field_named<'t>(fields: &'t Fields, name: &Name) -> Option<Spot<'t>>
    ensures { option_map spot_of result ≡ option_map (λ f. whole f.1) (under name.now fields.now) }
{
    let field = fields.get(name.bytes())?;
    Some(Spot::Whole(&field.template))
}

/// The next place from a whole template.
fn step_whole<'t>(step: &'t PathStep, template: &'t Template) -> Option<Spot<'t>>
    ensures { option_map spot_of result ≡ step_to (step_of step.now) false (template_of template.now) }
{
    match template {
        Template::Rec(on) => match step {
            PathStep::Named(name) => field_named(on.fields(), name),
            PathStep::Case(literal) => with_case_alone(on, literal),
            PathStep::Each | PathStep::Left | PathStep::Right => None,
        },
        Template::List(item) => match step {
            PathStep::Each => Some(Spot::Whole(item.get())),
            PathStep::Named(_) | PathStep::Left | PathStep::Right | PathStep::Case(_) => None,
        },
        Template::Sum(left, right) => match step {
            PathStep::Left => Some(Spot::Whole(left.get())),
            PathStep::Right => Some(Spot::Whole(right.get())),
            PathStep::Named(_) | PathStep::Each | PathStep::Case(_) => None,
        },
        Template::Leaf(_) | Template::Any | Template::Point(_) => None,
    }
}

/// The next place from a record with one case alone.
fn step_in_case<'t>(step: &PathStep, case: CaseAlone<'t>) -> Option<Spot<'t>>
    ensures { option_map spot_of result ≡ step_to (step_of step.now) true
        (alone case.entry.on.now case.entry.tag.now case.entry.literal.now case.entry.fields.now).template }
{
    match step {
        PathStep::Named(name) => match field_named(case.on.fields(), name) {
            Some(spot) => Some(spot),
            None => field_named(case.fields, name),
        },
        PathStep::Case(literal) => {
            if literal.bytes().cmp(case.literal.bytes()).is_eq() {
                Some(Spot::Case(case))
            } else {
                None
            }
        }
        PathStep::Each | PathStep::Left | PathStep::Right => None,
    }
}

/// The next place; a point is crossed to the body of its type before the step.
fn step_from<'t>(family: &'t Family, step: &'t PathStep, spot: Spot<'t>) -> Option<Spot<'t>>
    ensures { option_map spot_of result ≡ step_from family.now (step_of step.now) (spot_of spot.entry) }
{
    match spot {
        Spot::Whole(Template::Point(name)) => step_whole(step, family.body(name)?),
        Spot::Whole(template) => step_whole(step, template),
        Spot::Case(case) => step_in_case(step, case),
    }
}

/// The kind of the leaf at the place.
fn leaf_kind(spot: Spot) -> Option<Kind>
    ensures { result ≡ leaf_kind (spot_of spot.entry).template }
{
    match spot {
        Spot::Whole(Template::Leaf(kind)) => Some(*kind),
        Spot::Whole(_) | Spot::Case(_) => None,
    }
}

/// The kind of the leaf at the end of the path from the root, and `None` exactly where a step can't be made or the end is no leaf.
pub fn end_kind(family: &Family, steps: &[PathStep]) -> Option<Kind>
    ensures { result ≡ end_kind family.now (map step_of steps.now) (root_spot family.now) }
{
    let mut spot = Spot::Whole(family.body(family.root())?);
    for step in steps {
        spot = step_from(family, step, spot)?;
    }
    leaf_kind(spot)
}
