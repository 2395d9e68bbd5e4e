//! How many templates stand on the longest way down.
ghost use Rattle.std.specs.Prelude.{◌≡◌, ◌+◌, IfOk};
ghost use Rattle.mig_model.specs.Family.{nests, fields_nest, cases_nest};
ghost use Rattle.mig_model.specs.Template.{fields_of, cases_of};
ghost use Rattle.mig_template.specs.View.{template_of};

use mig_template::{Choice, Fields, Template};
use mig_tree::Memory;

/// One more than the number, which no memory holds where it fits no word.
fn one_more(number: usize) -> Result<usize, Memory>
    ensures { IfOk result (λ n. n ≡ number + 1) }
{
    number.checked_add(1).ok_or(Memory)
}

/// How many templates stand on the longest way down, this one counted.
#[cycle(levels)]
pub fn levels(template: &Template) -> Result<usize, Memory>
    ensures { IfOk result (λ n. n ≡ nests (template_of template.now)) }
{
    match template {
        Template::Leaf(_) | Template::Any | Template::Point(_) => Ok(1),
        Template::List(part) => one_more(levels(part.get())?),
        Template::Rec(record) => {
            let common = levels_of_fields(record.fields())?;
            let cased = match record.choice() {
                Some(choice) => levels_of_cases(choice)?,
                None => 0,
            };
            one_more(common.max(cased))
        }
        Template::Sum(left, right) => {
            let left = levels(left.get())?;
            let right = levels(right.get())?;
            one_more(left.max(right))
        }
    }
}

/// The most of the fields' templates.
#[cycle(levels)]
fn levels_of_fields(fields: &Fields) -> Result<usize, Memory>
    ensures { IfOk result (λ n. n ≡ fields_nest (fields_of fields.now)) }
{
    let mut most = 0;
    for field in fields.as_slice() {
        most = most.max(levels(&field.template)?);
    }
    Ok(most)
}

/// The most of the fields of the cases.
#[cycle(levels)]
fn levels_of_cases(choice: &Choice) -> Result<usize, Memory>
    ensures { IfOk result (λ n. n ≡ cases_nest (cases_of choice.now.1)) }
{
    let mut most = 0;
    for case in choice.cases() {
        most = most.max(levels_of_fields(&case.fields)?);
    }
    Ok(most)
}
