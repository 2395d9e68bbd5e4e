//! The cases of a record that are given in any order.
ghost use Rattle.std.specs.Prelude.{◌≡◌, ◌∷◌, map, false, true, IsTrue, IfSome, IfNone, IfOk, IfErr};
ghost use Rattle.std.specs.List.{AllByRecursion, list_any};
ghost use Rattle.std.specs.Map.{keys_of};
ghost use Rattle.mig_model.specs.Names.{has_twice, same_name, Ascends, is_among};
ghost use Rattle.mig_model.specs.Template.{cases_of};
ghost use Rattle.mig_model.specs.TemplateKept.{CasesKept};
ghost use Rattle.mig_model.specs.Record.{IsOrderOf, FieldsOrdered, CasesOrdered, has_twice_in, is_twice_in};
ghost use Rattle.mig_template.specs.Fault.{IsRecordFault};
ghost use Rattle.mig_template.specs.View.{field_of, case_of, given_case};

use crate::ordering::order_fields;
use crate::{Case, Field, Fields, Name, RecordFault};
use mig_model::{ascends, sort_by_key};
use std::alloc::Global;
use std::cmp::Ordering;

/// Whether the two names have the same bytes.
fn is_same(one: &[u8], other: &[u8]) -> bool
    ensures { result ≡ same_name one.now other.now }
{
    one.cmp(other) == Ordering::Equal
}

/// Whether the tag or a common field has the name.
pub fn is_taken(name: &[u8], tag: &Name, common: &Fields) -> bool
    ensures { result ≡ is_among (tag.now ∷ keys_of common.now) name.now }
{
    is_same(name, tag.bytes()) || common.has(name)
}

/// Whether a name of the fields is that of the tag or of a common field.
fn is_any_taken(fields: &[Field], tag: &Name, common: &Fields) -> bool
    ensures { result ≡ list_any (is_among (tag.now ∷ keys_of common.now)) (keys_of (map field_of fields.now)) }
{
    for field in fields {
        if is_taken(field.name.bytes(), tag, common) {
            return true;
        }
    }
    false
}

/// The case with its fields in order, and `None` where a name is there twice or taken.
fn order_case(literal: Name, fields: Vec<Field>, tag: &Name, common: &Fields) -> Option<Case>
    requires { has_twice (tag.now ∷ keys_of common.now) ≡ false }
    ensures literal { IfSome result (λ c. literal ≡ c.literal) }
    ensures fields { IfSome result (λ c. IsOrderOf (map field_of fields.items) c.fields) }
    ensures once { IfSome result (λ c.
        has_twice_in (tag.now ∷ keys_of common.now) (literal, map field_of fields.items) ≡ false) }
    ensures twice { IfNone result (has_twice_in (tag.now ∷ keys_of common.now) (literal, map field_of fields.items)
        ≡ true) }
{
    match order_fields(fields) {
        Some(fields) => {
            if is_any_taken(fields.as_slice(), tag, common) {
                None
            } else {
                Some(Case { literal, fields })
            }
        }
        None => None,
    }
}

/// The cases with their fields in order. `TwiceNamed` comes exactly where a name of a case is there twice or taken.
fn order_each(
    alloc: Global,
    given: Vec<(Name, Vec<Field>)>,
    tag: &Name,
    common: &Fields,
) -> Result<Vec<Case>, RecordFault>
    requires { has_twice (tag.now ∷ keys_of common.now) ≡ false }
    ensures ordered { IfOk result (λ cs. FieldsOrdered (map given_case given.items) (map case_of cs.items)) }
    ensures once { IfOk result (λ cs.
        list_any (has_twice_in (tag.now ∷ keys_of common.now)) (map given_case given.items) ≡ false) }
    ensures twice { IfErr result (λ e.
        IsRecordFault e (list_any (has_twice_in (tag.now ∷ keys_of common.now)) (map given_case given.items)) false) }
{
    let mut cases = Vec::new(alloc);
    for (literal, fields) in given {
        match order_case(literal, fields, tag, common) {
            Some(case) => cases.push(case)?,
            None => return Err(RecordFault::TwiceNamed),
        }
    }
    Ok(cases)
}

/// Tells what the fields of each case keep. It is called in a `prove!`, and costs nothing at run time.
fn cases_are_kept(list: &[Case]) -> bool
    ensures always { IsTrue result }
    ensures kept { CasesKept (cases_of (map case_of list.now)) }
    ensures within { AllByRecursion (λ d. Ascends d.1) (map case_of list.now) }
{
    for case in list {
        case.fields.keeps();
    }
    true
}

/// The cases in the order of their literals, with their fields in order. `TwiceNamed` comes exactly where a name of a case is there twice or taken, or two literals are equal.
pub fn order_cases(
    alloc: Global,
    given: Vec<(Name, Vec<Field>)>,
    tag: &Name,
    common: &Fields,
) -> Result<Vec<Case>, RecordFault>
    requires { has_twice (tag.now ∷ keys_of common.now) ≡ false }
    ensures ordered { IfOk result (λ cs. CasesOrdered (map given_case given.items) (map case_of cs.items)) }
    ensures kept { IfOk result (λ cs. CasesKept (cases_of (map case_of cs.items))) }
    ensures ascend { IfOk result (λ cs. AllByRecursion (λ d. Ascends d.1) (map case_of cs.items)) }
    ensures once { IfOk result (λ cs. is_twice_in (tag.now ∷ keys_of common.now) (map given_case given.items) ≡ false) }
    ensures twice { IfErr result (λ e.
        IsRecordFault e (is_twice_in (tag.now ∷ keys_of common.now) (map given_case given.items)) false) }
{
    let mut cases = order_each(alloc, given, tag, common)?;
    sort_by_key(&mut cases);
    if !ascends(&cases) {
        drop(cases);
        return Err(RecordFault::TwiceNamed);
    }
    prove!(cases_are_kept(&cases));
    Ok(cases)
}
