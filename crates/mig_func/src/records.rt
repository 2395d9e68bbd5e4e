//! Records with other fields, or with other cases.
ghost use Rattle.std.specs.Prelude.{◌≡◌, ◌∷◌, ◌++◌, [], Some, true, false, map, option_map, IfOk, IfErr};
ghost use Rattle.mig_model.specs.Names.{without, same_name, Ascends};
ghost use Rattle.mig_field.specs.FieldFn.{common, in_case};
ghost use Rattle.mig_model.specs.Record.{IsRecordOf, is_twice_named, has_no_case};
ghost use Rattle.mig_template.specs.View.{field_of, case_of, given_case, given_choice};
ghost use Rattle.mig_func.specs.New.{IsMisfit, HasFields, has_clash, taken_by_choice, taken_by_rest, with_more};

use crate::FuncFault;
use mig_template::{Case, Choice, Field, Record, RecordFault, Rest};
use mig_tree::{Memory, Name};
use std::alloc::Global;
use std::cmp::Ordering;

/// Copies of the cases.
pub fn copy_cases(alloc: Global, choice: &Choice) -> Result<Vec<(Name, Vec<Field>)>, Memory>
    ensures { IfOk result (λ cs. map given_case cs.items ≡ choice.now.1) }
{
    let mut cases = Vec::new(alloc);
    for case in choice.cases() {
        let literal = case.literal.copy(alloc)?;
        let fields = case.fields.copy(alloc)?.into_vec();
        cases.push((literal, fields))?;
    }
    Ok(cases)
}

/// Whether the case is that of the literal.
fn is_case_of(case: &Case, literal: &[u8]) -> bool
    ensures { result ≡ same_name case.now.literal literal.now }
{
    case.literal.bytes().cmp(literal) == Ordering::Equal
}

/// Copies of the cases but the one of the literal.
pub fn cases_but(
    alloc: Global,
    choice: &Choice,
    literal: &[u8],
) -> Result<Vec<(Name, Vec<Field>)>, Memory>
    requires { Ascends choice.now.1 }
    ensures { IfOk result (λ cs. map given_case cs.items ≡ without literal.now choice.now.1) }
{
    let mut cases = Vec::new(alloc);
    for case in choice.cases() {
        if !is_case_of(case, literal) {
            let name = case.literal.copy(alloc)?;
            let fields = case.fields.copy(alloc)?.into_vec();
            cases.push((name, fields))?;
        }
    }
    Ok(cases)
}

/// A copy of the choice, where there is one.
fn copy_choice(
    alloc: Global,
    on: &Record,
) -> Result<Option<(Name, Vec<(Name, Vec<Field>)>, bool)>, Memory>
    ensures { IfOk result (λ c. given_choice c ≡ on.now.choice) }
{
    match on.choice() {
        Some(choice) => {
            let tag = choice.tag().copy(alloc)?;
            let cases = copy_cases(alloc, choice)?;
            Ok(Some((tag, cases, choice.kept())))
        }
        None => Ok(None),
    }
}

/// The record of these parts.
pub fn record_of(
    alloc: Global,
    fields: Vec<Field>,
    choice: Option<(Name, Vec<(Name, Vec<Field>)>, bool)>,
    rest: Rest,
) -> Result<Record, FuncFault>
    requires { has_no_case (given_choice choice) ≡ false }
    ensures made { IfOk result (IsRecordOf (map field_of fields.items) (given_choice choice) rest) }
    ensures once { IfOk result (λ r. is_twice_named (map field_of fields.items) (given_choice choice) ≡ false) }
    ensures misfit { IfErr result (λ e. IsMisfit e (is_twice_named (map field_of fields.items) (given_choice choice)
        ≡ true)) }
{
    match Record::new(alloc, fields, choice, rest) {
        Ok(record) => Ok(record),
        Err(RecordFault::TwiceNamed) => Err(FuncFault::Misfit),
        Err(RecordFault::NoCase) => Err(FuncFault::Misfit),
        Err(RecordFault::Memory) => Err(FuncFault::Memory),
    }
}

/// The record with other common fields.
pub fn with_common(alloc: Global, on: &Record, list: Vec<Field>) -> Result<Record, FuncFault>
    ensures made { IfOk result (λ r. HasFields common on.now (map field_of list.items) r) }
    ensures once { IfOk result (λ r. has_clash (taken_by_choice on.now.choice) (map field_of list.items) ≡ false) }
    ensures misfit { IfErr result (λ e.
        IsMisfit e (has_clash (taken_by_choice on.now.choice) (map field_of list.items) ≡ true)) }
{
    on.keeps();
    let choice = copy_choice(alloc, on)?;
    record_of(alloc, list, choice, on.rest())
}

/// The record with these cases and one more in place of those of its choice.
pub fn with_more(
    alloc: Global,
    on: &Record,
    choice: &Choice,
    mut cases: Vec<(Name, Vec<Field>)>,
    literal: Name,
    list: Vec<Field>,
) -> Result<Record, FuncFault>
    ensures made { IfOk result (IsRecordOf on.now.fields (with_more choice.now.0 choice.now.2
        (map given_case cases.items) (literal, map field_of list.items)) on.now.rest) }
    ensures once { IfOk result (λ r.
        is_twice_named on.now.fields (with_more choice.now.0 choice.now.2 (map given_case cases.items)
        (literal, map field_of list.items)) ≡ false) }
    ensures misfit { IfErr result (λ e.
        IsMisfit e (is_twice_named on.now.fields (with_more choice.now.0 choice.now.2 (map given_case cases.items)
        (literal, map field_of list.items)) ≡ true)) }
{
    let tag = choice.tag().copy(alloc)?;
    let fields = on.fields().copy(alloc)?.into_vec();
    cases.push((literal, list))?;
    record_of(alloc, fields, Some((tag, cases, choice.kept())), on.rest())
}

/// The record with other fields in the case of the literal.
pub fn with_case(
    alloc: Global,
    on: &Record,
    choice: &Choice,
    literal: &Name,
    list: Vec<Field>,
) -> Result<Record, FuncFault>
    requires { on.now.choice ≡ Some choice.now }
    ensures made { IfOk result (λ r. HasFields (in_case literal.now) on.now (map field_of list.items) r) }
    ensures once { IfOk result (λ r. has_clash (taken_by_rest on.now) (map field_of list.items) ≡ false) }
    ensures misfit { IfErr result (λ e. IsMisfit e (has_clash (taken_by_rest on.now) (map field_of list.items)
        ≡ true)) }
{
    on.keeps();
    let name = literal.copy(alloc)?;
    let cases = cases_but(alloc, choice, literal.bytes())?;
    with_more(alloc, on, choice, cases, name, list)
}
