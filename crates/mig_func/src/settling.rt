//! Record values whose tag gets another literal, or that were kept with a tag which is now a case's.
ghost use Rattle.std.specs.Prelude.{◌≡◌, false, IfOk};
ghost use Rattle.std.specs.Map.{keys_of};
ghost use Rattle.mig_model.specs.Names.{has_twice};
ghost use Rattle.mig_value.specs.Parts.{IsRecordValue};
ghost use Rattle.mig_action.specs.Moves.{settle_case, is_of_case};
ghost use Rattle.mig_func.specs.Settled.{with_literal, retagged_value, cased_value};

use crate::CaseFields;
use mig_slots::settle;
use mig_template::{Fields, Rest};
use mig_tree::{Memory, Name, Text};
use mig_value::{RecValue, Slots};
use std::alloc::Global;

/// Whether the record value's tag is the literal.
pub fn has_literal(given: &RecValue, literal: &Name) -> bool
    ensures { result ≡ is_of_case literal.now given.now.tag }
{
    match given.tag() {
        Some((_, found)) => found.bytes().cmp(literal.bytes()).is_eq(),
        None => false,
    }
}

/// The record value with another literal in its tag.
fn with_literal<'a>(
    alloc: Global,
    literal: &Name,
    given: RecValue<'a>,
) -> Result<RecValue<'a>, Memory>
    requires { IsRecordValue (with_literal literal.now given) }
    ensures { IfOk result (λ w. w ≡ with_literal literal.now given.entry) }
{
    let (known, tag, cased, rest) = given.into_parts(alloc);
    let tag = match tag {
        Some((name, found)) => {
            drop(found);
            Some((name, Text::copied(alloc, literal.bytes())?))
        }
        None => None,
    };
    RecValue::new(alloc, known, tag, cased, rest)
}

/// The record value that was kept with its tag, with the fields of the tag's case.
fn settled<'a>(
    alloc: Global,
    fields: &Fields,
    openness: Rest,
    given: RecValue<'a>,
) -> Result<RecValue<'a>, Memory>
    requires { IsRecordValue (settle_case fields.now openness given) }
    ensures { IfOk result (λ w. w ≡ settle_case fields.now openness given.entry) }
{
    let (known, tag, cased, rest) = given.into_parts(alloc);
    drop(cased);
    let (cased, rest) = settle(alloc, fields, openness, rest.into_vec())?;
    RecValue::new(alloc, known, tag, Slots::new(cased), Slots::new(rest))
}

/// The record value after the case of the first literal, which has these fields, got the second.
pub fn retag<'a>(
    alloc: Global,
    fields: &Fields,
    openness: Rest,
    from: &Name,
    to: &Name,
    given: RecValue<'a>,
) -> Result<RecValue<'a>, Memory>
    requires { IsRecordValue (retagged_value from.now to.now fields.now openness given) }
    ensures { IfOk result (λ w. w ≡ retagged_value from.now to.now fields.now openness given.entry) }
{
    if has_literal(&given, from) {
        return with_literal(alloc, to, given);
    }
    if has_literal(&given, to) {
        return settled(alloc, fields, openness, given);
    }
    Ok(given)
}

/// The record value after the literal became a case of these fields: one that was kept with it is given them.
pub fn give_case<'a>(
    alloc: Global,
    fields: &CaseFields,
    openness: Rest,
    literal: &Name,
    given: RecValue<'a>,
) -> Result<RecValue<'a>, Memory>
    requires once { has_twice (keys_of fields.now) ≡ false }
    requires parts { IsRecordValue (cased_value literal.now fields.now openness given) }
    ensures { IfOk result (λ w. w ≡ cased_value literal.now fields.now openness given.entry) }
{
    if !has_literal(&given, literal) {
        return Ok(given);
    }
    match fields.ordered() {
        Some(fields) => settled(alloc, fields, openness, given),
        None => unreachable!(),
    }
}
