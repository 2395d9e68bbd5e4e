//! The optic of a case.
ghost use Rattle.std.specs.Prelude.{◌≡◌, IsTrue, is_some, length, map};
ghost use Rattle.mig_value.specs.View.{typed_of};
ghost use Rattle.mig_path.specs.Fields.{is_tagged_as};
ghost use Rattle.mig_path.specs.Rest.{FitsFoci, join};

use mig_path::{Counter, Memory, Name, Optic, Value, only, single};
use mig_value::RecValue;
use std::alloc::Global;
use std::cmp::Ordering;

/// The record value itself where its tag has this literal. It takes record values with a tag.
#[derive(Debug, Drop)]
pub struct CaseOf {
    pub literal: Name,
}

/// Nothing where the literal was this one, or the value of another literal.
#[derive(Debug, Drop)]
pub enum CaseRest<'a> {
    Whole,
    Other(Value<'a>),
}

/// Whether the tag of the record value has this literal.
fn is_case(parts: &RecValue, literal: &Name) -> bool
    requires { IsTrue (is_some parts.now.tag) }
    ensures { result ≡ is_tagged_as literal.now parts.now.tag }
{
    match parts.tag() {
        Some((_, text)) => literal.bytes().cmp(text.bytes()) == Ordering::Equal,
        None => unreachable!(),
    }
}

impl<'a> CaseRest<'a> {
    ghost use Rattle.mig_record_optic.specs.Residues.{case_rest};

    /// The value of these foci and this residue. It takes no memory.
    pub fn rejoin(self, foci: Vec<Value<'a>>) -> Value<'a>
        requires { FitsFoci (case_rest self) (length foci.items) }
        ensures { typed_of result ≡ join (case_rest self.entry) (map typed_of foci.entry.items) }
    {
        match self {
            CaseRest::Whole => only(foci),
            CaseRest::Other(value) => value,
        }
    }
}

impl<'a> Optic<'a> for CaseOf {
    ghost use Rattle.mig_path.specs.Path.{case_of};
    ghost use Rattle.mig_record_optic.specs.Residues.{case_rest};

    type Residue = CaseRest<'a>;

    ghost path = { λ o. case_of o.literal };

    ghost rest = { case_rest };

    fn part<C: Counter>(
        &self,
        alloc: Global,
        value: Value<'a>,
        steps: &mut C,
    ) -> Result<(Vec<Value<'a>>, CaseRest<'a>), Memory> {
        let Value::Rec(parts) = value else {
            unreachable!()
        };
        if is_case(&parts, &self.literal) {
            Ok((single(alloc, Value::Rec(parts))?, CaseRest::Whole))
        } else {
            Ok((Vec::new(alloc), CaseRest::Other(Value::Rec(parts))))
        }
    }

    fn rejoin(
        &self,
        alloc: Global,
        foci: Vec<Value<'a>>,
        residue: CaseRest<'a>,
    ) -> Result<Value<'a>, Memory> {
        Ok(residue.rejoin(foci))
    }
}
