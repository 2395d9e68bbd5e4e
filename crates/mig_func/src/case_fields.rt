//! The fields of a case that is added.
ghost use Rattle.std.specs.Prelude.{◌≡◌, IfOk, IfSome, IfNone, true, map};
ghost use Rattle.std.specs.Map.{keys_of};
ghost use Rattle.mig_model.specs.Names.{has_twice};
ghost use Rattle.mig_model.specs.Record.{IsOrderOf};
ghost use Rattle.mig_template.specs.View.{field_of};

use crate::copies::copy_fields;
use mig_template::{Field, Fields, Record, RecordFault, Rest};
use mig_tree::Memory;
use std::alloc::Global;
use std::marker::Model;

/// The fields of a case that is added, in the order in which they were written.
#[derive(Debug, Drop)]
pub struct CaseFields {
    list: Vec<Field>,
    // Equal fields in the order of their names, for the maps that are given them; none where two names are equal.
    ordered: Option<Fields>,
}

impl Model for CaseFields {
    ghost use Rattle.std.specs.Prelude.{List, map};
    ghost use Rattle.mig_model.specs.Template.{Field};
    ghost use Rattle.mig_template.specs.Code.{coded_fields};
    ghost use Rattle.mig_template.specs.View.{field_of};
    ghost use Rattle.mig_func.specs.New.{AreOrdered};

    ghost Value = { List Field };

    ghost coded = { coded_fields };

    ghost view = { λ a. map field_of a.list.items };

    ghost invariant = { λ a. AreOrdered (map field_of a.list.items) a.ordered };
}

/// Equal fields in the order of their names, where no two names are equal.
fn in_order(alloc: Global, fields: &[Field]) -> Result<Option<Fields>, Memory>
    ensures some { IfOk result (λ o. IfSome o (λ fs. IsOrderOf (map field_of fields.now) fs)) }
    ensures none { IfOk result (λ o. IfNone o (has_twice (keys_of (map field_of fields.now)) ≡ true)) }
{
    let list = copy_fields(alloc, fields)?;
    match Record::new(alloc, list, None, Rest::Closed) {
        Ok(record) => {
            let (fields, choice, _) = record.into_parts();
            drop(choice);
            Ok(Some(fields))
        }
        Err(RecordFault::TwiceNamed) | Err(RecordFault::NoCase) => Ok(None),
        Err(RecordFault::Memory) => Err(Memory),
    }
}

impl CaseFields {
    /// These fields. It copies and sorts them for the maps that are given them.
    pub fn new(alloc: Global, list: Vec<Field>) -> Result<CaseFields, Memory>
        ensures { IfOk result (λ fs. fs ≡ map field_of list.items) }
    {
        let ordered = in_order(alloc, list.as_slice())?;
        Ok(CaseFields { list, ordered })
    }

    /// The fields, as they were written.
    pub fn as_slice(&self) -> &[Field]
        ensures { map field_of result.now ≡ self.now }
    {
        self.list.as_slice()
    }

    /// Gives the fields up.
    pub fn into_vec(self) -> Vec<Field>
        ensures { map field_of result.items ≡ self }
    {
        let CaseFields { list, ordered } = self;
        drop(ordered);
        list
    }

    /// The fields in the order of their names, where no two names are equal.
    pub(crate) fn ordered(&self) -> Option<&Fields>
        ensures some { IfSome result (λ fs. IsOrderOf self.now fs.now) }
        ensures none { IfNone result (has_twice (keys_of self.now) ≡ true) }
    {
        self.ordered.as_ref()
    }

    /// Equal fields.
    pub fn copy(&self, alloc: Global) -> Result<CaseFields, Memory>
        ensures { IfOk result (λ fs. fs ≡ self.now) }
    {
        let list = copy_fields(alloc, self.as_slice())?;
        CaseFields::new(alloc, list)
    }
}
