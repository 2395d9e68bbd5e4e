//! The new record of a field function.
ghost use Rattle.std.specs.Prelude.{◌≡◌, Some, None, false, map, IfOk, IfErr};
ghost use Rattle.mig_field.specs.FieldFn.{common, in_case};
ghost use Rattle.mig_field.specs.NewRecord.{new_by, new_record};
ghost use Rattle.mig_model.specs.Record.{found_case};
ghost use Rattle.mig_template.specs.View.{field_of};
ghost use Rattle.mig_func.specs.New.{IsMisfit, Offers, Refuses, is_about_cases};
ghost use Rattle.mig_func.specs.View.{field_op_of, field_fn_of};

use crate::nests::{nested, unnested};
use crate::ops::{add_field, at_field, drop_field, forget_field, rename_field, with_learned};
use crate::records::{with_case, with_common};
use crate::retags::{retagged, with_new_case};
use crate::{FieldFn, FieldOp, FuncFault, Scope};
use mig_template::{Choice, Field, Fields, Record, Rest};
use mig_tree::Name;
use std::alloc::Global;

impl FieldOp {
    /// The new fields of the scope, in any order. Whether their names are free is not looked at.
    fn new_fields(
        &self,
        alloc: Global,
        fields: &Fields,
        rest: Rest,
    ) -> Result<Vec<Field>, FuncFault>
        ensures offers { IfOk result (λ es. Offers (field_op_of self.now) rest fields.now (map field_of es.items)) }
        ensures misfit { IfErr result (λ e. IsMisfit e (Refuses (field_op_of self.now) rest fields.now)) }
    {
        match self {
            FieldOp::Rename(from, to) => rename_field(alloc, fields, from, to),
            FieldOp::Drop(name) => drop_field(alloc, fields, name),
            FieldOp::Add(name, fill) => add_field(alloc, fields, name, fill),
            FieldOp::Learn(name, kind) => with_learned(alloc, fields, rest, name, *kind),
            FieldOp::Forget(name) => forget_field(alloc, fields, rest, name),
            FieldOp::Default(name, _) => at_field(alloc, self, fields, name),
            FieldOp::MayBe(name) => at_field(alloc, self, fields, name),
            FieldOp::Map(name, _) => at_field(alloc, self, fields, name),
            FieldOp::Wrap(name) => at_field(alloc, self, fields, name),
            FieldOp::Unify(name, _, _) => at_field(alloc, self, fields, name),
            FieldOp::Nest(names, name) => nested(alloc, fields, names, name),
            FieldOp::Unnest(name) => unnested(alloc, fields, name),
            FieldOp::Retag(_, _) | FieldOp::AddCase(_, _) => Err(FuncFault::Misfit),
        }
    }

    /// The record with the operation done to its common fields.
    fn in_common(&self, alloc: Global, on: &Record) -> Result<Record, FuncFault>
        requires { is_about_cases (field_op_of self.now) ≡ false }
        ensures made { IfOk result (λ r. new_by (field_op_of self.now) common on.now ≡ Some r) }
        ensures misfit { IfErr result (λ e. IsMisfit e (new_by (field_op_of self.now) common on.now ≡ None)) }
    {
        on.keeps();
        match self.new_fields(alloc, on.fields(), on.rest()) {
            Ok(list) => with_common(alloc, on, list),
            Err(fault) => Err(fault),
        }
    }

    /// The record with the operation done to the fields of a case.
    fn in_case(
        &self,
        alloc: Global,
        on: &Record,
        choice: &Choice,
        fields: &Fields,
        literal: &Name,
    ) -> Result<Record, FuncFault>
        requires same { on.now.choice ≡ Some choice.now }
        requires found { found_case literal.now on.now.choice ≡ Some fields.now }
        ensures made { IfOk result (λ r. new_by (field_op_of self.now) (in_case literal.now) on.now ≡ Some r) }
        ensures misfit { IfErr result (λ e. IsMisfit e (new_by (field_op_of self.now) (in_case literal.now) on.now
            ≡ None)) }
    {
        on.keeps();
        match self.new_fields(alloc, fields, on.rest()) {
            Ok(list) => with_case(alloc, on, choice, literal, list),
            Err(fault) => Err(fault),
        }
    }

    /// The record with the operation done to its common fields or its cases.
    fn on_common(&self, alloc: Global, on: &Record) -> Result<Record, FuncFault>
        ensures made { IfOk result (λ r. new_by (field_op_of self.now) common on.now ≡ Some r) }
        ensures misfit { IfErr result (λ e. IsMisfit e (new_by (field_op_of self.now) common on.now ≡ None)) }
    {
        match self {
            FieldOp::Retag(from, to) => retagged(alloc, on, from, to),
            FieldOp::AddCase(literal, fields) => with_new_case(
                alloc,
                on,
                literal,
                fields.as_slice(),
            ),
            FieldOp::Rename(_, _)
            | FieldOp::Drop(_)
            | FieldOp::Add(_, _)
            | FieldOp::Learn(_, _)
            | FieldOp::Forget(_)
            | FieldOp::Default(_, _)
            | FieldOp::MayBe(_)
            | FieldOp::Map(_, _)
            | FieldOp::Wrap(_)
            | FieldOp::Unify(_, _, _)
            | FieldOp::Nest(_, _)
            | FieldOp::Unnest(_) => self.in_common(alloc, on),
        }
    }

    /// The record with the operation done to the fields of the case of the literal.
    fn on_case(&self, alloc: Global, on: &Record, literal: &Name) -> Result<Record, FuncFault>
        ensures made { IfOk result (λ r. new_by (field_op_of self.now) (in_case literal.now) on.now ≡ Some r) }
        ensures misfit { IfErr result (λ e. IsMisfit e (new_by (field_op_of self.now) (in_case literal.now) on.now
            ≡ None)) }
    {
        let Some(choice) = on.choice() else {
            return Err(FuncFault::Misfit);
        };
        let Some(fields) = on.case(literal.bytes()) else {
            return Err(FuncFault::Misfit);
        };
        self.in_case(alloc, on, choice, fields, literal)
    }
}

impl FieldFn {
    /// The record after the function. It sorts what is new, and copies the rest.
    pub fn target(&self, alloc: Global, on: &Record) -> Result<Record, FuncFault>
        ensures made { IfOk result (λ r. new_record (field_fn_of self.now) on.now ≡ Some r) }
        ensures misfit { IfErr result (λ e. IsMisfit e (new_record (field_fn_of self.now) on.now ≡ None)) }
    {
        match &self.scope {
            Scope::Common => self.op.on_common(alloc, on),
            Scope::Case(literal) => self.op.on_case(alloc, on, literal),
        }
    }
}
