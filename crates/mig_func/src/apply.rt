//! Field functions at record values.
ghost use Rattle.std.specs.Prelude.{◌≡◌, ◌≤◌, ℕ, List, [], Some, false, is_some, option_map, unwrap_or, Contains, IfOk, IsTrue};
ghost use Rattle.std.specs.List.{AllByRecursion};
ghost use Rattle.mig_model.specs.declared.form.Form.{Form};
ghost use Rattle.mig_model.specs.Template as plain;
ghost use Rattle.mig_model.specs.Names.{under};
ghost use Rattle.mig_model.specs.Plain.{on_entries};
ghost use Rattle.mig_model.specs.Record as template;
ghost use Rattle.mig_model.specs.Record.{found_case};
ghost use Rattle.mig_value.specs.Typed.{out};
ghost use Rattle.mig_value.specs.Parts as value;
ghost use Rattle.mig_value.specs.Parts.{IsRecordValue};
ghost use Rattle.mig_value.specs.Fit.{ValueFits, Shape, Fit, IsOfForm};
ghost use Rattle.mig_value.specs.View.{typed_of};
ghost use Rattle.mig_slots.specs.View.{moving_of, IsOrdered};
ghost use Rattle.mig_field.specs.FieldFn as action;
ghost use Rattle.mig_template.specs.View.{template_of};
ghost use Rattle.mig_field.specs.NewRecord.{new_by, new_record, inner_fields};
ghost use Rattle.mig_field.specs.Act.{act, left_kind};
ghost use Rattle.mig_action.specs.Moves.{move, fill_value, apply_by, apply};
ghost use Rattle.mig_action.specs.Nodes.{nodes_at};
ghost use Rattle.mig_value.specs.Nodes.{Test, nodes};
ghost use Rattle.mig_func.specs.New.{is_about_cases};
ghost use Rattle.mig_func.specs.Ready.{IsReady, fields_within, common_after, cased_after, in_common, in_cased};
ghost use Rattle.mig_func.specs.View.{fill_of, field_op_of, field_fn_of};

use crate::settling::{give_case, has_literal, retag};
use crate::{FieldFn, FieldOp, Fill, Scope};
use mig_slots::{
    Moving, add, drop_field, fill_absent, forget, learn, map_leaf, nest, rename, unify, unnest,
    wrap,
};
use mig_template::{Fields, Record, Template};
use mig_tree::{Kind, Memory, Name};
use mig_value::{RecValue, Slots, Value, Values};
use std::alloc::Global;

impl Fill {
    /// What a field gets.
    fn value<'a>(&self, alloc: Global) -> Result<Value<'a>, Memory>
        ensures { IfOk result (λ v. typed_of v ≡ fill_value (fill_of self.now)) }
    {
        match self {
            Fill::Const(constant) => Ok(Value::Atom(constant.tree(alloc)?)),
            Fill::EmptyList(_) => Ok(Value::List(Values::new(Vec::new(alloc)))),
        }
    }
}

/// The kind of the left side of the sum that stands at the field.
fn left_kind(fields: &Fields, name: &Name) -> Kind
    ensures { result ≡ left_kind (under name.now fields.now) }
{
    let Some(field) = fields.get(name.bytes()) else {
        return Kind::Null;
    };
    match &field.template {
        Template::Sum(left, _) => match left.get() {
            Template::Leaf(kind) => *kind,
            Template::Any
            | Template::List(_)
            | Template::Point(_)
            | Template::Rec(_)
            | Template::Sum(_, _) => Kind::Null,
        },
        Template::Leaf(_)
        | Template::Any
        | Template::List(_)
        | Template::Point(_)
        | Template::Rec(_) => Kind::Null,
    }
}

/// The fields of a record without a choice.
fn inner_fields(template: &Template) -> Option<&Fields>
    ensures { option_map (λ f. f.now) result ≡ inner_fields (template_of template.now) }
{
    match template {
        Template::Rec(record) => match record.choice() {
            None => Some(record.fields()),
            Some(_) => None,
        },
        Template::Leaf(_)
        | Template::Any
        | Template::List(_)
        | Template::Point(_)
        | Template::Sum(_, _) => None,
    }
}

/// The fields of the record that stands at the field, where that has no choice.
fn fields_within<'b>(fields: &'b Fields, name: &Name) -> Option<&'b Fields>
    ensures { option_map (λ f. f.now) result ≡ fields_within (under name.now fields.now) }
{
    let Some(field) = fields.get(name.bytes()) else {
        return None;
    };
    inner_fields(&field.template)
}

/// Moves the fields of the record under the name out of it.
fn unnest_field<'a>(
    alloc: Global,
    moving: Moving<'a>,
    name: &Name,
    fields: &Fields,
) -> Result<Moving<'a>, Memory>
    requires ordered { IsOrdered (moving_of moving) }
    requires ready { IsReady (action.unnest name.now) fields.now (moving_of moving) }
    ensures { IfOk result (λ m. moving_of m ≡ move (action.unnest name.now) fields.now (moving_of moving.entry)) }
{
    match fields_within(fields, name) {
        Some(inner) => unnest(alloc, moving, name, inner),
        None => Ok(moving),
    }
}

impl FieldOp {
    /// What is done to the slots of a scope that has these fields.
    fn move_slots<'a>(
        &self,
        alloc: Global,
        fields: &Fields,
        moving: Moving<'a>,
    ) -> Result<Moving<'a>, Memory>
        requires ordered { IsOrdered (moving_of moving) }
        requires ready { IsReady (field_op_of self.now) fields.now (moving_of moving) }
        ensures { IfOk result (λ m. moving_of m ≡ move (field_op_of self.now) fields.now (moving_of moving.entry)) }
    {
        match self {
            FieldOp::Rename(from, to) => rename(alloc, moving, from, to),
            FieldOp::Drop(name) => Ok(drop_field(moving, name)),
            FieldOp::Add(name, fill) => {
                let value = fill.value(alloc)?;
                add(alloc, moving, name, value)
            }
            FieldOp::Learn(name, kind) => learn(moving, name, *kind),
            FieldOp::Forget(name) => forget(moving, name),
            FieldOp::Default(name, fill) => {
                let value = fill.value(alloc)?;
                fill_absent(alloc, moving, name, value)
            }
            FieldOp::Map(name, function) => map_leaf(alloc, moving, name, function),
            FieldOp::Nest(names, name) => nest(alloc, moving, names, name),
            FieldOp::Unnest(name) => unnest_field(alloc, moving, name, fields),
            FieldOp::Wrap(name) => wrap(alloc, moving, name),
            FieldOp::Unify(name, first, second) => {
                unify(alloc, moving, name, left_kind(fields, name), first, second)
            }
            FieldOp::MayBe(_) | FieldOp::Retag(_, _) | FieldOp::AddCase(_, _) => Ok(moving),
        }
    }

    /// A record value after a function on its common fields.
    fn apply_common<'a>(
        &self,
        alloc: Global,
        fields: &Fields,
        given: RecValue<'a>,
    ) -> Result<RecValue<'a>, Memory>
        requires ready { IsReady (field_op_of self.now) fields.now (in_common given) }
        requires parts { IsRecordValue (common_after (field_op_of self.now) fields.now given) }
        ensures { IfOk result (λ w. w ≡ common_after (field_op_of self.now) fields.now given.entry) }
    {
        let (known, tag, cased, rest) = given.into_parts(alloc);
        let moving = Moving {
            slots: known.into_vec(),
            rest: rest.into_vec(),
        };
        let Moving { slots, rest } = self.move_slots(alloc, fields, moving)?;
        let known = Slots::new(slots);
        let rest = Slots::new(rest);
        RecValue::new(alloc, known, tag, cased, rest)
    }

    /// A record value of the record after a function on its common fields.
    fn apply_fields<'a>(
        &self,
        alloc: Global,
        on: &Record,
        given: RecValue<'a>,
    ) -> Result<RecValue<'a>, Memory>
        requires about { is_about_cases (field_op_of self.now) ≡ false }
        requires fits { IsTrue (is_some (new_by (field_op_of self.now) action.common on.now)) }
        requires shape { Shape (template.record_of on.now) (value.record_of given) }
        ensures { IfOk result (λ w. w ≡ apply_by (field_op_of self.now) action.common on.now given.entry) }
    {
        on.keeps();
        given.keeps();
        self.apply_common(alloc, on.fields(), given)
    }

    /// A record value after a function on its common fields or its cases.
    fn apply_whole<'a>(
        &self,
        alloc: Global,
        on: &Record,
        given: RecValue<'a>,
    ) -> Result<RecValue<'a>, Memory>
        requires fits { IsTrue (is_some (new_by (field_op_of self.now) action.common on.now)) }
        requires shape { Shape (template.record_of on.now) (value.record_of given) }
        ensures { IfOk result (λ w. w ≡ apply_by (field_op_of self.now) action.common on.now given.entry) }
    {
        on.keeps();
        given.keeps();
        match self {
            FieldOp::Retag(from, to) => match on.case(from.bytes()) {
                Some(fields) => retag(alloc, fields, on.rest(), from, to, given),
                None => Ok(given),
            },
            FieldOp::AddCase(literal, fields) => {
                give_case(alloc, fields, on.rest(), literal, given)
            }
            FieldOp::Rename(_, _)
            | FieldOp::Drop(_)
            | FieldOp::Add(_, _)
            | FieldOp::Learn(_, _)
            | FieldOp::Forget(_)
            | FieldOp::Default(_, _)
            | FieldOp::MayBe(_)
            | FieldOp::Map(_, _)
            | FieldOp::Nest(_, _)
            | FieldOp::Unnest(_)
            | FieldOp::Wrap(_)
            | FieldOp::Unify(_, _, _) => self.apply_fields(alloc, on, given),
        }
    }

    /// A record value after a function on the fields of its case.
    fn apply_cased<'a>(
        &self,
        alloc: Global,
        fields: &Fields,
        given: RecValue<'a>,
    ) -> Result<RecValue<'a>, Memory>
        requires ready { IsReady (field_op_of self.now) fields.now (in_cased given) }
        requires parts { IsRecordValue (cased_after (field_op_of self.now) fields.now given) }
        ensures { IfOk result (λ w. w ≡ cased_after (field_op_of self.now) fields.now given.entry) }
    {
        let (known, tag, cased, rest) = given.into_parts(alloc);
        let moving = Moving {
            slots: cased.into_vec(),
            rest: rest.into_vec(),
        };
        let Moving { slots, rest } = self.move_slots(alloc, fields, moving)?;
        let cased = Slots::new(slots);
        let rest = Slots::new(rest);
        RecValue::new(alloc, known, tag, cased, rest)
    }
}

impl FieldFn {
    /// A record value after the function. Its texts and trees move; what is new is its own.
    fn apply_to<'a>(
        &self,
        alloc: Global,
        on: &Record,
        given: RecValue<'a>,
    ) -> Result<RecValue<'a>, Memory>
        requires fits { IsTrue (is_some (new_record (field_fn_of self.now) on.now)) }
        requires shape { Shape (template.record_of on.now) (value.record_of given) }
        ensures { IfOk result (λ w. w ≡ apply (field_fn_of self.now) on.now given.entry) }
    {
        on.keeps();
        given.keeps();
        match &self.scope {
            Scope::Common => self.op.apply_whole(alloc, on, given),
            Scope::Case(literal) => {
                if !has_literal(&given, literal) {
                    return Ok(given);
                }
                match on.case(literal.bytes()) {
                    Some(fields) => self.op.apply_cased(alloc, fields, given),
                    None => Ok(given),
                }
            }
        }
    }

    /// What a value of the record becomes. It moves what the value has, and enters no node; what is new is the value's own.
    pub fn apply<'a>(
        &self,
        alloc: Global,
        on: &Record,
        value: Value<'a>,
    ) -> Result<Value<'a>, Memory>
        requires fits { IsTrue (is_some (new_record (field_fn_of self.now) on.now)) }
        requires shape { Shape (template.record_of on.now) (typed_of value) }
        ensures tree { IfOk result (λ w. out (typed_of w)
            ≡ on_entries (act (field_fn_of self.now) on.now) (out (typed_of value.entry))) }
        ensures shape { IfOk result (λ w. (r : template.RecordParts) → new_record (field_fn_of self.now) on.now
            ≡ Some r → Shape (template.record_of r) (typed_of w)) }
        ensures fit { IfOk result (λ w. (r : template.RecordParts) → new_record (field_fn_of self.now) on.now
            ≡ Some r → (form : Form) (body : List ℕ → plain.Template) →
            ValueFits (IsOfForm form) (Fit form body) (template.record_of on.now) (typed_of value.entry) →
            IsOfForm form (typed_of value.entry) →
            ValueFits (IsOfForm form) (Fit form body) (template.record_of r) (typed_of w)) }
        ensures nodes { IfOk result (λ w. (r : template.RecordParts) → new_record (field_fn_of self.now) on.now
            ≡ Some r → AllByRecursion (Contains (nodes_at (template.record_of on.now) (typed_of value.entry)))
            (nodes_at (template.record_of r) (typed_of w))) }
        ensures count { IfOk result (λ w. (q : Test) → nodes q (typed_of w) ≤ nodes q (typed_of value.entry)) }
    {
        on.keeps();
        match value {
            Value::Rec(given) => {
                given.keeps();
                Ok(Value::Rec(self.apply_to(alloc, on, given)?))
            }
            other => Ok(other),
        }
    }
}
