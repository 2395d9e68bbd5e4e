//! Names that a rule speaks of and that are no named types.
ghost use Rattle.std.specs.Prelude.{◌≡◌, map};
ghost use Rattle.mig_model.specs.Family.{is_unknown, any_in_fields};
ghost use Rattle.mig_model.specs.Template.{fields_of};
ghost use Rattle.mig_template.specs.View.{field_of};
ghost use Rattle.mig_func.specs.View.{fill_of, field_op_of};
ghost use Rattle.mig_rule.specs.Fix.{fill_lacks, op_lacks, rule_lacks};
ghost use Rattle.mig_rule.specs.View.{rule_of};

use crate::Rule;
use mig_func::{FieldOp, Fill};
use mig_schema::Family;
use mig_template::Field;

/// Whether what a field gets has a point to no named type.
fn fill_lacks(family: &Family, fill: &Fill) -> bool
    ensures { result ≡ fill_lacks family.now (fill_of fill.now) }
{
    match fill {
        Fill::Const(_) => false,
        Fill::EmptyList(item) => family.lacks_type_in(item),
    }
}

/// Whether a field has a point to no named type.
fn fields_lack(family: &Family, fields: &[Field]) -> bool
    ensures { result ≡ any_in_fields (is_unknown family.now) (fields_of (map field_of fields.now)) }
{
    for field in fields {
        if family.lacks_type_in(&field.template) {
            return true;
        }
    }
    false
}

/// Whether what the operation brings has a point to no named type.
fn op_lacks(family: &Family, op: &FieldOp) -> bool
    ensures { result ≡ op_lacks family.now (field_op_of op.now) }
{
    match op {
        FieldOp::Add(_, fill) | FieldOp::Default(_, fill) => fill_lacks(family, fill),
        FieldOp::AddCase(_, fields) => fields_lack(family, fields.as_slice()),
        FieldOp::Rename(_, _)
        | FieldOp::Drop(_)
        | FieldOp::Learn(_, _)
        | FieldOp::Forget(_)
        | FieldOp::MayBe(_)
        | FieldOp::Map(_, _)
        | FieldOp::Nest(_, _)
        | FieldOp::Unnest(_)
        | FieldOp::Wrap(_)
        | FieldOp::Unify(_, _, _)
        | FieldOp::Retag(_, _) => false,
    }
}

/// Whether the rule speaks of a name that is no named type, by an `on` or in what it brings.
#[cycle(lacking)]
pub fn rule_lacks(family: &Family, rule: &Rule) -> bool
    ensures { result ≡ rule_lacks family.now (rule_of rule.now) }
{
    match rule {
        Rule::Nop => false,
        Rule::Fn(function) => op_lacks(family, &function.op),
        Rule::On(name, rule) => !family.is_named(name) || rule_lacks(family, rule.get()),
        Rule::Seq(one, other) | Rule::OrElse(one, other) => {
            rule_lacks(family, one.get()) || rule_lacks(family, other.get())
        }
        Rule::At(_, rule) | Rule::All(rule) | Rule::Everywhere(rule) => {
            rule_lacks(family, rule.get())
        }
    }
}
