//! What becomes of one field's presence and template.
ghost use Rattle.std.specs.Prelude.{◌≡◌, ◌&&◌, Some, None, not, option_map, IfOk, IfErr};
ghost use Rattle.mig_field.specs.FieldFn.{fill_template};
ghost use Rattle.mig_field.specs.NewRecord.{leaf_after, leaf_of_both, learned, can_be_learned};
ghost use Rattle.mig_field.specs.SameTemplate.{same_template};
ghost use Rattle.mig_leaf.specs.View.{leaf_fn_of};
ghost use Rattle.mig_model.specs.Template.{list, sum, is_must};
ghost use Rattle.mig_template.specs.View.{template_of};
ghost use Rattle.mig_func.specs.New.{IsMisfit};
ghost use Rattle.mig_func.specs.Slot.{slot_after, common_out};
ghost use Rattle.mig_func.specs.View.{fill_of, field_op_of};

use crate::{FieldOp, Fill, FuncFault};
use mig_leaf::LeafFn;
use mig_template::{Field, Presence, Template, TemplateBox};
use mig_tree::{Kind, Memory};
use std::alloc::Global;

/// Whether the field has to be there.
pub fn is_must(presence: Presence) -> bool
    ensures { result ≡ is_must presence }
{
    presence == Presence::Must
}

/// Whether the field may be absent and then gets what it would have.
fn can_fill(field: &Field, fill: &Fill) -> bool
    ensures { result
        ≡ (not (is_must field.now.presence) && same_template (template_of field.now.template) (fill_template
        (fill_of fill.now))) }
{
    !is_must(field.presence) && fill.is_of(&field.template)
}

/// What a leaf function makes of the leaves of the template.
fn leaf_after(leaf: &LeafFn, template: &Template) -> Option<Template>
    ensures { option_map template_of result ≡ leaf_after (leaf_fn_of leaf.now) (template_of template.now) }
{
    match template {
        Template::Leaf(kind) => match leaf.fits(*kind) {
            Some(kind) => Some(Template::Leaf(kind)),
            None => None,
        },
        Template::Any
        | Template::List(_)
        | Template::Point(_)
        | Template::Rec(_)
        | Template::Sum(_, _) => None,
    }
}

/// The kind that both functions give.
fn common_out(left: &LeafFn, one: Kind, right: &LeafFn, other: Kind) -> Option<Kind>
    ensures { result ≡ common_out (leaf_fn_of left.now) (leaf_fn_of right.now) one other }
{
    let one = left.fits(one)?;
    let other = right.fits(other)?;
    (one == other).then_some(one)
}

/// What two leaf functions make of the leaves of the two sides.
fn both_after(left: &LeafFn, right: &LeafFn, one: &Template, other: &Template) -> Option<Template>
    ensures { option_map template_of result
        ≡ leaf_of_both (leaf_fn_of left.now) (leaf_fn_of right.now) (sum (template_of one.now)
        (template_of other.now)) }
{
    match one {
        Template::Leaf(one) => match other {
            Template::Leaf(other) => match common_out(left, *one, right, *other) {
                Some(kind) => Some(Template::Leaf(kind)),
                None => None,
            },
            Template::Any
            | Template::List(_)
            | Template::Point(_)
            | Template::Rec(_)
            | Template::Sum(_, _) => None,
        },
        Template::Any
        | Template::List(_)
        | Template::Point(_)
        | Template::Rec(_)
        | Template::Sum(_, _) => None,
    }
}

/// What two leaf functions make of a sum of two leaves.
fn leaf_of_both(left: &LeafFn, right: &LeafFn, template: &Template) -> Option<Template>
    ensures { option_map template_of result
        ≡ leaf_of_both (leaf_fn_of left.now) (leaf_fn_of right.now) (template_of template.now) }
{
    match template {
        Template::Sum(one, other) => both_after(left, right, one.get(), other.get()),
        Template::Leaf(_)
        | Template::Any
        | Template::List(_)
        | Template::Point(_)
        | Template::Rec(_) => None,
    }
}

/// A list of one such item.
fn wrapped(alloc: Global, template: &Template) -> Result<Template, Memory>
    ensures { IfOk result (λ t. template_of t ≡ list (template_of template.now)) }
{
    let item = template.copy(alloc)?;
    Ok(Template::List(TemplateBox::new(alloc, item)?))
}

/// The presence and the template of a field after an operation on it alone.
pub fn slot_after(
    alloc: Global,
    op: &FieldOp,
    field: &Field,
) -> Result<(Presence, Template), FuncFault>
    ensures slot { IfOk result (λ s.
        slot_after (field_op_of op.now) (field.now.presence, template_of field.now.template)
        ≡ Some (s.0, template_of s.1)) }
    ensures misfit { IfErr result (λ e.
        IsMisfit e (slot_after (field_op_of op.now) (field.now.presence, template_of field.now.template) ≡ None)) }
{
    let presence = field.presence;
    match op {
        FieldOp::Default(_, fill) => {
            if !can_fill(field, fill) {
                return Err(FuncFault::Misfit);
            }
            Ok((Presence::Must, field.template.copy(alloc)?))
        }
        FieldOp::MayBe(_) => {
            if !is_must(presence) {
                return Err(FuncFault::Misfit);
            }
            Ok((Presence::May, field.template.copy(alloc)?))
        }
        FieldOp::Map(_, leaf) => {
            let Some(template) = leaf_after(leaf, &field.template) else {
                return Err(FuncFault::Misfit);
            };
            Ok((presence, template))
        }
        FieldOp::Wrap(_) => Ok((presence, wrapped(alloc, &field.template)?)),
        FieldOp::Unify(_, left, right) => {
            let Some(template) = leaf_of_both(left, right, &field.template) else {
                return Err(FuncFault::Misfit);
            };
            Ok((presence, template))
        }
        FieldOp::Rename(_, _)
        | FieldOp::Drop(_)
        | FieldOp::Add(_, _)
        | FieldOp::Learn(_, _)
        | FieldOp::Forget(_)
        | FieldOp::Nest(_, _)
        | FieldOp::Unnest(_)
        | FieldOp::Retag(_, _)
        | FieldOp::AddCase(_, _) => Err(FuncFault::Misfit),
    }
}

/// Whether a field may be learned with such trees.
pub fn can_be_learned(kind: Option<Kind>) -> bool
    ensures { result ≡ can_be_learned kind }
{
    match kind {
        Some(kind) => kind.is_leaf(),
        None => true,
    }
}

/// The template of the kind; without one, that of any tree.
pub fn learned(kind: Option<Kind>) -> Template
    ensures { template_of result ≡ learned kind }
{
    match kind {
        Some(kind) => Template::Leaf(kind),
        None => Template::Any,
    }
}
