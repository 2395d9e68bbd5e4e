//! Field functions, and the scope in which one works.
ghost use Rattle.std.specs.Prelude.{◌≡◌, IfOk, map};
ghost use Rattle.mig_template.specs.View.{field_of};
ghost use Rattle.mig_func.specs.View.{scope_of, field_op_of, field_fn_of};

use crate::{CaseFields, Fill, Names};
use mig_leaf::LeafFn;
use mig_tree::{Kind, Memory, Name};
use std::alloc::Global;

/// Whose fields a function acts on.
#[derive(Debug, Drop)]
pub enum Scope {
    /// Those that each map of the record has.
    Common,
    /// Those that a map has where its tag is the literal.
    Case(Name),
}

/// What is done to the fields. The rules are this project's own.
#[derive(Debug)]
pub enum FieldOp {
    /// What stands under the first name stands under the second.
    Rename(Name, Name),
    /// The field goes.
    Drop(Name),
    /// A field that each map gets.
    Add(Name, Fill),
    /// A field that open maps may have had already, with leaves of the kind; without one, any trees.
    Learn(Name, Option<Kind>),
    /// The field counts as one of the other names.
    Forget(Name),
    /// Maps without the field get it.
    Default(Name, Fill),
    /// The field need not be there.
    MayBe(Name),
    /// The function on the field's leaf.
    Map(Name, LeafFn),
    /// The fields of the names stand in a record of their own, under the name.
    Nest(Names, Name),
    /// The fields of the record under the name stand in its place.
    Unnest(Name),
    /// The field's tree stands alone in a list.
    Wrap(Name),
    /// Each side of the field's sum of two leaves has its function, and both give one kind.
    Unify(Name, LeafFn, LeafFn),
    /// The case of the first literal has the second.
    Retag(Name, Name),
    /// A case of the literal, with these fields in any order.
    AddCase(Name, CaseFields),
}

// Written by hand, since a derived one is done in place: each caller would prove a branch for each variant of each part.
impl Drop for FieldOp {
    fn drop(self) {
        match self {
            FieldOp::Rename(one, other) | FieldOp::Retag(one, other) => {
                drop(one);
                drop(other);
            }
            FieldOp::Drop(name)
            | FieldOp::Learn(name, _)
            | FieldOp::Forget(name)
            | FieldOp::MayBe(name)
            | FieldOp::Unnest(name)
            | FieldOp::Wrap(name) => drop(name),
            FieldOp::Add(name, fill) | FieldOp::Default(name, fill) => {
                drop(name);
                drop(fill);
            }
            FieldOp::Map(name, leaf) => {
                drop(name);
                drop(leaf);
            }
            FieldOp::Nest(names, name) => {
                drop(names);
                drop(name);
            }
            FieldOp::Unify(name, left, right) => {
                drop(name);
                drop(left);
                drop(right);
            }
            FieldOp::AddCase(literal, fields) => {
                drop(literal);
                drop(fields);
            }
        }
    }
}

/// A function on the fields of a record.
#[derive(Debug, Drop)]
pub struct FieldFn {
    pub scope: Scope,
    pub op: FieldOp,
}

impl Scope {
    /// An equal scope.
    pub fn copy(&self, alloc: Global) -> Result<Scope, Memory>
        ensures { IfOk result (λ s. scope_of s ≡ scope_of self.now) }
    {
        Ok(match self {
            Scope::Common => Scope::Common,
            Scope::Case(literal) => Scope::Case(literal.copy(alloc)?),
        })
    }
}

impl FieldOp {
    /// An equal operation.
    pub fn copy(&self, alloc: Global) -> Result<FieldOp, Memory>
        ensures { IfOk result (λ op. field_op_of op ≡ field_op_of self.now) }
    {
        Ok(match self {
            FieldOp::Rename(from, to) => FieldOp::Rename(from.copy(alloc)?, to.copy(alloc)?),
            FieldOp::Drop(name) => FieldOp::Drop(name.copy(alloc)?),
            FieldOp::Add(name, fill) => FieldOp::Add(name.copy(alloc)?, fill.copy(alloc)?),
            FieldOp::Learn(name, kind) => FieldOp::Learn(name.copy(alloc)?, *kind),
            FieldOp::Forget(name) => FieldOp::Forget(name.copy(alloc)?),
            FieldOp::Default(name, fill) => FieldOp::Default(name.copy(alloc)?, fill.copy(alloc)?),
            FieldOp::MayBe(name) => FieldOp::MayBe(name.copy(alloc)?),
            FieldOp::Map(name, leaf) => FieldOp::Map(name.copy(alloc)?, leaf.copy(alloc)?),
            FieldOp::Nest(names, name) => FieldOp::Nest(names.copy(alloc)?, name.copy(alloc)?),
            FieldOp::Unnest(name) => FieldOp::Unnest(name.copy(alloc)?),
            FieldOp::Wrap(name) => FieldOp::Wrap(name.copy(alloc)?),
            FieldOp::Unify(name, left, right) => {
                FieldOp::Unify(name.copy(alloc)?, left.copy(alloc)?, right.copy(alloc)?)
            }
            FieldOp::Retag(from, to) => FieldOp::Retag(from.copy(alloc)?, to.copy(alloc)?),
            FieldOp::AddCase(literal, fields) => {
                FieldOp::AddCase(literal.copy(alloc)?, fields.copy(alloc)?)
            }
        })
    }
}

impl FieldFn {
    /// An equal function.
    pub fn copy(&self, alloc: Global) -> Result<FieldFn, Memory>
        ensures { IfOk result (λ f. field_fn_of f ≡ field_fn_of self.now) }
    {
        let scope = self.scope.copy(alloc)?;
        let op = self.op.copy(alloc)?;
        Ok(FieldFn { scope, op })
    }
}
