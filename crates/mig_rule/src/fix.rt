//! Fixes, and the steps of their paths.
ghost use Rattle.std.specs.Prelude.{◌≡◌, IfOk, map};
ghost use Rattle.mig_rule.specs.View.{step_of, fix_of};

use crate::Rule;
use mig_leaf::LeafFn;
use mig_template::Template;
use mig_tree::{Memory, Name};
use std::alloc::Global;

/// A step of a path.
#[derive(Debug, Drop)]
pub enum PathStep {
    /// Into the field of the name; after `Case`, also into one of the case.
    Named(Name),
    /// Into the items of a list.
    Each,
    /// Into the left side of a sum.
    Left,
    /// Into the right side of a sum.
    Right,
    /// It stays at the maps whose tag is the literal.
    Case(Name),
}

/// What changes between two schemas.
#[derive(Debug)]
pub enum Fix {
    /// The rule at each named type that it fits, and at each tree of one.
    Rule(Rule),
    /// The leaf function at the end of the path from the root.
    Deep(Vec<PathStep>, LeafFn),
    /// One more named type.
    NewType(Name, Template),
    /// One named type fewer.
    DropType(Name),
}

// By hand, so that a caller proves one call and no branch for each part.
impl Drop for Fix {
    fn drop(self) {
        match self {
            Fix::Rule(rule) => drop(rule),
            Fix::Deep(steps, function) => {
                drop(steps);
                drop(function);
            }
            Fix::NewType(name, template) => {
                drop(name);
                drop(template);
            }
            Fix::DropType(name) => drop(name),
        }
    }
}

impl PathStep {
    /// An equal step.
    pub fn copy(&self, alloc: Global) -> Result<PathStep, Memory>
        ensures { IfOk result (λ s. step_of s ≡ step_of self.now) }
    {
        Ok(match self {
            PathStep::Named(name) => PathStep::Named(name.copy(alloc)?),
            PathStep::Each => PathStep::Each,
            PathStep::Left => PathStep::Left,
            PathStep::Right => PathStep::Right,
            PathStep::Case(literal) => PathStep::Case(literal.copy(alloc)?),
        })
    }
}

/// Equal steps, in the same order.
fn copy_steps(alloc: Global, steps: &[PathStep]) -> Result<Vec<PathStep>, Memory>
    ensures { IfOk result (λ list. map step_of list.items ≡ map step_of steps.now) }
{
    let mut list = Vec::new(alloc);
    for step in steps {
        list.push(step.copy(alloc)?)?;
    }
    Ok(list)
}

impl Fix {
    /// An equal fix.
    pub fn copy(&self, alloc: Global) -> Result<Fix, Memory>
        ensures { IfOk result (λ x. fix_of x ≡ fix_of self.now) }
    {
        Ok(match self {
            Fix::Rule(rule) => Fix::Rule(rule.copy(alloc)?),
            Fix::Deep(steps, function) => {
                let steps = copy_steps(alloc, steps)?;
                Fix::Deep(steps, function.copy(alloc)?)
            }
            Fix::NewType(name, template) => {
                let name = name.copy(alloc)?;
                Fix::NewType(name, template.copy(alloc)?)
            }
            Fix::DropType(name) => Fix::DropType(name.copy(alloc)?),
        })
    }
}
