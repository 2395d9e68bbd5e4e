//! Nodes: a tree of a named type, read as a value.
ghost use Rattle.std.specs.Prelude.{◌≡◌, ◌+◌};

use crate::{Counter, Name, Tree, Value};
use std::marker::Model;
use std::mem;

/// A tree of a named type. Only `enter` and `open` lead to its body, and count.
#[cycle(value)]
#[derive(Debug)]
pub struct Node<'a> {
    name: Name,
    body: Value<'a>,
}

impl Drop for Node<'_> {
    #[cycle(drops)]
    fn drop(self) {
        let Node { name, body } = self;
        drop(name);
        drop(body);
    }
}

impl<'a> Model for Node<'a> {
    ghost use Rattle.mig_value.specs.Parts.{NodeParts};
    ghost use Rattle.mig_value.specs.Code.{coded_node};

    ghost Value = { NodeParts };

    ghost coded = { coded_node };

    ghost use Rattle.mig_value.specs.View.{typed_of};

    ghost view = { λ a. (a.name, typed_of a.body) };

    ghost use Rattle.mig_value.specs.Kept.{ValueKept};

    ghost invariant = { λ a. ValueKept (typed_of a.body) };

    ghost use Rattle.mig_value.specs.Parts.{node_size};

    ghost size = { node_size };

    ghost use Rattle.std.proofs.Common.{arith};
    ghost use Rattle.mig_value.specs.Falls.{deep_le};

    ghost size_decreases = { λ a h. omega (arith, deep_le a.body) };
}

impl<'a> Node<'a> {
    ghost use Rattle.mig_model.specs.Plain.{null};
    ghost use Rattle.mig_value.specs.Typed.{atom};
    ghost use Rattle.mig_value.specs.Kept.{ValueKept};
    ghost use Rattle.mig_value.specs.View.{typed_of};

    /// A node of the named type with this body.
    pub fn new(name: Name, value: Value<'a>) -> Node<'a>
        ensures { result ≡ (name, typed_of value.entry) }
    {
        value.keeps();
        Node { name, body: value }
    }

    /// The name of the type.
    pub fn name(&self) -> &Name
        ensures { result.now ≡ self.now.0 }
    {
        &self.name
    }

    /// The body. It counts one.
    pub fn enter<C: Counter>(self, steps: &mut C) -> Value<'a>
        ensures body { typed_of result ≡ self.entry.1 }
        ensures count { C.counted steps.new ≡ C.counted steps.old + 1 }
    {
        let mut node = self;
        node.open(steps)
    }

    /// Takes the body out and leaves an Atom Null there. It counts one.
    pub fn open<C: Counter>(&mut self, steps: &mut C) -> Value<'a>
        ensures body { typed_of result ≡ self.old.1 }
        ensures rest { self.new ≡ (self.old.0, atom null) }
        ensures count { C.counted steps.new ≡ C.counted steps.old + 1 }
    {
        steps.tick();
        mem::replace(&mut self.body, Value::Atom(Tree::Null))
    }

    /// Puts a body in, and lets go of what stood there.
    pub fn close(&mut self, value: Value<'a>)
        ensures { self.new ≡ (self.old.0, typed_of value.entry) }
    {
        value.keeps();
        let before = mem::replace(&mut self.body, value);
        drop(before);
    }

    /// The body, for a look at leaves alone.
    pub(crate) fn body(&self) -> &Value<'a>
        ensures { typed_of result.now ≡ self.now.1 }
    {
        &self.body
    }

    /// Gives the body up, for a leaf alone.
    pub(crate) fn into_body(self) -> Value<'a>
        ensures { typed_of result ≡ self.entry.1 }
    {
        let Node { name, body } = self;
        drop(name);
        body
    }

    /// Does nothing. Its contract tells what every node keeps at every depth.
    pub fn keeps(&self)
        ensures { ValueKept self.now.1 }
    {
        let _name = &self.name;
    }
}
