//! Values by what is in them. Want of memory ends the test at once, so that no value is let go on the way.
ghost use Rattle.std.specs.Prelude.{◌≡◌, ◌∷◌, []};
ghost use Rattle.mig_model.specs.Plain as plain;
ghost use Rattle.mig_value.specs.Typed.{atom, left, right, point};
ghost use Rattle.mig_value.specs.View.{typed_of};
ghost use Rattle.mig_path.specs.Path.{Takes};
ghost use Rattle.optic_tests.specs.Chain.{chain, case_value, full_node, bare_node};

use mig_optic::{Name, Value};
use mig_value::{Node, RecValue, Slot, Slots, Text, Tree, ValueBox, Values};
use std::alloc::Global;
use std::process::Abort;

/// What a test says where memory is wanting.
pub const MEMORY: &str = "out of memory";

/// The name of these bytes.
pub fn name(rt: &impl Abort, alloc: Global, bytes: &[u8]) -> Name
    ensures { result ≡ bytes.now }
{
    Name::new(alloc, bytes).expect(rt, MEMORY)
}

/// The value of a number.
pub fn int<'a>(number: i32) -> Value<'a>
    ensures { typed_of result ≡ atom (plain.int number) }
{
    Value::Atom(Tree::Int(number))
}

/// A number on the left side of a sum.
fn on_left<'a>(rt: &impl Abort, alloc: Global, number: i32) -> Value<'a>
    ensures { typed_of result ≡ left (atom (plain.int number)) }
{
    Value::Left(ValueBox::new(alloc, int(number)).expect(rt, MEMORY))
}

/// A number on the right side of a sum.
fn on_right<'a>(rt: &impl Abort, alloc: Global, number: i32) -> Value<'a>
    ensures { typed_of result ≡ right (atom (plain.int number)) }
{
    Value::Right(ValueBox::new(alloc, int(number)).expect(rt, MEMORY))
}

fn slot<'a>(name: &'static [u8], value: Value<'a>) -> Slot<'a>
    ensures name { result.name ≡ name.now }
    ensures value { typed_of result.value ≡ typed_of value.entry }
{
    Slot {
        name: Text::lent(name),
        value,
    }
}

/// The list of one slot.
fn slots<'a>(rt: &impl Abort, alloc: Global, name: &'static [u8], value: Value<'a>) -> Slots<'a>
    ensures { result ≡ (name.now, typed_of value.entry) ∷ [] }
{
    let list = vec![in alloc; slot(name, value)].expect(rt, MEMORY);
    Slots::new(list)
}

/// A record value of this literal under the tag `t`, whose case has the field `a`.
fn of_case<'a>(
    rt: &impl Abort,
    alloc: Global,
    literal: &'static [u8],
    value: Value<'a>,
) -> Value<'a>
    ensures { typed_of result ≡ case_value literal.now (typed_of value.entry) }
{
    let cased = slots(rt, alloc, b"a", value);
    let tag = (Text::lent(b"t"), Text::lent(literal));
    let (fields, rest) = (Slots::empty(alloc), Slots::empty(alloc));
    Value::Rec(RecValue::new(alloc, fields, Some(tag), cased, rest).expect(rt, MEMORY))
}

/// A node of this body.
fn node<'a>(rt: &impl Abort, alloc: Global, value: Value<'a>) -> Value<'a>
    ensures { typed_of result ≡ point (110 ∷ []) (typed_of value.entry) }
{
    let node = Node::new(name(rt, alloc, b"n"), value);
    Value::Point(Box::new(alloc, node).expect(rt, MEMORY))
}

/// A node whose body has this value under the name `m`.
fn full<'a>(rt: &impl Abort, alloc: Global, value: Value<'a>) -> Value<'a>
    ensures { typed_of result ≡ full_node (typed_of value.entry) }
{
    let fields = slots(rt, alloc, b"m", value);
    node(rt, alloc, Value::Rec(RecValue::of_fields(fields)))
}

/// A node whose body has no field.
fn bare<'a>(rt: &impl Abort, alloc: Global) -> Value<'a>
    ensures { typed_of result ≡ bare_node }
{
    let fields = Slots::empty(alloc);
    node(rt, alloc, Value::Rec(RecValue::of_fields(fields)))
}

/// A list of four nodes. The first has the number where the chain leads; the others are of the other side, of another case, and bare.
pub fn nodes<'a>(rt: &impl Abort, alloc: Global, number: i32) -> Value<'a>
    ensures { Takes chain (typed_of result) }
{
    let left = on_left(rt, alloc, number);
    let right = on_right(rt, alloc, 2);
    let focused = of_case(rt, alloc, b"l", left);
    let sided = of_case(rt, alloc, b"l", right);
    let cased = of_case(rt, alloc, b"k", int(3));
    let first = full(rt, alloc, focused);
    let second = full(rt, alloc, sided);
    let third = full(rt, alloc, cased);
    let list = vec![in alloc; first, second, third, bare(rt, alloc)].expect(rt, MEMORY);
    Value::List(Values::new(list))
}
