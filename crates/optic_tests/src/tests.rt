//! A chain of all optics parts a list of nodes, and the residue is rejoined with another focus.
ghost use Rattle.mig_value.specs.View.{typed_of};
ghost use Rattle.mig_path.specs.Path.{Takes};

use crate::chains::{at_run_time, by_types};
use crate::values::{MEMORY, int, nodes};
use mig_optic::{Counter, Optic, Value};
use std::alloc::Global;
use std::fmt::Debug;
use std::process::Abort;

/// Counts the nodes that are crossed.
#[derive(Drop)]
struct Count<'r, R> {
    rt: &'r R,
    crossed: u64,
}

impl<'r, R: Abort> Counter for Count<'r, R> {
    ghost counted = { λ s. s.crossed };

    fn tick(&mut self) {
        self.crossed = self.crossed.checked_add(1).expect(self.rt, "too many");
    }
}

/// The two are written alike.
fn check_same<T: Debug>(rt: &impl Abort, alloc: Global, found: &T, want: &T) {
    let found = format!(in alloc; "{found:?}").expect(rt, MEMORY);
    let want = format!(in alloc; "{want:?}").expect(rt, MEMORY);
    assert_eq!(rt; found.as_str(), want.as_str());
}

/// The list of one number.
fn one<'a>(rt: &impl Abort, alloc: Global, number: i32) -> Vec<Value<'a>> {
    vec![in alloc; int(number)].expect(rt, MEMORY)
}

/// The optic finds the number 1 in the nodes and crosses the four of them. The residue with the number 9 gives the nodes with that in its place.
fn turn<'a, O: Optic<'a>>(rt: &impl Abort, alloc: Global, optic: &O, value: Value<'a>)
    requires { Takes (O.path optic.now) (typed_of value) }
{
    let mut count = Count { rt, crossed: 0 };
    let (foci, residue) = optic.part(alloc, value, &mut count).expect(rt, MEMORY);
    assert_eq!(rt; count.crossed, 4);
    check_same(rt, alloc, &foci, &one(rt, alloc, 1));
    let others = one(rt, alloc, 9);
    assert!(rt; foci.len() == others.len());
    let joined = optic.rejoin(alloc, others, residue).expect(rt, MEMORY);
    check_same(rt, alloc, &joined, &nodes(rt, alloc, 9));
}

#[test]
fn a_chain_by_types(rt: HostRuntime) {
    let alloc = rt.alloc();
    turn(&rt, alloc, &by_types(&rt, alloc), nodes(&rt, alloc, 1));
}

#[test]
fn a_chain_chosen_at_run_time(rt: HostRuntime) {
    let alloc = rt.alloc();
    turn(&rt, alloc, &at_run_time(&rt, alloc), nodes(&rt, alloc, 1));
}
