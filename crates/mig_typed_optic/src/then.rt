//! One optic after another.
ghost use Rattle.std.specs.Prelude.{◌≡◌, ◌+◌, ◌≤◌, IfOk, length, map};
ghost use Rattle.std.specs.List.{flat_map, AllByRecursion};
ghost use Rattle.mig_value.specs.View.{typed_of};
ghost use Rattle.mig_path.specs.Path.{foci, Takes, crossed, total_of};
ghost use Rattle.mig_path.specs.Rest.{part_of, groups_of, joins, total, AreFormed};

use crate::lists::{add_part, take_front};
use mig_path::{Counter, Memory, Optic, Value};
use std::alloc::Global;

/// The second optic at each focus of the first.
#[derive(Debug, Drop)]
pub struct Then<P, Q> {
    pub first: P,
    pub second: Q,
}

/// What is left of one focus of the first optic, and how many foci the second has there.
#[derive(Debug, Drop)]
pub struct Group<S> {
    count: usize,
    residue: S,
}

/// What is left for the first optic, and of each of its foci.
#[derive(Debug, Drop)]
pub struct ThenRest<R, S> {
    outer: R,
    inner: Vec<Group<S>>,
}

/// Parts each value: the foci of all in order, and for each how many it has and its residue.
fn part_each<'a, Q: Optic<'a>, C: Counter>(
    optic: &Q,
    alloc: Global,
    values: Vec<Value<'a>>,
    steps: &mut C,
) -> Result<(Vec<Value<'a>>, Vec<Group<Q::Residue>>), Memory>
    requires { AllByRecursion (Takes (Q.path optic.now)) (map typed_of values.items) }
    ensures foci { IfOk result (λ x. map typed_of x.0.items
        ≡ flat_map (foci (Q.path optic.now)) (map typed_of values.entry.items)) }
    ensures groups { IfOk result (λ x. map (λ g. (g.count, Q.rest g.residue)) x.1.items
        ≡ map (part_of (Q.path optic.now)) (map typed_of values.entry.items)) }
    ensures exact { IfOk result (λ _. C.counted steps.new
        ≡ C.counted steps.old + total_of (crossed (Q.path optic.now)) (map typed_of values.entry.items)) }
    ensures count { C.counted steps.new ≤ C.counted steps.old + total_of (crossed (Q.path optic.now))
        (map typed_of values.entry.items) }
    ensures grows { C.counted steps.old ≤ C.counted steps.new }
{
    let mut foci = Vec::new(alloc);
    let mut groups = Vec::new(alloc);
    for value in values {
        let (more, residue) = optic.part(alloc, value, steps)?;
        let count = more.len();
        add_part(more, Group { count, residue }, &mut foci, &mut groups)?;
    }
    Ok((foci, groups))
}

/// Rejoins each residue with its foci, which follow one another in the list.
fn rejoin_each<'a, Q: Optic<'a>>(
    optic: &Q,
    alloc: Global,
    foci: Vec<Value<'a>>,
    groups: Vec<Group<Q::Residue>>,
) -> Result<Vec<Value<'a>>, Memory>
    requires formed { AreFormed (groups_of (map (λ g. (g.count, Q.rest g.residue)) groups.items)) }
    requires enough { length foci.items ≡ total (groups_of (map (λ g. (g.count, Q.rest g.residue)) groups.items)) }
    ensures { IfOk result (λ values. map typed_of values.items ≡ joins (groups_of (map (λ g.
        (g.count, Q.rest g.residue)) groups.items)) (map typed_of foci.entry.items)) }
{
    let mut reversed = foci;
    reversed.reverse();
    let mut values = Vec::new(alloc);
    for group in groups {
        let Group { count, residue } = group;
        let front = take_front(alloc, &mut reversed, count)?;
        values.push(optic.rejoin(alloc, front, residue)?)?;
    }
    Ok(values)
}

impl<'a, P: Optic<'a>, Q: Optic<'a>> Optic<'a> for Then<P, Q> {
    ghost use Rattle.mig_path.specs.Path.{then_};
    ghost use Rattle.mig_path.specs.Rest.{both, groups_of};

    type Residue = ThenRest<P::Residue, Q::Residue>;

    ghost path = { λ o. then_ (P.path o.first) (Q.path o.second) };

    ghost rest = { λ r. both (P.rest r.outer) (groups_of (map (λ g. (g.count, Q.rest g.residue)) r.inner.items)) };

    fn part<C: Counter>(
        &self,
        alloc: Global,
        value: Value<'a>,
        steps: &mut C,
    ) -> Result<(Vec<Value<'a>>, ThenRest<P::Residue, Q::Residue>), Memory> {
        let (values, outer) = self.first.part(alloc, value, steps)?;
        let (foci, inner) = part_each(&self.second, alloc, values, steps)?;
        Ok((foci, ThenRest { outer, inner }))
    }

    fn rejoin(
        &self,
        alloc: Global,
        foci: Vec<Value<'a>>,
        residue: ThenRest<P::Residue, Q::Residue>,
    ) -> Result<Value<'a>, Memory> {
        let ThenRest { outer, inner } = residue;
        let values = rejoin_each(&self.second, alloc, foci, inner)?;
        self.first.rejoin(alloc, values, outer)
    }
}
