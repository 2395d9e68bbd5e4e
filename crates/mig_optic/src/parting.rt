//! Any optic parts a value. What takes memory beside the recursion stands in functions of its own.
ghost use Rattle.std.specs.Prelude.{◌≡◌, ◌+◌, ◌≤◌, IfOk, map};
ghost use Rattle.std.specs.List.{flat_map, AllByRecursion};
ghost use Rattle.mig_value.specs.View.{typed_of};
ghost use Rattle.mig_any_residue.specs.HeldView.{group_pair};
ghost use Rattle.mig_optic.specs.AnyView.{any_path};
ghost use Rattle.mig_path.specs.Path.{foci, Takes, crossed, total_of, then_};
ghost use Rattle.mig_path.specs.Rest.{rest_for, part_of, both, groups_of};

use crate::{AnyOptic, AnyResidue, Counter, Cross, Each, Here, Memory, Optic, Value};
use mig_any_residue::{AnyGroup, part_held, rejoin_any};
use mig_typed_optic::add_part;
use std::alloc::Global;

/// Parts a value by any optic.
#[cycle(part)]
fn part_any<'a, C: Counter>(
    optic: &AnyOptic,
    alloc: Global,
    value: Value<'a>,
    steps: &mut C,
) -> Result<(Vec<Value<'a>>, AnyResidue<'a>), Memory>
    requires { Takes (any_path optic.now) (typed_of value) }
    ensures foci { IfOk result (λ x. map typed_of x.0.items ≡ foci (any_path optic.now) (typed_of value.entry)) }
    ensures rest { IfOk result (λ x. x.1 ≡ rest_for (any_path optic.now) (typed_of value.entry)) }
    ensures exact { IfOk result (λ _. C.counted steps.new ≡ C.counted steps.old
        + crossed (any_path optic.now) (typed_of value.entry)) }
    ensures count { C.counted steps.new ≤ C.counted steps.old + crossed (any_path optic.now) (typed_of value.entry) }
    ensures grows { C.counted steps.old ≤ C.counted steps.new }
{
    match optic {
        AnyOptic::Here => part_held(&Here, alloc, value, steps),
        AnyOptic::FieldAt(optic) => part_held(optic, alloc, value, steps),
        AnyOptic::MayField(optic) => part_held(optic, alloc, value, steps),
        AnyOptic::CaseOf(optic) => part_held(optic, alloc, value, steps),
        AnyOptic::Each => part_held(&Each, alloc, value, steps),
        AnyOptic::Side(optic) => part_held(optic, alloc, value, steps),
        AnyOptic::Cross => part_held(&Cross, alloc, value, steps),
        AnyOptic::Then(first, second) => part_then(first.get(), second.get(), alloc, value, steps),
    }
}

/// Parts a value by the second optic after the first.
#[cycle(part)]
fn part_then<'a, C: Counter>(
    first: &AnyOptic,
    second: &AnyOptic,
    alloc: Global,
    value: Value<'a>,
    steps: &mut C,
) -> Result<(Vec<Value<'a>>, AnyResidue<'a>), Memory>
    requires { Takes (then_ (any_path first.now) (any_path second.now)) (typed_of value) }
    ensures foci { IfOk result (λ x. map typed_of x.0.items
        ≡ foci (then_ (any_path first.now) (any_path second.now)) (typed_of value.entry)) }
    ensures rest { IfOk result (λ x. x.1
        ≡ rest_for (then_ (any_path first.now) (any_path second.now)) (typed_of value.entry)) }
    ensures exact { IfOk result (λ _. C.counted steps.new ≡ C.counted steps.old
        + crossed (then_ (any_path first.now) (any_path second.now)) (typed_of value.entry)) }
    ensures count { C.counted steps.new ≤ C.counted steps.old
        + crossed (then_ (any_path first.now) (any_path second.now)) (typed_of value.entry) }
    ensures grows { C.counted steps.old ≤ C.counted steps.new }
{
    let (values, outer) = part_any(first, alloc, value, steps)?;
    let (foci, inner) = part_each(second, alloc, values, steps)?;
    with_inner(alloc, foci, outer, inner)
}

/// The foci with the residue of the first optic and of the second at each focus of it.
fn with_inner<'a>(
    alloc: Global,
    foci: Vec<Value<'a>>,
    outer: AnyResidue<'a>,
    inner: Vec<AnyGroup<'a>>,
) -> Result<(Vec<Value<'a>>, AnyResidue<'a>), Memory>
    ensures foci { IfOk result (λ x. x.0.items ≡ foci.entry.items) }
    ensures rest { IfOk result (λ x. x.1 ≡ both outer.entry (groups_of (map group_pair inner.entry.items))) }
{
    let residue = AnyResidue::both(alloc, outer, inner)?;
    Ok((foci, residue))
}

/// Parts each value: the foci of all in order, and for each how many it has and its residue.
#[cycle(part)]
fn part_each<'a, C: Counter>(
    optic: &AnyOptic,
    alloc: Global,
    values: Vec<Value<'a>>,
    steps: &mut C,
) -> Result<(Vec<Value<'a>>, Vec<AnyGroup<'a>>), Memory>
    requires { AllByRecursion (Takes (any_path optic.now)) (map typed_of values.items) }
    ensures foci { IfOk result (λ x. map typed_of x.0.items
        ≡ flat_map (foci (any_path optic.now)) (map typed_of values.entry.items)) }
    ensures groups { IfOk result (λ x. map group_pair x.1.items
        ≡ map (part_of (any_path optic.now)) (map typed_of values.entry.items)) }
    ensures exact { IfOk result (λ _. C.counted steps.new ≡ C.counted steps.old
        + total_of (crossed (any_path optic.now)) (map typed_of values.entry.items)) }
    ensures count { C.counted steps.new ≤ C.counted steps.old
        + total_of (crossed (any_path optic.now)) (map typed_of values.entry.items) }
    ensures grows { C.counted steps.old ≤ C.counted steps.new }
{
    let mut foci = Vec::new(alloc);
    let mut groups = Vec::new(alloc);
    for value in values {
        let (more, residue) = part_any(optic, alloc, value, steps)?;
        let count = more.len();
        add_part(more, AnyGroup { count, residue }, &mut foci, &mut groups)?;
    }
    Ok((foci, groups))
}

impl<'a> Optic<'a> for AnyOptic {
    type Residue = AnyResidue<'a>;

    ghost path = { any_path };

    ghost rest = { λ r. r };

    fn part<C: Counter>(
        &self,
        alloc: Global,
        value: Value<'a>,
        steps: &mut C,
    ) -> Result<(Vec<Value<'a>>, AnyResidue<'a>), Memory> {
        part_any(self, alloc, value, steps)
    }

    fn rejoin(
        &self,
        alloc: Global,
        foci: Vec<Value<'a>>,
        residue: AnyResidue<'a>,
    ) -> Result<Value<'a>, Memory> {
        rejoin_any(alloc, foci, residue)
    }
}
