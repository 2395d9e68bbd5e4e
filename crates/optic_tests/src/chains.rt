//! The chain of optics that is tried, by types and chosen at run time.
ghost use Rattle.std.specs.Prelude.{◌≡◌};
ghost use Rattle.mig_path.specs.Path.{each, then_};
ghost use Rattle.mig_optic.specs.AnyView.{any_path};
ghost use Rattle.optic_tests.specs.Chain.{in_case, in_node, chain};

use crate::values::{MEMORY, name};
use mig_optic::{AnyOptic, CaseOf, Cross, Each, FieldAt, Here, MayField, Side, Then};
use std::alloc::Global;
use std::process::Abort;

/// The left side of the field of a case, by types.
pub type InCase = Then<CaseOf, Then<FieldAt, Then<Side, Here>>>;

/// The chain by types.
pub type Chain = Then<Each, Then<Cross, Then<MayField, InCase>>>;

/// The chain by types.
pub fn by_types(rt: &impl Abort, alloc: Global) -> Chain
    ensures { then_ each (in_node result.second.second.first.name
        (in_case result.second.second.second.first.literal result.second.second.second.second.first.name result.second.second.second.second.second.first)) ≡ chain }
{
    let side = Then {
        first: Side::Left,
        second: Here,
    };
    let field = Then {
        first: FieldAt {
            name: name(rt, alloc, b"a"),
        },
        second: side,
    };
    let case = Then {
        first: CaseOf {
            literal: name(rt, alloc, b"l"),
        },
        second: field,
    };
    let may = Then {
        first: MayField {
            name: name(rt, alloc, b"m"),
        },
        second: case,
    };
    let node = Then {
        first: Cross,
        second: may,
    };
    Then {
        first: Each,
        second: node,
    }
}

/// The second optic at each focus of the first.
fn after(rt: &impl Abort, alloc: Global, first: AnyOptic, second: AnyOptic) -> AnyOptic
    ensures { any_path result ≡ then_ (any_path first) (any_path second) }
{
    AnyOptic::then(alloc, first, second).expect(rt, MEMORY)
}

/// A copy of the chain, chosen at run time.
pub fn at_run_time(rt: &impl Abort, alloc: Global) -> AnyOptic
    ensures { any_path result ≡ chain }
{
    let may = MayField {
        name: name(rt, alloc, b"m"),
    };
    let case = CaseOf {
        literal: name(rt, alloc, b"l"),
    };
    let field = FieldAt {
        name: name(rt, alloc, b"a"),
    };
    let sided = after(rt, alloc, AnyOptic::Side(Side::Left), AnyOptic::Here);
    let fielded = after(rt, alloc, AnyOptic::FieldAt(field), sided);
    let cased = after(rt, alloc, AnyOptic::CaseOf(case), fielded);
    let inside = after(rt, alloc, AnyOptic::MayField(may), cased);
    let crossed = after(rt, alloc, AnyOptic::Cross, inside);
    let chain = after(rt, alloc, AnyOptic::Each, crossed);
    chain.copy(alloc).expect(rt, MEMORY)
}
