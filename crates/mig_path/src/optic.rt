//! What every optic does.
ghost use Rattle.std.specs.Prelude.{◌≡◌, ◌+◌, ◌≤◌, IfOk, length, map};
ghost use Rattle.mig_value.specs.View.{typed_of};
ghost use Rattle.mig_path.specs.Path.{Path, foci, Takes, crossed};
ghost use Rattle.mig_path.specs.Rest.{Residual, rest_for, join, FitsFoci};

use crate::{Counter, Memory, Value};
use std::alloc::Global;

/// A way to places in a value, its foci. The optics are those of this crate; contracts see each as a `Path`, and its residue as a `Rest`.
pub trait Optic<'a> {
    /// What is left of a value without its foci. It stands for the frame, the value with Null at each focus.
    type Residue: Drop;

    ghost path: { Self → Path };

    ghost rest: { Self.Residue → Residual };

    /// Takes a value apart. It moves the foci and copies none; the list of foci is allocated, and for an optic after another one list more for each focus of the first.
    fn part<C: Counter>(
        &self,
        alloc: Global,
        value: Value<'a>,
        steps: &mut C,
    ) -> Result<(Vec<Value<'a>>, Self::Residue), Memory>
        requires { Takes (path self.now) (typed_of value) }
        ensures foci { IfOk result (λ x. map typed_of x.0.items ≡ foci (path self.now) (typed_of value.entry)) }
        ensures rest { IfOk result (λ x. rest x.1 ≡ rest_for (path self.now) (typed_of value.entry)) }
        ensures exact { IfOk result (λ _. C.counted steps.new
            ≡ C.counted steps.old + crossed (path self.now) (typed_of value.entry)) }
        ensures count { C.counted steps.new ≤ C.counted steps.old + crossed (path self.now) (typed_of value.entry) }
        ensures grows { C.counted steps.old ≤ C.counted steps.new };

    /// Gives the value of these foci and this residue. It moves them and copies none; only an optic after another allocates.
    fn rejoin(
        &self,
        alloc: Global,
        foci: Vec<Value<'a>>,
        residue: Self::Residue,
    ) -> Result<Value<'a>, Memory>
        requires { FitsFoci (rest residue) (length foci.items) }
        ensures { IfOk result (λ w. typed_of w ≡ join (rest residue) (map typed_of foci.entry.items)) };
}
