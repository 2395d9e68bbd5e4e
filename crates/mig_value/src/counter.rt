//! What counts the nodes that are entered.
use mig_tree::Steps;
use std::sync::ledger::Ledger;

/// What counts the nodes that are entered. `Steps` is the one that contracts of whole calls speak of.
pub trait Counter {
    ghost use Rattle.std.specs.Prelude.{◌≡◌, ℕ, ◌+◌};

    /// The count.
    ghost counted: { Self → ℕ };

    /// Counts one.
    fn tick(&mut self)
        ensures { counted self.new ≡ counted self.old + 1 };
}

impl<L: Ledger> Counter for Steps<L> {
    ghost counted = { λ s. s };

    fn tick(&mut self) {
        self.tick();
    }
}
