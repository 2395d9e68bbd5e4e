//! A law, as a function of its own.
ghost use Rattle.mig_resolve.specs.Law.{WalksAreLate};

/// A law: where none of the faults 1 to 9 holds, what is met on the walk along the steps is one of 11 to 14.
pub fn walks_are_late()
    ensures { WalksAreLate }
{}
