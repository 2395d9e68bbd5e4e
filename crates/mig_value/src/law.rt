//! Laws of values that fit.
ghost use Rattle.mig_value.specs.Law.{FitUnfolds, ReadFits};

/// A value is one of a named type exactly where it is one of its body, and the bodies of its nodes are ones of theirs.
pub fn fit_unfolds()
    ensures { FitUnfolds }
{}

/// What reading gives is a value of the type.
pub fn read_fits()
    ensures { ReadFits }
{}
