//! Laws about folds of trees in formed families, each the contract of an empty function.
#![tactic(auto)]

ghost use Rattle.mig_fold.specs.Laws.{FoldUnfolds, FoldInhabits, SkippingIsIdle};

/// At an inhabitant of a formed family a fold is one level: the trees at points are folded, but for those at skipped names, which stay, and then the arm is done to the tree.
pub fn fold_unfolds()
    ensures { FoldUnfolds }
{}

/// A fold whose arms lead to inhabitants of another formed family makes inhabitants of that family, where the trees at skipped names inhabit it as they are.
pub fn fold_inhabits()
    ensures { FoldInhabits }
{}

/// To skip names whose trees the fold would leave as they are changes nothing.
pub fn skipping_is_idle()
    ensures { SkippingIsIdle }
{}
