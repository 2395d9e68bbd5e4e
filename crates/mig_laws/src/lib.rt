//! Laws about templates, families and the trees that inhabit them, each the contract of an empty function.
#![tactic(auto)]

ghost use Rattle.mig_laws.specs.Laws.{InhabitsUnfolds, PlaceIsExact, PlaceUnfolds};

/// In a formed family the first wrong place of a tree at a named type is the one at its body, found with the first wrong places of the trees at points.
pub fn place_unfolds()
    ensures { PlaceUnfolds }
{}

/// In a formed family a tree inhabits a named type exactly where it fits the body and the trees at points inhabit the named types there.
pub fn inhabits_unfolds()
    ensures { InhabitsUnfolds }
{}

/// In a formed family a tree has no wrong place exactly where it inhabits the named type, also a tree that isn't of the family's form.
pub fn place_is_exact()
    ensures { PlaceIsExact }
{}
