//! Laws of rules, as functions that do nothing.
ghost use Rattle.mig_rule.specs.Laws.{RootKindsStay};

/// A rule keeps the root kinds of a template that it fits.
pub fn root_kinds_stay()
    ensures { RootKindsStay }
{}
