//! The laws of rules and fixes over plain trees, each the contract of an empty function.
#![tactic(auto)]

ghost use Rattle.mig_rule_laws.specs.Fixes.{FamiliesStay, FixTidinessStays, FixTypesStay};
ghost use Rattle.mig_rule_laws.specs.Laws.{KindsStay, RuleTestsStay, RuleTypesStay, SoundnessStays, TidinessStays};

/// The template that a rule gives on a sound one is sound.
pub fn soundness_stays()
    ensures { SoundnessStays }
{}

/// What fits a template, with inhabitants of some bodies at its points, becomes what fits the template that the rule gives so.
pub fn rule_types_stay()
    ensures { RuleTypesStay }
{}

/// The same with any test of the trees at points.
pub fn rule_tests_stay()
    ensures { RuleTestsStay }
{}

/// A tree of the form whose maps' names ascend stays such a tree.
pub fn tidiness_stays()
    ensures { TidinessStays }
{}

/// The kind of each tree stays.
pub fn kinds_stay()
    ensures { KindsStay }
{}

/// The family after a fix is formed, of the same form and root, and its templates are in order.
pub fn families_stay()
    ensures { FamiliesStay }
{}

/// What inhabits the root becomes what inhabits the root of the next family.
pub fn fix_types_stay()
    ensures { FixTypesStay }
{}

/// It is of the form, and its maps' names ascend, afterwards too.
pub fn fix_tidiness_stays()
    ensures { FixTidinessStays }
{}
