//! The laws of field functions over plain records and plain trees, each the contract of an empty function.
#![tactic(auto)]

ghost use Rattle.mig_field_laws.specs.Texts.{TextsStay};
ghost use Rattle.mig_field_laws.specs.Laws.{CountsStay, FormStays, NamesStay, OrderStays, TestsStay, TreatingCommutes, TypesStay};

/// The new record is in order at all depths.
pub fn order_stays()
    ensures { OrderStays }
{}

/// What inhabits the record, with inhabitants of some bodies at its points, becomes what inhabits the new record so.
pub fn types_stay()
    ensures { TypesStay }
{}

/// The same with any test of the trees at points.
pub fn tests_stay()
    ensures { TestsStay }
{}

/// Whatever is done to the trees at points may be done before or after, unless a field is forgotten whose template holds a point.
pub fn treating_commutes()
    ensures { TreatingCommutes }
{}

/// Whatever is counted in the trees at points comes to no more afterwards.
pub fn counts_stay()
    ensures { CountsStay }
{}

/// The names of a map that ascend do so afterwards.
pub fn names_stay()
    ensures { NamesStay }
{}

/// A map of the form is still of it, where all leaves of the new record are of kinds of the form.
pub fn form_stays()
    ensures { FormStays }
{}

/// Where the texts of a map pass a test, and those of the function and of the cases' names, the texts of the new map pass it: what could be written before can be written after.
pub fn texts_stay()
    ensures { TextsStay }
{}
