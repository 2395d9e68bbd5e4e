//! Field functions as plain data: what they are, the record that each makes of another, and what each does to a map.
#![tactic(auto)]

ghost use Rattle.mig_field.specs.SameTemplate.{SameIsEqual};

/// The test of templates, by which a field that is filled must be of the filling's template, passes exactly at equal ones.
pub fn same_is_equal()
    ensures { SameIsEqual }
{}
