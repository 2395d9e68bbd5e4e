//! The laws of what is found, each as the contract of an empty function.
ghost use Rattle.std.specs.Prelude.{ℕ, List};
ghost use Rattle.mig_model.specs.declared.form.Form.{Form};
ghost use Rattle.mig_model.specs.Template.{Template};
ghost use Rattle.mig_value.specs.Fit.{Fit, FitAsRead, IsOfForm, IsAtomOf};
ghost use Rattle.mig_finder.specs.Law.{PlacesFit, PlacesLead};

/// The optic of each place takes every value of the template, and its foci are values of the template of the place:
/// so of values that fit, of those that were read, and of those that have the shape alone.
pub fn places_fit()
    ensures fit { (form : Form) (body : List ℕ → Template) → PlacesFit (IsOfForm form) (Fit form body) }
    ensures read { (form : Form) (body : List ℕ → Template) → PlacesFit (IsAtomOf form) (FitAsRead form body) }
    ensures shape { PlacesFit (λ v. Unit {0}) (λ n v. Unit {0}) }
{}

/// What is found are all the values at the places: where the foci of a place's optic are changed, the value's tree is
/// changed where the place's way leads, and nowhere else. The kind of a tree has to tell the side of each sum.
pub fn places_lead()
    ensures fit { (form : Form) (body : List ℕ → Template) → PlacesLead form (IsOfForm form) (Fit form body) }
    ensures read { (form : Form) (body : List ℕ → Template) → PlacesLead form (IsAtomOf form) (FitAsRead form body) }
    ensures shape { (form : Form) → PlacesLead form (λ v. Unit {0}) (λ n v. Unit {0}) }
{}
