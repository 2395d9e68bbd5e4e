//! Sets of one kind, and leaves of another form.
ghost use Rattle.std.specs.Prelude.{◌≡◌, ◌&&◌, not};
ghost use Rattle.mig_model.specs.Family.{kinds, is_one, is_wrong_leaf};
ghost use Rattle.mig_model.specs.Template.{is_of_form};
ghost use Rattle.mig_template.specs.KindSet.{is_in};
ghost use Rattle.mig_template.specs.View.{template_of};

use crate::{Form, Kind, Template};
use mig_template::KindSet;

/// Whether exactly one kind is in the set.
pub fn is_one(set: &KindSet) -> bool
    ensures { result ≡ is_one (is_in set.now) kinds }
{
    let kinds = Kind::all();
    let mut found = false;
    for kind in &kinds {
        if set.has(*kind) {
            if found {
                return false;
            }
            found = true;
        }
    }
    found
}

/// Whether it is a leaf of a kind that is no leaf kind of the form.
pub fn is_wrong_leaf(form: Form, template: &Template) -> bool
    ensures { result ≡ is_wrong_leaf form (template_of template.now) }
{
    match template {
        Template::Leaf(kind) => !(kind.is_leaf() && KindSet::of_form(form).has(*kind)),
        _ => false,
    }
}
