//! What becomes of a template, and what was met among its children.
use mig_template::Template;
use mig_tree::Name;

/// What becomes of a template.
#[derive(Debug, Drop)]
pub enum Outcome {
    /// It stays as it is.
    Stays,
    /// It becomes another.
    Becomes(Template),
    /// What has to fit a part of it doesn't.
    Unfit,
}

/// A child of a template, and its name where it is a field.
#[derive(Clone, Copy, Debug, Drop)]
pub struct Child<'t> {
    pub name: Option<&'t Name>,
    pub template: &'t Template,
}

/// What was met among the children.
#[derive(Clone, Copy, Debug, Drop)]
pub struct Met {
    /// One becomes another template.
    pub changed: bool,
    /// One is unfit.
    pub unfit: bool,
}

impl Outcome {
    ghost use Rattle.std.specs.Prelude.{◌≡◌, option_map};
    ghost use Rattle.mig_template.specs.View.{template_of};
    ghost use Rattle.mig_rule.specs.Step.{outcome_of, met_one};
    ghost use Rattle.mig_rule.specs.Target.{changed};

    /// The new template, if there is one. What the outcome is gets noted.
    pub fn noted(self, met: &mut Met) -> Option<Template>
        ensures template { option_map template_of result ≡ changed (outcome_of self) }
        ensures met { met.new ≡ met_one (outcome_of self) met.old }
    {
        match self {
            Outcome::Stays => None,
            Outcome::Becomes(template) => {
                met.changed = true;
                Some(template)
            }
            Outcome::Unfit => {
                met.unfit = true;
                None
            }
        }
    }

    /// The new template, if there is one.
    pub fn changed(self) -> Option<Template>
        ensures { option_map template_of result ≡ changed (outcome_of self) }
    {
        match self {
            Outcome::Becomes(template) => Some(template),
            Outcome::Stays | Outcome::Unfit => None,
        }
    }
}
