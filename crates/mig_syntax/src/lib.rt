//! The syntax trees of declarations: templates, rules and fixes as they stand in a text, before anything is asked of their meaning.
#![tactic(auto)]

mod decl;
mod rule;
mod template;

pub use decl::{Decl, FixText, StepText};
pub use rule::{ConstText, FillText, FunctionText, LeafText, RuleBox, RuleList, RuleText};
pub use template::{
    CaseText, ChoiceText, FieldList, FieldText, RecordText, TemplateBox, TemplateText,
};
