//! The syntax of declarations, of fixes and of the paths into a tree.
use crate::rule::{LeafText, RuleText};
use crate::template::TemplateText;
use mig_model::{Form, Name};

/// The syntax of a step of a path into a tree.
#[derive(Debug, Drop)]
pub enum StepText {
    /// `STRING`: the name of a field.
    Named(Name),
    /// `'each'`
    Each,
    /// `'left'`
    Left,
    /// `'right'`
    Right,
    /// `'case' STRING`: the literal of a case.
    Case(Name),
}

/// The syntax of what a `fix` does.
#[derive(Debug, Drop)]
pub enum FixText {
    /// `'newtype' NAME = template`
    NewType(Name, TemplateText),
    /// `'droptype' NAME`
    DropType(Name),
    /// `'deep' step {step} : leaf`: the steps to what is treated, and what is done to it.
    Deep(Vec<StepText>, LeafText),
    /// `rule`
    Rule(RuleText),
}

/// The syntax of a declaration.
#[derive(Debug, Drop)]
pub enum Decl {
    Form(Form),
    /// The names of the fields that lead to a save's version, and the number after `missing`.
    Version(Vec<Name>, Option<i128>),
    /// The version of a schema, and whether `follows` stands.
    Schema(i128, bool),
    /// A named type.
    Named(Name, TemplateText),
    Root(Name),
    /// The number of a fix, and what it does.
    Fix(i128, FixText),
}
