//! The grammar of declarations: which tokens are a declaration, and its syntax tree.
#![tactic(auto)]

mod fault;
mod law;
mod read_declaration;
mod read_fix;
mod read_text;

pub use fault::ParseFault;
pub use law::{fault_excludes, one_declaration, one_fault, one_syntax, texts_are_spelled};
pub use mig_reader::ParseError;
pub use mig_syntax::{
    CaseText, ChoiceText, ConstText, Decl, FieldList, FieldText, FillText, FixText, FunctionText,
    LeafText, RecordText, RuleBox, RuleList, RuleText, StepText, TemplateBox, TemplateText,
};
pub use read_declaration::declaration;
pub use read_text::parse;
