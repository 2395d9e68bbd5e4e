//! The syntax of rules, and of the functions, constants and fills in them.
ghost use Rattle.std.specs.Prelude.{◌≡◌, map, IfOk};

use crate::template::{FieldList, TemplateText};
use mig_model::{Kind, Name};
use std::alloc::{AllocFailed, Global};
use std::marker::Model;

/// The syntax of a constant.
#[derive(Debug)]
pub enum ConstText {
    /// A whole number of the kind `Byte`, `Short`, `Int`, `Long` or `Whole`, which may be outside the kind's range.
    Number(Kind, i128),
    /// The bits of a `Float` or a `Double`, which may be outside the kind's range.
    Bits(Kind, i128),
    Text(Name),
    Bool(bool),
    Null,
    /// An empty array of the kind `Bytes`, `Ints` or `Longs`.
    Empty(Kind),
}

impl Drop for ConstText {
    fn drop(self) {
        match self {
            ConstText::Text(text) => drop(text),
            ConstText::Number(_, _)
            | ConstText::Bits(_, _)
            | ConstText::Bool(_)
            | ConstText::Null
            | ConstText::Empty(_) => {}
        }
    }
}

/// The syntax of what a new field is filled with.
#[derive(Debug)]
pub enum FillText {
    /// `const`
    Const(ConstText),
    /// `'list' part`: the empty list, and the template of its items.
    EmptyList(TemplateText),
}

impl Drop for FillText {
    fn drop(self) {
        match self {
            FillText::Const(constant) => drop(constant),
            FillText::EmptyList(template) => drop(template),
        }
    }
}

/// The syntax of a leaf function.
#[derive(Debug)]
pub enum LeafText {
    /// `'const' const`
    Const(ConstText),
    /// `'plus' NUMBER`
    Plus(i128),
    /// `'times' NUMBER`
    Times(i128),
    /// `'clamp' NUMBER NUMBER`: the least and the greatest number.
    Clamp(i128, i128),
    /// `'to' kind`
    To(Kind),
    /// `'totext'`
    ToText,
    /// `'oftext' const`
    OfText(ConstText),
    /// `'table' ( STRING 'to' STRING {, STRING 'to' STRING} )`: the left and the right sides.
    Table(Vec<(Name, Name)>),
    /// `'prefix' STRING`
    Prefix(Name),
    /// `'strip' STRING`
    Strip(Name),
    /// `'lower'`
    Lower,
}

// Most drops of this crate are written by hand: a derived one is done in place wherever a value is let go, with a branch for each variant to prove there.
impl Drop for LeafText {
    fn drop(self) {
        match self {
            LeafText::Const(constant) | LeafText::OfText(constant) => drop(constant),
            LeafText::Table(pairs) => drop(pairs),
            LeafText::Prefix(text) | LeafText::Strip(text) => drop(text),
            LeafText::Plus(_)
            | LeafText::Times(_)
            | LeafText::Clamp(_, _)
            | LeafText::To(_)
            | LeafText::ToText
            | LeafText::Lower => {}
        }
    }
}

/// The syntax of a field function.
#[derive(Debug)]
pub enum FunctionText {
    /// `'rename' STRING STRING`: the name before and the name after.
    Rename(Name, Name),
    /// `'drop' STRING`
    Drop(Name),
    /// `'add' STRING = fill`
    Add(Name, FillText),
    /// `'learn' STRING (kind | 'any')`: None stands for `any`.
    Learn(Name, Option<Kind>),
    /// `'forget' STRING`
    Forget(Name),
    /// `'default' STRING = fill`
    Default(Name, FillText),
    /// `'maybe' STRING`
    MayBe(Name),
    /// `'map' STRING leaf`
    Map(Name, LeafText),
    /// `'nest' ( STRING {, STRING} ) STRING`: the fields, and the name of the record that they come into.
    Nest(Vec<Name>, Name),
    /// `'unnest' STRING`
    Unnest(Name),
    /// `'wrap' STRING`
    Wrap(Name),
    /// `'unify' STRING leaf 'or' leaf`: the functions of the left and of the right side.
    Unify(Name, LeafText, LeafText),
    /// `'retag' STRING STRING`: the literal before and the literal after.
    Retag(Name, Name),
    /// `'addcase' STRING { [field {, field}] }`: the literal and the fields of the case.
    AddCase(Name, FieldList),
}

impl Drop for FunctionText {
    fn drop(self) {
        match self {
            FunctionText::Rename(one, other) | FunctionText::Retag(one, other) => {
                drop(one);
                drop(other);
            }
            FunctionText::Drop(name)
            | FunctionText::Learn(name, _)
            | FunctionText::Forget(name)
            | FunctionText::MayBe(name)
            | FunctionText::Unnest(name)
            | FunctionText::Wrap(name) => drop(name),
            FunctionText::Add(name, fill) | FunctionText::Default(name, fill) => {
                drop(name);
                drop(fill);
            }
            FunctionText::Map(name, function) => {
                drop(name);
                drop(function);
            }
            FunctionText::Nest(names, name) => {
                drop(names);
                drop(name);
            }
            FunctionText::AddCase(literal, fields) => {
                drop(literal);
                drop(fields);
            }
            FunctionText::Unify(name, one, other) => {
                drop(name);
                drop(one);
                drop(other);
            }
        }
    }
}

/// The syntax of a rule.
#[cycle(rule)]
#[derive(Debug, Drop)]
pub enum RuleText {
    /// `'nop'`
    Nop,
    /// `'all' rule`
    All(RuleBox),
    /// `'everywhere' rule`
    Everywhere(RuleBox),
    /// `'on' NAME rule`: the name of a type, and the rule for it.
    On(Name, RuleBox),
    /// `'at' STRING rule`: the name of a field, and the rule for its places.
    At(Name, RuleBox),
    /// `'seq' ( rule {, rule} )`
    Seq(RuleList),
    /// `'orelse' ( rule , rule )`
    OrElse(RuleBox, RuleBox),
    /// `function` or `'in' STRING function`. A function, and the literal of the case that it is for: None for the common fields.
    Fn(Option<Name>, FunctionText),
}

/// The syntax of a rule, on the heap.
#[cycle(rule)]
#[derive(Debug)]
pub struct RuleBox {
    rule: Box<RuleText>,
}

impl Drop for RuleBox {
    #[cycle(rule_drops)]
    fn drop(self) {
        let RuleBox { rule } = self;
        drop(rule);
    }
}

/// Rules in order.
#[cycle(rule)]
#[derive(Debug)]
pub struct RuleList {
    list: Vec<RuleText>,
}

impl Drop for RuleList {
    #[cycle(rule_drops)]
    fn drop(self) {
        let RuleList { list } = self;
        drop(list);
    }
}

impl Model for RuleBox {
    ghost use Rattle.mig_syntax.specs.RuleSyntax.{RuleSyntax, rule_size};
    ghost use Rattle.mig_syntax.specs.RuleCode.{coded_rule};

    ghost Value = { RuleSyntax };

    ghost coded = { coded_rule };

    ghost use Rattle.mig_syntax.specs.RuleView.{rule_of};

    ghost view = { λ a. rule_of a.rule.value };

    ghost size = { rule_size };

    ghost use Rattle.std.proofs.Common.{arith};
    ghost use Rattle.mig_syntax.specs.RuleFalls.{depth_rule};

    ghost size_decreases = { λ a h. omega (arith, depth_rule a.rule.value) };
}

impl Model for RuleList {
    ghost use Rattle.std.specs.Prelude.{List, map};
    ghost use Rattle.mig_syntax.specs.RuleSyntax.{RuleSyntax, rule_list_size};
    ghost use Rattle.mig_syntax.specs.RuleCode.{coded_rule_list};

    ghost Value = { List RuleSyntax };

    ghost coded = { coded_rule_list };

    ghost use Rattle.mig_syntax.specs.RuleView.{rule_of};

    ghost view = { λ a. map rule_of a.list.items };

    ghost size = { rule_list_size };

    ghost use Rattle.std.proofs.Common.{arith};
    ghost use Rattle.mig_syntax.specs.RuleFalls.{depth_rules};

    ghost size_decreases = { λ a h. omega (arith, depth_rules a.list.items) };
}

impl RuleBox {
    ghost use Rattle.mig_syntax.specs.RuleView.{rule_of};

    /// The rule, on the heap.
    pub fn new(alloc: Global, rule: RuleText) -> Result<RuleBox, AllocFailed<RuleText>>
        ensures { IfOk result (λ b. b ≡ rule_of rule) }
    {
        Ok(RuleBox {
            rule: Box::new(alloc, rule)?,
        })
    }

    /// The rule itself.
    pub fn get(&self) -> &RuleText
        ensures { rule_of result.now ≡ self.now }
    {
        &*self.rule
    }
}

impl RuleList {
    ghost use Rattle.mig_syntax.specs.RuleView.{rule_of};

    /// The rules, in this order.
    pub fn new(list: Vec<RuleText>) -> RuleList
        ensures { result ≡ map rule_of list.items }
    {
        RuleList { list }
    }

    /// The rules in order.
    pub fn as_slice(&self) -> &[RuleText]
        ensures { map rule_of result.now ≡ self.now }
    {
        self.list.as_slice()
    }

    /// Gives the rules up.
    pub fn into_vec(self) -> Vec<RuleText>
        ensures { map rule_of result.items ≡ self }
    {
        let RuleList { list } = self;
        list
    }
}
