//! Rules, which change named types.
ghost use Rattle.std.specs.Prelude.{◌≡◌, IfOk};
ghost use Rattle.mig_rule.specs.View.{rule_of};

use mig_func::FieldFn;
use mig_tree::{Memory, Name};
use std::alloc::Global;
use std::marker::Model;

/// What is done to a part of the body of a named type. It fits or doesn't fit by the name and the template alone.
#[cycle(rule)]
#[derive(Debug, Drop)]
pub enum Rule {
    /// Nothing is done.
    Nop,
    /// The function is done to a record that it fits.
    Fn(FieldFn),
    /// The rule, at the named type of this name alone.
    On(Name, RuleBox),
    /// The rule at each place of the name, all of which it has to fit.
    At(Name, RuleBox),
    /// The first and then the second.
    Seq(RuleBox, RuleBox),
    /// The first where it fits, else the second.
    OrElse(RuleBox, RuleBox),
    /// The rule at each child that it fits; it has to fit one.
    All(RuleBox),
    /// The rule at each part that it fits, from below.
    Everywhere(RuleBox),
}

/// A rule on the heap.
#[cycle(rule)]
#[derive(Debug)]
pub struct RuleBox {
    rule: Box<Rule>,
}

impl Drop for RuleBox {
    #[cycle(drops)]
    fn drop(self) {
        let RuleBox { rule } = self;
        drop(rule);
    }
}

impl Model for RuleBox {
    ghost use Rattle.mig_rule.specs.Rule as model;
    ghost use Rattle.mig_rule.specs.Code.{coded_rule, rule_size};

    ghost Value = { model.Rule };

    ghost coded = { coded_rule };

    ghost use Rattle.mig_rule.specs.View.{rule_of};

    ghost view = { λ a. rule_of a.rule.value };

    ghost size = { rule_size };

    ghost use Rattle.std.proofs.Common.{arith};
    ghost use Rattle.mig_rule.specs.Falls.{deep_rule};

    ghost size_decreases = { λ a h. omega (arith, deep_rule a.rule.value) };
}

impl RuleBox {
    /// The rule, on the heap.
    pub fn new(alloc: Global, rule: Rule) -> Result<RuleBox, Memory>
        ensures { IfOk result (λ b. b ≡ rule_of rule) }
    {
        Ok(RuleBox {
            rule: Box::new(alloc, rule)?,
        })
    }

    /// The rule itself.
    pub fn get(&self) -> &Rule
        ensures { rule_of result.now ≡ self.now }
    {
        &self.rule
    }
}

impl Rule {
    /// An equal rule.
    #[cycle(copy)]
    pub fn copy(&self, alloc: Global) -> Result<Rule, Memory>
        ensures { IfOk result (λ r. rule_of r ≡ rule_of self.now) }
    {
        match self {
            Rule::Nop => Ok(Rule::Nop),
            Rule::Fn(function) => Ok(Rule::Fn(function.copy(alloc)?)),
            Rule::On(name, rule) => {
                let name = name.copy(alloc)?;
                let rule = rule.get().copy(alloc)?;
                Ok(Rule::On(name, RuleBox::new(alloc, rule)?))
            }
            Rule::At(name, rule) => {
                let name = name.copy(alloc)?;
                let rule = rule.get().copy(alloc)?;
                Ok(Rule::At(name, RuleBox::new(alloc, rule)?))
            }
            Rule::Seq(first, second) => {
                let first = first.get().copy(alloc)?;
                let first = RuleBox::new(alloc, first)?;
                let second = second.get().copy(alloc)?;
                Ok(Rule::Seq(first, RuleBox::new(alloc, second)?))
            }
            Rule::OrElse(first, second) => {
                let first = first.get().copy(alloc)?;
                let first = RuleBox::new(alloc, first)?;
                let second = second.get().copy(alloc)?;
                Ok(Rule::OrElse(first, RuleBox::new(alloc, second)?))
            }
            Rule::All(rule) => {
                let rule = rule.get().copy(alloc)?;
                Ok(Rule::All(RuleBox::new(alloc, rule)?))
            }
            Rule::Everywhere(rule) => {
                let rule = rule.get().copy(alloc)?;
                Ok(Rule::Everywhere(RuleBox::new(alloc, rule)?))
            }
        }
    }
}
