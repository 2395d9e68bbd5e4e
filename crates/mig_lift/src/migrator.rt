//! A chain and the target of its lifts.
ghost use Rattle.std.specs.Prelude.{◌≡◌, ◌≤◌, IfErr, IfOk};
ghost use Rattle.mig_model.specs.Version.{last_version};
ghost use Rattle.mig_lift.specs.Lift.{lift};
ghost use Rattle.mig_lift.specs.Setting.{IsInReach};
ghost use Rattle.mig_lift.specs.View.{IsNoSetting, Lifts};

use crate::lifting::{lift_json, lift_nbt};
use crate::small::is_small;
use crate::{LiftFault, NewFault};
use mig_model::Form;
use mig_rule::Chain;
use mig_tree::Steps;
use std::alloc::Global;
use std::marker::Model;
use std::sync::ledger::Ledger;

/// Lifts saves by a chain to a target.
#[derive(Debug, Drop)]
pub struct Migrator {
    chain: Chain,
    target: u32,
}

impl Model for Migrator {
    ghost use Rattle.mig_lift.specs.Setting.{Setting, IsInReach};
    ghost use Rattle.mig_lift.specs.Code.{coded_setting};

    ghost Value = { Setting };

    ghost coded = { coded_setting };

    ghost view = { λ a. record { chain = a.chain; target = a.target } };

    ghost invariant = { λ a. IsInReach (record { chain = a.chain; target = a.target }) };
}

impl Migrator {
    /// A migrator to the target, which is a version of this project's range. The refusals are looked for in the order of `NewFault`.
    pub fn new(alloc: Global, chain: Chain, target: u32) -> Result<Migrator, NewFault>
        requires { target ≤ last_version }
        ensures made { IfOk result (λ m. m ≡ record { chain = chain; target = target }) }
        ensures reach { IfOk result IsInReach }
        ensures fault { IfErr result (λ e. IsNoSetting e chain target) }
    {
        if !is_small(alloc, &chain)? {
            return Err(NewFault::NotYet);
        }
        let first = chain.first();
        if target < first {
            return Err(NewFault::TargetBelow(first));
        }
        Ok(Migrator { chain, target })
    }

    /// The form of the chain's saves.
    pub fn form(&self) -> Form
        ensures { result ≡ self.now.chain.form }
    {
        self.chain.form()
    }

    /// The target of every lift.
    pub fn target(&self) -> u32
        ensures { result ≡ self.now.target }
    {
        self.target
    }

    /// Lifts a save: its canonical text with the target's version, and the version before. Each refusal is the first cause that holds.
    pub fn lift<L: Ledger>(
        &self,
        alloc: Global,
        bytes: &[u8],
        steps: &mut Steps<L>,
    ) -> Result<(Vec<u8>, u32), LiftFault>
        ensures lifts { Lifts result (lift self.now.chain self.now.target bytes.now) }
        ensures count { steps.new ≡ steps.old }
    {
        match self.form() {
            Form::Nbt => lift_nbt(alloc, &self.chain, self.target, bytes, steps),
            Form::Json => lift_json(alloc, &self.chain, self.target, bytes, steps),
        }
    }
}
