//! The command `check`: how many schemas and fixes the chain has.
ghost use Rattle.std.specs.Prelude.{◌≤◌, IsErrOf};
ghost use Rattle.mig_files.specs.Held.{Rose};
ghost use Rattle.mig_run.specs.Chains.{count_line};
ghost use Rattle.mig_run.specs.Command.{Puts};

use crate::lines::{accepted_line, answer};
use crate::stop::{Ending, Stop};
use mig_files::Sink;
use mig_rule::Chain;
use std::alloc::Global;

/// Puts the line of an accepted chain.
pub fn check<S: Sink>(alloc: Global, chain: &Chain, report: &mut S) -> Result<Ending, Stop>
    ensures told { Puts Ending.Done (count_line chain.now) (S.written report.old) (S.written report.new) result }
    ensures later { S.faults report.old ≤ S.faults report.new }
    ensures report { IsErrOf result Stop.Report → Rose (S.faults report.old) (S.faults report.new) }
    ensures files { IsErrOf result Stop.Files → ⊥ }
{
    let line = accepted_line(alloc, chain.schemas(), chain.fixes())?;
    answer(&line, report)
}
