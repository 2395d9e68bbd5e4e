//! The command `lift`: the chain first, then the folder.
ghost use Rattle.std.specs.Prelude.{◌≡◌, ◌≤◌, ℕ, List, Some, Ok, IfOk, IfErr};
ghost use Rattle.mig_files.specs.Held.{Held};
ghost use Rattle.mig_model.specs.Version.{last_version};
ghost use Rattle.mig_run.specs.Chains.{IsTheChain};
ghost use Rattle.mig_run.specs.Command.{ChainRuns, lift, ended};
ghost use Rattle.mig_run.specs.Causes.{HasCauses, PutsCommand};
ghost use Rattle.mig_run.specs.View.{lifting_by, IsDue};

use crate::folder::lift_folder;
use crate::lines::{below_line, line_of, refuse};
use crate::stop::{Ending, Stop};
use crate::words::LiftRequest;
use mig_files::{Files, Sink};
use mig_lift::{Migrator, NewFault};
use mig_rule::Chain;
use mig_tree::Steps;
use std::alloc::Global;
use std::sync::ledger::Ledger;

/// What is due by a chain: the line that says why nothing is lifted, or the lifting.
#[derive(Drop)]
pub enum Due {
    Line(Vec<u8>),
    Lift(Migrator),
}

/// What is due by the chain.
fn due_of(alloc: Global, chain: Chain, target: u32) -> Result<Due, Stop>
    requires { target ≤ last_version }
    ensures due { IfOk result (IsDue chain target) }
    ensures memory { IfErr result (λ e. e ≡ Stop.Memory) }
{
    match Migrator::new(alloc, chain, target) {
        Ok(migrator) => Ok(Due::Lift(migrator)),
        Err(NewFault::NotYet) => Ok(Due::Line(line_of(alloc, b"chain: not yet")?)),
        Err(NewFault::TargetBelow(first)) => Ok(Due::Line(below_line(alloc, first)?)),
        Err(NewFault::Memory) => Err(Stop::Memory),
    }
}

/// How a folder ends.
fn ending_of(refused: bool) -> Ending
    ensures { Ok result ≡ ended (Ok refused) }
{
    if refused {
        Ending::SomeRefused
    } else {
        Ending::Done
    }
}

/// Lifts the folder of a request by the chain, or puts the line that says why not.
pub fn lift_by<F: Files, S: Sink, L: Ledger>(
    alloc: Global,
    chain: Chain,
    request: LiftRequest<'_>,
    files: &mut F,
    report: &mut S,
    steps: &mut Steps<L>,
) -> Result<Ending, Stop>
    requires { request.target ≤ last_version }
    ensures told { (held : Held) → F.held files.old ≡ Some held →
        ChainRuns (lift (lifting_by request.entry)) held chain (F.held files.new)
        (S.written report.old) (S.written report.new) result }
    ensures lines { (text : List ℕ) → IsTheChain text chain →
        PutsCommand (lift (lifting_by request.entry)) (F.counts files.old) (F.counts files.new)
        (S.written report.old) (S.written report.new) result }
    ensures causes { HasCauses (F.counts files.old) (F.counts files.new)
        (S.faults report.old) (S.faults report.new) result }
    ensures steps { steps.new ≡ steps.old }
{
    let due = match due_of(alloc, chain, request.target) {
        Ok(due) => due,
        Err(stop) => return Err(stop),
    };
    match due {
        Due::Line(line) => refuse(&line, report),
        Due::Lift(migrator) => {
            let refused = lift_folder(alloc, &migrator, request.folders, files, report, steps)?;
            Ok(ending_of(refused))
        }
    }
}
