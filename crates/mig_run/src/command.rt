//! A command: its chain first, and then what is done by it.
ghost use Rattle.std.specs.Prelude.{◌≡◌, ℕ, List, [], ◌∷◌, Some};
ghost use Rattle.mig_files.specs.Held.{Held};
ghost use Rattle.mig_run.specs.Chains.{IsTheChain};
ghost use Rattle.mig_run.specs.Command.{CommandRuns, ChainRuns, chain_of};
ghost use Rattle.mig_run.specs.Causes.{HasCauses, PutsCommand};
ghost use Rattle.mig_run.specs.View.{asked_by, IsBounded};

use crate::chain::{Reading, read_chain};
use crate::check_command::check;
use crate::lift_command::lift_by;
use crate::lines::refuse;
use crate::stop::{Ending, Stop};
use crate::words::Request;
use mig_files::{Files, Sink};
use mig_rule::Chain;
use mig_tree::Steps;
use std::alloc::Global;
use std::sync::ledger::Ledger;

/// The file of the chain.
fn chain_name<'a>(request: Request<'a>) -> &'a str
    ensures { result.now ≡ chain_of (asked_by request.entry) }
{
    match request {
        Request::Lift(lift) => lift.chain,
        Request::Check(chain) => chain,
    }
}

/// Does by the chain what is asked for.
fn run_by<F: Files, S: Sink, L: Ledger>(
    alloc: Global,
    chain: Chain,
    request: Request<'_>,
    files: &mut F,
    report: &mut S,
    steps: &mut Steps<L>,
) -> Result<Ending, Stop>
    requires { IsBounded request }
    ensures told { (held : Held) → F.held files.old ≡ Some held →
        ChainRuns (asked_by request.entry) held chain (F.held files.new)
        (S.written report.old) (S.written report.new) result }
    ensures lines { (text : List ℕ) → IsTheChain text chain →
        PutsCommand (asked_by request.entry) (F.counts files.old) (F.counts files.new)
        (S.written report.old) (S.written report.new) result }
    ensures causes { HasCauses (F.counts files.old) (F.counts files.new)
        (S.faults report.old) (S.faults report.new) result }
    ensures steps { steps.new ≡ steps.old }
{
    match request {
        Request::Lift(lift) => lift_by(alloc, chain, lift, files, report, steps),
        Request::Check(_) => check(alloc, &chain, report),
    }
}

/// Runs what is asked for, or puts the line that says why there is no chain.
pub fn run_command<F: Files, S: Sink, L: Ledger>(
    alloc: Global,
    request: Request<'_>,
    files: &mut F,
    report: &mut S,
    steps: &mut Steps<L>,
) -> Result<Ending, Stop>
    requires { IsBounded request }
    ensures told { (held : Held) → F.held files.old ≡ Some held →
        CommandRuns (asked_by request.entry) held (held (46 ∷ [], chain_of (asked_by request.entry)))
        (F.held files.new) (S.written report.old) (S.written report.new) result }
    ensures lines { PutsCommand (asked_by request.entry) (F.counts files.old) (F.counts files.new)
        (S.written report.old) (S.written report.new) result }
    ensures causes { HasCauses (F.counts files.old) (F.counts files.new)
        (S.faults report.old) (S.faults report.new) result }
    ensures steps { steps.new ≡ steps.old }
{
    let read = match read_chain(alloc, chain_name(request), files) {
        Ok(read) => read,
        Err(stop) => return Err(stop),
    };
    match read {
        Reading::Line(line) => refuse(&line, report),
        Reading::Chain(chain) => run_by(alloc, chain, request, files, report, steps),
    }
}
