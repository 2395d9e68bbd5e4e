//! The top call.
ghost use Rattle.std.specs.Prelude.{◌≡◌, ◌≤◌, None, Some, IfSome, map, string_bytes};
ghost use Rattle.mig_files.specs.Held.{Held, Rose, NoneFell};
ghost use Rattle.mig_run.specs.Lines.{usage_line};
ghost use Rattle.mig_run.specs.Command.{Asked, Asks, AsksNothing, Runs, RunsAsked, Outcome, Says, asked};
ghost use Rattle.mig_run.specs.Causes.{HasCauses, PutsCommand};

use crate::command::run_command;
use crate::lines::refuse;
use crate::stop::{Ending, Stop};
use crate::words::request_of;
use mig_files::{Files, Sink};
use mig_tree::Steps;
use std::alloc::Global;
use std::sync::ledger::Ledger;

/// How a run of the words ends, said of what is read of them.
fn answer<F: Files, S: Sink, L: Ledger>(
    alloc: Global,
    words: &[String],
    files: &mut F,
    report: &mut S,
    steps: &mut Steps<L>,
) -> Result<Ending, Stop>
    ensures told { (held : Held) → F.held files.old ≡ Some held →
        RunsAsked (asked (map string_bytes words.now)) held (F.held files.new)
        (S.written report.old) (S.written report.new) result }
    ensures usage { asked (map string_bytes words.now) ≡ None →
        Says usage_line (S.written report.old) (S.written report.new) result
        × (F.held files.new ≡ F.held files.old) × (F.counts files.new ≡ F.counts files.old) }
    ensures lines { IfSome (asked (map string_bytes words.now)) (λ a.
        PutsCommand a (F.counts files.old) (F.counts files.new)
        (S.written report.old) (S.written report.new) result) }
    ensures causes { HasCauses (F.counts files.old) (F.counts files.new)
        (S.faults report.old) (S.faults report.new) result }
    ensures steps { steps.new ≡ steps.old }
{
    match request_of(words) {
        Some(request) => run_command(alloc, request, files, report, steps),
        None => refuse(b"usage\n", report),
    }
}

/// How a run of the words ends, said of what they ask for.
fn ending_of_words<F: Files, S: Sink, L: Ledger>(
    alloc: Global,
    words: &[String],
    files: &mut F,
    report: &mut S,
    steps: &mut Steps<L>,
) -> Result<Ending, Stop>
    ensures told { (held : Held) → F.held files.old ≡ Some held →
        Runs (map string_bytes words.now) held (F.held files.new)
        (S.written report.old) (S.written report.new) result }
    ensures usage { AsksNothing (map string_bytes words.now) →
        Says usage_line (S.written report.old) (S.written report.new) result
        × (F.held files.new ≡ F.held files.old) × (F.counts files.new ≡ F.counts files.old) }
    ensures lines { (a : Asked) → Asks (map string_bytes words.now) a →
        PutsCommand a (F.counts files.old) (F.counts files.new)
        (S.written report.old) (S.written report.new) result }
    ensures causes { HasCauses (F.counts files.old) (F.counts files.new)
        (S.faults report.old) (S.faults report.new) result }
    ensures steps { steps.new ≡ steps.old }
{
    answer(alloc, words, files, report, steps)
}

/// Runs the words of a command line, without the program's name, and answers the exit status: 0 where all
/// saves were lifted, 1 where one was refused, 2 where a line says why nothing was run, 3 where a call of the
/// files failed, 4 where one of the report did, and 5 for want of memory.
pub fn run<F: Files, S: Sink, L: Ledger>(
    alloc: Global,
    words: &[String],
    files: &mut F,
    report: &mut S,
    steps: &mut Steps<L>,
) -> u8
    ensures told { (held : Held) → F.held files.old ≡ Some held →
        Outcome (Runs (map string_bytes words.now) held (F.held files.new)
        (S.written report.old) (S.written report.new)) result }
    ensures usage { AsksNothing (map string_bytes words.now) →
        Outcome (Says usage_line (S.written report.old) (S.written report.new)) result
        × (F.held files.new ≡ F.held files.old) × (F.counts files.new ≡ F.counts files.old) }
    ensures lines { (a : Asked) → Asks (map string_bytes words.now) a →
        Outcome (PutsCommand a (F.counts files.old) (F.counts files.new)
        (S.written report.old) (S.written report.new)) result }
    ensures status { result ≤ 5 }
    ensures files { result ≡ 3 → Rose (F.counts files.old).faults (F.counts files.new).faults }
    ensures report { result ≡ 4 → Rose (S.faults report.old) (S.faults report.new) }
    ensures counts { NoneFell (F.counts files.old) (F.counts files.new) }
    ensures later { S.faults report.old ≤ S.faults report.new }
    ensures steps { steps.new ≡ steps.old }
{
    match ending_of_words(alloc, words, files, report, steps) {
        Ok(Ending::Done) => 0,
        Ok(Ending::SomeRefused) => 1,
        Ok(Ending::NotRun) => 2,
        Err(Stop::Files) => 3,
        Err(Stop::Report) => 4,
        Err(Stop::Memory) => 5,
    }
}
