//! One save: read, lifted, written, and its line put.
ghost use Rattle.std.specs.Prelude.{◌≡◌, Some, None, IfSome, IfOk, IsErrOf, IsSome};
ghost use Rattle.mig_files.specs.Held.{Held, Rose, NoneFell};
ghost use Rattle.mig_run.specs.View.{found, Judges, Keeps, job_at};
ghost use Rattle.mig_run.specs.Folder.{OneSave, outcome};
ghost use Rattle.mig_run.specs.Causes.{HasCauses, PutsSaves, is_refusal};

use crate::lines::put_save_line;
use crate::stop::Stop;
use crate::words::Folders;
use mig_files::{FileFault, Files, Sink};
use mig_lift::{LiftFault, Migrator, VersionKind};
use mig_model::MOST_SAVE_BYTES;
use mig_tree::{Place, Steps};
use std::alloc::Global;
use std::sync::ledger::Ledger;

/// What a listed save is found to be: lifted from a version, or why it is refused.
#[derive(Drop)]
pub enum Verdict {
    Lifted(Vec<u8>, u32),
    Absent,
    Bytes,
    Version(VersionKind),
    Schema(Place),
}

// What a save is found to be.
fn judge<F: Files, L: Ledger>(
    alloc: Global,
    migrator: &Migrator,
    from: &str,
    name: &str,
    files: &mut F,
    steps: &mut Steps<L>,
) -> Result<Verdict, Stop>
    ensures told { IfSome (F.held files.old) (λ m.
        Judges (m (from.now, name.now)) (outcome migrator.now.chain migrator.now.target) result) }
    ensures same { F.held files.new ≡ F.held files.old }
    ensures counts { NoneFell (F.counts files.old) (F.counts files.new) }
    ensures files { IsErrOf result Stop.Files → Rose (F.counts files.old).faults (F.counts files.new).faults }
    ensures report { IsErrOf result Stop.Report → ⊥ }
    ensures absent { IfOk result (λ v. found v ≡ None →
        Rose (F.counts files.old).absent (F.counts files.new).absent) }
    ensures steps { steps.new ≡ steps.old }
{
    let bytes = match files.read(alloc, from, name, MOST_SAVE_BYTES) {
        Ok(bytes) => bytes,
        Err(FileFault::Failed) => return Err(Stop::Files),
        Err(FileFault::Absent) => return Ok(Verdict::Absent),
        Err(FileFault::Long) => return Ok(Verdict::Bytes),
        Err(FileFault::Memory) => return Err(Stop::Memory),
    };
    match migrator.lift(alloc, &bytes, steps) {
        Ok((lifted, version)) => Ok(Verdict::Lifted(lifted, version)),
        Err(LiftFault::Bytes) => Ok(Verdict::Bytes),
        Err(LiftFault::Version(kind)) => Ok(Verdict::Version(kind)),
        Err(LiftFault::Schema(place)) => Ok(Verdict::Schema(place)),
        Err(LiftFault::Memory) => Err(Stop::Memory),
    }
}

// Writes what was lifted.
fn keep<F: Files>(
    alloc: Global,
    to: &str,
    name: &str,
    verdict: &Verdict,
    files: &mut F,
) -> Result<(), Stop>
    ensures told { IfSome (F.held files.old) (λ m.
        Keeps m (to.now, name.now) (found verdict.now) (F.held files.new) result) }
    ensures counts { NoneFell (F.counts files.old) (F.counts files.new) }
    ensures files { IsErrOf result Stop.Files → Rose (F.counts files.old).faults (F.counts files.new).faults }
    ensures report { IsErrOf result Stop.Report → ⊥ }
{
    let Verdict::Lifted(lifted, _) = verdict else {
        return Ok(());
    };
    match files.write(alloc, to, name, lifted) {
        Ok(()) => Ok(()),
        Err(FileFault::Memory) => Err(Stop::Memory),
        Err(_) => Err(Stop::Files),
    }
}

// Whether the save isn't lifted.
fn is_refusal(verdict: &Verdict) -> bool
    ensures { result ≡ is_refusal (found verdict.now) }
{
    !matches!(verdict, Verdict::Lifted(_, _))
}

/// Lifts one save of a folder. It answers whether the save was refused.
pub fn lift_save<F: Files, S: Sink, L: Ledger>(
    alloc: Global,
    migrator: &Migrator,
    folders: Folders<'_>,
    name: &str,
    files: &mut F,
    report: &mut S,
    steps: &mut Steps<L>,
) -> Result<bool, Stop>
    ensures told { (held now : Held) → IsSome (held (folders.entry.from.now, name.now)) →
        F.held files.old ≡ Some now →
        now (folders.entry.from.now, name.now) ≡ held (folders.entry.from.now, name.now) →
        OneSave (job_at migrator.now folders.entry.from.now folders.entry.to.now held) name.now now (F.held files.new)
        (S.written report.old) (S.written report.new) result }
    ensures lines { PutsSaves migrator.now.target (F.counts files.old) (F.counts files.new) (S.written report.old)
        (S.written report.new) result }
    ensures causes { HasCauses (F.counts files.old) (F.counts files.new)
        (S.faults report.old) (S.faults report.new) result }
    ensures steps { steps.new ≡ steps.old }
{
    let verdict = judge(alloc, migrator, folders.from, name, files, steps)?;
    keep(alloc, folders.to, name, &verdict, files)?;
    put_save_line(alloc, migrator.target(), name, &verdict, report)?;
    Ok(is_refusal(&verdict))
}
