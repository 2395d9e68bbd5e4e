//! The saves of a folder, one after another.
ghost use Rattle.std.specs.Prelude.{◌≡◌, Some, IfSome, IfOk, IsErrOf, map, string_bytes};
ghost use Rattle.mig_files.specs.Held.{Held, Rose, NoneFell};
ghost use Rattle.mig_run.specs.Folder.{AllSaves, AreThere, IsSaves, WholeFolder, is_save, ends_in};
ghost use Rattle.mig_run.specs.Causes.{HasCauses, PutsSaves};
ghost use Rattle.mig_run.specs.View.{job_at};

use crate::save::lift_save;
use crate::stop::Stop;
use crate::words::Folders;
use mig_files::{FileFault, Files, Sink};
use mig_lift::Migrator;
use mig_model::Form;
use mig_tree::Steps;
use std::alloc::Global;
use std::sync::ledger::Ledger;

// Whether the name ends so.
fn ends_in(name: &[u8], ending: &[u8]) -> bool
    ensures { result ≡ ends_in name.now ending.now }
{
    &name[name.len().saturating_sub(ending.len())..] == ending
}

// Whether a name ends as the saves of the form do.
fn is_save_name(form: Form, name: &[u8]) -> bool
    ensures { result ≡ is_save form name.now }
{
    match form {
        Form::Nbt => ends_in(name, b".dat") || ends_in(name, b".nbt"),
        Form::Json => ends_in(name, b".json"),
    }
}

// The saves of a folder, in ascending order.
fn list_saves<F: Files>(
    alloc: Global,
    form: Form,
    from: &str,
    files: &mut F,
) -> Result<Vec<String>, Stop>
    ensures told { IfSome (F.held files.old) (λ m. IfOk result (λ names.
        IsSaves form m from.now (map string_bytes names.items))) }
    ensures same { F.held files.new ≡ F.held files.old }
    ensures counts { NoneFell (F.counts files.old) (F.counts files.new) }
    ensures files { IsErrOf result Stop.Files → Rose (F.counts files.old).faults (F.counts files.new).faults }
    ensures report { IsErrOf result Stop.Report → ⊥ }
{
    let listed = match files.list(alloc, from) {
        Ok(listed) => listed,
        Err(FileFault::Memory) => return Err(Stop::Memory),
        Err(_) => return Err(Stop::Files),
    };
    let mut saves = Vec::new(alloc);
    for name in listed {
        if is_save_name(form, name.as_bytes()) {
            saves.push(name)?;
        }
    }
    saves.sort()?;
    Ok(saves)
}

// Lifts these saves, one after another. It answers whether one was refused.
fn lift_all<F: Files, S: Sink, L: Ledger>(
    alloc: Global,
    migrator: &Migrator,
    folders: Folders<'_>,
    names: &[String],
    files: &mut F,
    report: &mut S,
    steps: &mut Steps<L>,
) -> Result<bool, Stop>
    ensures told { (held : Held) → F.held files.old ≡ Some held →
        AreThere held folders.entry.from.now (map string_bytes names.now) →
        AllSaves (job_at migrator.now folders.entry.from.now folders.entry.to.now held) (map string_bytes names.now)
        (F.held files.new) (S.written report.old) (S.written report.new) result }
    ensures lines { PutsSaves migrator.now.target (F.counts files.old) (F.counts files.new) (S.written report.old)
        (S.written report.new) result }
    ensures causes { HasCauses (F.counts files.old) (F.counts files.new)
        (S.faults report.old) (S.faults report.new) result }
    ensures steps { steps.new ≡ steps.old }
{
    let mut refused = false;
    for name in names {
        let one = lift_save(
            alloc,
            migrator,
            folders,
            name.as_str(),
            files,
            report,
            steps,
        )?;
        refused |= one;
    }
    Ok(refused)
}

/// Lifts every save of a folder. It answers whether one was refused.
pub fn lift_folder<F: Files, S: Sink, L: Ledger>(
    alloc: Global,
    migrator: &Migrator,
    folders: Folders<'_>,
    files: &mut F,
    report: &mut S,
    steps: &mut Steps<L>,
) -> Result<bool, Stop>
    ensures told { (held : Held) → F.held files.old ≡ Some held →
        WholeFolder (job_at migrator.now folders.entry.from.now folders.entry.to.now held) (F.held files.new)
        (S.written report.old) (S.written report.new) result }
    ensures lines { PutsSaves migrator.now.target (F.counts files.old) (F.counts files.new) (S.written report.old)
        (S.written report.new) result }
    ensures causes { HasCauses (F.counts files.old) (F.counts files.new)
        (S.faults report.old) (S.faults report.new) result }
    ensures steps { steps.new ≡ steps.old }
{
    let names = list_saves(alloc, migrator.form(), folders.from, files)?;
    lift_all(alloc, migrator, folders, &names, files, report, steps)
}
