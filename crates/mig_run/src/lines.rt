//! The lines of the report.
ghost use Rattle.std.specs.Prelude.{◌≡◌, ◌≤◌, ◌++◌, [], ◌∷◌, OnOk, IfOk, IsErrOf, decimal, codes};
ghost use Rattle.mig_files.specs.Held.{Rose};
ghost use Rattle.mig_run.specs.Lines as texts;
ghost use Rattle.mig_run.specs.Lines.{kind_line, tells, listed_line};
ghost use Rattle.mig_run.specs.Command.{Puts, Says};
ghost use Rattle.mig_run.specs.View.{found, Told};
ghost use Rattle.mig_tree.specs.Place.{place_text};

use crate::save::Verdict;
use crate::stop::{Ending, Stop};
use mig_files::{Sink, SinkFault};
use mig_lift::VersionKind;
use mig_tree::{Memory, Place, spell};
use std::alloc::{AllocError, Global};

/// A line of these words.
pub fn line_of(alloc: Global, text: &[u8]) -> Result<Vec<u8>, AllocError>
    ensures { IfOk result (λ line. line.items ≡ text.now ++ 10 ∷ []) }
{
    let mut line = text.to_vec(alloc)?;
    line.push(b'\n')?;
    Ok(line)
}

/// The line that says that the target is below the first schema.
pub fn below_line(alloc: Global, first: u32) -> Result<Vec<u8>, AllocError>
    ensures { IfOk result (λ line. line.items ≡ texts.below_line first) }
{
    let mut line = b"target below ".to_vec(alloc)?;
    let digits = first.to_string(alloc)?;
    line.extend_from_slice(digits.as_bytes())?;
    line.push(b'\n')?;
    Ok(line)
}

// Puts a count to the line.
fn push_count(alloc: Global, line: &mut Vec<u8>, count: usize) -> Result<(), AllocError>
    ensures { OnOk result (line.new.items ≡ line.old.items ++ decimal count) }
{
    let digits = count.to_string(alloc)?;
    line.extend_from_slice(digits.as_bytes())?;
    Ok(())
}

/// The line that names the first declaration that isn't in the grammar.
pub fn declaration_line(alloc: Global, number: usize) -> Result<Vec<u8>, AllocError>
    ensures { IfOk result (λ line. line.items ≡ texts.declaration_line number) }
{
    let mut line = b"chain: declaration ".to_vec(alloc)?;
    push_count(alloc, &mut line, number)?;
    line.push(b'\n')?;
    Ok(line)
}

/// The line of a fault at a declaration.
pub fn fault_line(alloc: Global, number: u8, declaration: usize) -> Result<Vec<u8>, AllocError>
    ensures { IfOk result (λ line. line.items ≡ texts.fault_line number declaration) }
{
    let mut line = b"chain: fault ".to_vec(alloc)?;
    push_count(alloc, &mut line, usize::from(number))?;
    line.extend_from_slice(b" at ")?;
    push_count(alloc, &mut line, declaration)?;
    line.push(b'\n')?;
    Ok(line)
}

/// The line that says how many schemas and fixes an accepted chain has.
pub fn accepted_line(alloc: Global, schemas: usize, fixes: usize) -> Result<Vec<u8>, AllocError>
    ensures { IfOk result (λ line. line.items ≡ texts.accepted_line schemas fixes) }
{
    let mut line = b"accepted ".to_vec(alloc)?;
    push_count(alloc, &mut line, schemas)?;
    line.extend_from_slice(b" schemas ")?;
    push_count(alloc, &mut line, fixes)?;
    line.extend_from_slice(b" fixes\n")?;
    Ok(line)
}

// Puts a number to the line.
fn push_number(alloc: Global, line: &mut Vec<u8>, number: u32) -> Result<(), AllocError>
    ensures { OnOk result (line.new.items ≡ line.old.items ++ decimal number) }
{
    let digits = number.to_string(alloc)?;
    line.extend_from_slice(digits.as_bytes())?;
    Ok(())
}

// Puts what is wrong with a version to the line.
fn push_kind(alloc: Global, line: &mut Vec<u8>, kind: VersionKind) -> Result<(), AllocError>
    ensures { OnOk result (line.new.items ≡ line.old.items ++ kind_line kind) }
{
    match kind {
        VersionKind::Absent => line.extend_from_slice(b"absent"),
        VersionKind::Wrong => line.extend_from_slice(b"wrong"),
        VersionKind::Below(version) => {
            line.extend_from_slice(b"below ")?;
            push_number(alloc, line, version)
        }
        VersionKind::Above(version) => {
            line.extend_from_slice(b"above ")?;
            push_number(alloc, line, version)
        }
    }
}

// Puts a place to the line.
fn push_place(alloc: Global, line: &mut Vec<u8>, place: &Place) -> Result<(), Memory>
    ensures { OnOk result (line.new.items ≡ line.old.items ++ place_text place.now) }
{
    let text = place.text(alloc)?;
    line.extend_from_slice(&text)?;
    Ok(())
}

// Puts the version before and the target to the line.
fn push_versions(
    alloc: Global,
    line: &mut Vec<u8>,
    version: u32,
    target: u32,
) -> Result<(), AllocError>
    ensures { OnOk result (line.new.items ≡ line.old.items ++ (decimal version ++ codes " to " ++ decimal target)) }
{
    push_number(alloc, line, version)?;
    line.extend_from_slice(b" to ")?;
    push_number(alloc, line, target)
}

// What a verdict's line says behind the name.
fn push_verdict(
    alloc: Global,
    line: &mut Vec<u8>,
    target: u32,
    verdict: &Verdict,
) -> Result<(), Memory>
    ensures { OnOk result (line.new.items ≡ line.old.items ++ tells target (found verdict.now)) }
{
    match verdict {
        Verdict::Lifted(_, version) => {
            line.extend_from_slice(b": lifted ")?;
            push_versions(alloc, line, *version, target)?;
        }
        Verdict::Absent => line.extend_from_slice(b": refused absent")?,
        Verdict::Bytes => line.extend_from_slice(b": refused bytes")?,
        Verdict::Version(kind) => {
            line.extend_from_slice(b": refused version ")?;
            push_kind(alloc, line, *kind)?;
        }
        Verdict::Schema(place) => {
            line.extend_from_slice(b": refused schema ")?;
            push_place(alloc, line, place)?;
        }
    }
    Ok(())
}

// Puts a line, by one put.
fn put_line<S: Sink>(line: &[u8], report: &mut S) -> Result<(), Stop>
    ensures told { Told line.now (S.written report.old) (S.written report.new) result }
    ensures later { S.faults report.old ≤ S.faults report.new }
    ensures report { IsErrOf result Stop.Report → Rose (S.faults report.old) (S.faults report.new) }
    ensures files { IsErrOf result Stop.Files → ⊥ }
{
    match report.put(line) {
        Ok(()) => Ok(()),
        Err(SinkFault::Failed) => Err(Stop::Report),
        Err(SinkFault::Memory) => Err(Stop::Memory),
    }
}

/// Puts the line that says why a command isn't run.
pub fn refuse<S: Sink>(line: &[u8], report: &mut S) -> Result<Ending, Stop>
    ensures told { Says line.now (S.written report.old) (S.written report.new) result }
    ensures later { S.faults report.old ≤ S.faults report.new }
    ensures report { IsErrOf result Stop.Report → Rose (S.faults report.old) (S.faults report.new) }
    ensures files { IsErrOf result Stop.Files → ⊥ }
{
    put_line(line, report)?;
    Ok(Ending::NotRun)
}

/// Puts the one line of a command that is run.
pub fn answer<S: Sink>(line: &[u8], report: &mut S) -> Result<Ending, Stop>
    ensures told { Puts Ending.Done line.now (S.written report.old) (S.written report.new) result }
    ensures later { S.faults report.old ≤ S.faults report.new }
    ensures report { IsErrOf result Stop.Report → Rose (S.faults report.old) (S.faults report.new) }
    ensures files { IsErrOf result Stop.Files → ⊥ }
{
    put_line(line, report)?;
    Ok(Ending::Done)
}

/// Puts a save's line.
pub fn put_save_line<S: Sink>(
    alloc: Global,
    target: u32,
    name: &str,
    verdict: &Verdict,
    report: &mut S,
) -> Result<(), Stop>
    ensures told { Told (listed_line target (name.now, found verdict.now)) (S.written report.old)
        (S.written report.new) result }
    ensures later { S.faults report.old ≤ S.faults report.new }
    ensures report { IsErrOf result Stop.Report → Rose (S.faults report.old) (S.faults report.new) }
    ensures files { IsErrOf result Stop.Files → ⊥ }
{
    let mut line = spell(alloc, name.as_bytes())?;
    push_verdict(alloc, &mut line, target, verdict)?;
    line.push(b'\n')?;
    put_line(&line, report)
}
