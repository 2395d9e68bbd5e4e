//! A run of words on files in memory.
ghost use Rattle.std.specs.Prelude.{◌≡◌, ◌<◌};

use mig_files::{MemoryFiles, MemorySink};
use mig_run::run;
use mig_tree::Steps;
use std::alloc::Global;
use std::marker::Brand;
use std::process::Abort;
use std::sync::ledger::{Blank, Ledger};

const MEMORY: &str = "memory for a test";

// Runs the words with a counter of its own.
fn run_counted<L: Ledger>(
    alloc: Global,
    words: &[String],
    files: &mut MemoryFiles,
    report: &mut MemorySink,
    blank: Blank,
) -> u8
    requires name { blank.name ≡ L.name }
    requires parts { blank.parts ≡ L.parts }
    requires some { 0 < L.parts }
{
    let mut steps: Steps<L> = Steps::new(blank);
    run(alloc, words, files, report, &mut steps)
}

/// The status of a run of the words.
pub fn status_of(
    rt: &impl Abort,
    alloc: Global,
    line: &[&str],
    files: &mut MemoryFiles,
    report: &mut MemorySink,
) -> u8 {
    let mut words = Vec::new(alloc);
    for word in line {
        let word = String::from_str(alloc, word).expect(rt, MEMORY);
        words.push(word).expect(rt, MEMORY);
    }
    run_counted::<Brand>(alloc, &words, files, report, Blank::new(1))
}
