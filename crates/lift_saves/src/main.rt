//! Lifts a folder of game saves to a version of their chain.
#![tactic(auto)]

ghost use Rattle.std.specs.Prelude.{◌≡◌, ◌<◌};

use mig_files::{HostFiles, HostSink, host_word};
use mig_run::run;
use mig_tree::Steps;
use std::alloc::Global;
use std::io::ErrorKind;
use std::marker::Brand;
use std::process::ExitCode;
use std::sync::ledger::{Blank, Ledger};
use std::{env, io};

// The words after the program's name, and none where one isn't UTF-8.
fn words_of(rt: &HostRuntime, alloc: Global) -> io::Result<Vec<String>> {
    let mut words = Vec::new(alloc);
    let args = match env::args(rt) {
        Ok(args) => args,
        Err(error) if error.kind() == ErrorKind::OutOfMemory => return Err(error),
        Err(_) => return Ok(words),
    };
    for word in args.skip(1) {
        words.push(word)?;
    }
    Ok(words)
}

// What is said of a run that stopped for a report that couldn't be put.
fn say_of_report(rt: &HostRuntime, alloc: Global, failure: Option<io::Error>) -> io::Result<()> {
    let Some(error) = failure else {
        return eprintln!(rt; "lift_saves: the report couldn't be written");
    };
    let word = host_word(alloc, &error)?;
    eprintln!(rt; "lift_saves: the report couldn't be written: {word}")
}

// Says on standard error, in one line, why a run with this status stopped.
fn say_why(
    rt: &HostRuntime,
    alloc: Global,
    status: u8,
    failure: Option<&str>,
    of_report: Option<io::Error>,
) -> io::Result<()> {
    match status {
        3 => {
            let line = failure.unwrap_or("a call of the files failed");
            eprintln!(rt; "lift_saves: {line}")
        }
        4 => say_of_report(rt, alloc, of_report),
        5 => eprintln!(rt; "lift_saves: memory ran out"),
        _ => Ok(()),
    }
}

// Runs the words on the host's files and standard output, with a counter of its own, and says why it stopped.
fn run_on_host<L: Ledger>(
    rt: &HostRuntime,
    alloc: Global,
    words: &[String],
    blank: Blank,
) -> io::Result<u8>
    requires name { blank.name ≡ L.name }
    requires parts { blank.parts ≡ L.parts }
    requires some { 0 < L.parts }
{
    let mut files = HostFiles::new(rt.clone()?);
    let mut report = HostSink::new(io::writer(rt));
    let mut steps: Steps<L> = Steps::new(blank);
    let status = run(alloc, words, &mut files, &mut report, &mut steps);
    let _ = say_why(
        rt,
        alloc,
        status,
        files.last_failure(),
        report.last_failure(),
    );
    Ok(status)
}

fn main(rt: HostRuntime) -> ExitCode {
    let alloc = rt.alloc();
    let status = match words_of(&rt, alloc) {
        Ok(words) => run_on_host::<Brand>(&rt, alloc, &words, Blank::new(1)),
        Err(error) => Err(error),
    };
    match status {
        Ok(status) => ExitCode::from(status),
        Err(_) => {
            let _ = say_why(&rt, alloc, 5, None, None);
            ExitCode::from(5)
        }
    }
}
