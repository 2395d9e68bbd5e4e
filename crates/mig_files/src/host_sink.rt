//! Standard output, or any writer. It tells nothing of what was written.
ghost use Rattle.std.specs.Prelude.{◌≡◌};

use crate::{Sink, SinkFault};
use std::io;
use std::io::Write;
use std::marker::Model;

/// A sink over a writer. It tells no bytes, and contracts see it as its count of faults.
#[derive(Drop)]
pub struct HostSink<W: Write + Drop> {
    writer: W,
    faults: u64,
    failure: Option<io::Error>,
}

impl<W: Write + Drop> Model for HostSink<W> {
    ghost use Rattle.std.specs.Prelude.{ℕ};

    ghost Value = { ℕ };

    ghost view = { λ s. s.faults };
}

impl<W: Write + Drop> HostSink<W> {
    /// A sink over this writer, as `io::writer(&rt)` for standard output.
    pub fn new(writer: W) -> Self
        ensures { result ≡ 0 }
    {
        HostSink {
            writer,
            faults: 0,
            failure: None,
        }
    }

    /// Why the last put that answered `Failed` did so.
    pub fn last_failure(&self) -> Option<io::Error> {
        self.failure
    }
}

impl<W: Write + Drop> Sink for HostSink<W> {
    ghost use Rattle.std.specs.Prelude.{None};
    ghost use Rattle.mig_files.specs.Told.{PutHasCause, PutTallies};

    ghost written = { λ s. None };

    ghost faults = { λ s. s };

    // A writer that takes nothing of a piece that isn't empty has failed: `write_all` answers so.
    fn put(&mut self, bytes: &[u8]) -> Result<(), SinkFault>
        ensures cause { PutHasCause self.old self.new result }
        ensures tallied { PutTallies self.old self.new result }
    {
        match self.writer.write_all(bytes) {
            Ok(()) => Ok(()),
            Err(error) => {
                self.failure = Some(error);
                self.faults = self.faults.saturating_add(1);
                Err(SinkFault::Failed)
            }
        }
    }
}
