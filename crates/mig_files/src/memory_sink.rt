//! A sink in memory, which tells all its bytes.
ghost use Rattle.std.specs.Prelude.{◌≡◌, [], ◌∷◌, ◌++◌, OnOk, OnErr};

use crate::failing::lists;
use crate::{Sink, SinkFault};
use mig_model::Memory;
use std::alloc::Global;
use std::marker::Model;

/// A sink in memory, of which chosen puts fail. Contracts see it as its bytes, its number of puts,
/// the numbers of those that are to fail, and its count of faults.
#[derive(Drop)]
pub struct MemorySink {
    bytes: Vec<u8>,
    calls: u64,
    failing: Vec<u64>,
    faults: u64,
}

impl Model for MemorySink {
    ghost use Rattle.mig_files.specs.Numbered.{Sunk};

    ghost Value = { Sunk };

    ghost view = { λ s. record {
      bytes = s.bytes.items;
      calls = s.calls;
      failing = s.failing.items;
      faults = s.faults;
    } };
}

impl MemorySink {
    /// A sink with no bytes, of which no put is to fail.
    pub fn new(alloc: Global) -> MemorySink
        ensures { result ≡ record { bytes = []; calls = 0; failing = []; faults = 0 } }
    {
        MemorySink {
            bytes: Vec::new(alloc),
            calls: 0,
            failing: Vec::new(alloc),
            faults: 0,
        }
    }

    /// The bytes written so far.
    pub fn bytes(&self) -> &[u8]
        ensures { result.now ≡ self.now.bytes }
    {
        self.bytes.as_slice()
    }

    /// Lists the number of a put that is to fail. Puts are numbered from 1.
    pub fn fail_at(&mut self, call: u64) -> Result<(), Memory>
        ensures ok { OnOk result (self.new ≡ record self.old { failing = self.old.failing ++ call ∷ [] }) }
        ensures err { OnErr result (self.new ≡ self.old) }
    {
        self.failing.push(call)?;
        Ok(())
    }
}

impl Sink for MemorySink {
    ghost use Rattle.std.specs.Prelude.{Some};
    ghost use Rattle.mig_files.specs.Numbered.{PutsNumbered};
    ghost use Rattle.mig_files.specs.Told.{PutHasCause, Puts};

    ghost written = { λ s. Some s.bytes };

    ghost faults = { λ s. s.faults };

    // Beyond the trait's clauses: it fails exactly where its number is listed, and leaves the first half then.
    fn put(&mut self, bytes: &[u8]) -> Result<(), SinkFault>
        ensures written { Puts self.old.bytes bytes.now (Some self.new.bytes) result }
        ensures cause { PutHasCause self.old.faults self.new.faults result }
        ensures numbered { PutsNumbered self.old bytes.now self.new result }
    {
        let call = self.calls.saturating_add(1);
        if lists(&self.failing, call) {
            let half = &bytes[..bytes.len() / 2];
            self.bytes.extend_from_slice(half)?;
            self.calls = call;
            self.faults = self.faults.saturating_add(1);
            return Err(SinkFault::Failed);
        }
        self.bytes.extend_from_slice(bytes)?;
        self.calls = call;
        Ok(())
    }
}
