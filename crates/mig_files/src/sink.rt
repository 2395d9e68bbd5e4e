//! A taker of bytes.
ghost use Rattle.std.specs.Prelude.{ℕ, List, Option, IfSome};
ghost use Rattle.mig_files.specs.Told.{PutHasCause, Puts};

use crate::SinkFault;

/// A taker of bytes, one after another. An implementation may tell all that was written, or nothing.
pub trait Sink {
    /// The bytes written so far, where they are told.
    ghost written: { Self → Option (List ℕ) };

    /// How often puts have failed.
    ghost faults: { Self → ℕ };

    /// Writes the bytes at the end. After `Failed` some first part of them may be written.
    fn put(&mut self, bytes: &[u8]) -> Result<(), SinkFault>
        ensures written { IfSome (written self.old) (λ old. Puts old bytes.now (written self.new) result) }
        ensures cause { PutHasCause (faults self.old) (faults self.new) result };
}
