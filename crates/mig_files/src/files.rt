//! Folders of named bytes.
ghost use Rattle.std.specs.Prelude.{◌≡◌, ◌≤◌, length, map, Option, IfSome, IfOk, IsErrOf, string_bytes};
ghost use Rattle.mig_files.specs.Held.{Held, Lists, Counts};
ghost use Rattle.mig_files.specs.Told.{HasCause, IsNoReading, AnswersRead, Writes};

use crate::{FileFault, FileResult};
use std::alloc::Global;

/// Files in folders. An implementation may tell all that it holds, or nothing.
pub trait Files {
    /// What is held under each key, where it is told.
    ghost held: { Self → Option Held };

    /// How often calls have failed, and how often a read found no file, or one over its limit.
    ghost counts: { Self → Counts };

    /// The names in a folder, each once, in any order.
    fn list(&mut self, alloc: Global, folder: &str) -> FileResult<Vec<String>>
        ensures names { IfSome (held self.old) (λ m. IfOk result (λ names.
            Lists m folder.now (map string_bytes names.items))) }
        ensures same { held self.new ≡ held self.old }
        ensures no_reading { IsNoReading result }
        ensures cause { HasCause (counts self.old) (counts self.new) result };

    /// The bytes of a file, where they are at most `limit`.
    fn read(&mut self, alloc: Global, folder: &str, name: &str, limit: usize) -> FileResult<Vec<u8>>
        ensures bytes { IfSome (held self.old) (λ m. AnswersRead (m (folder.now, name.now)) limit result) }
        ensures limit { IfOk result (λ bytes. length bytes.items ≤ limit) }
        ensures same { held self.new ≡ held self.old }
        ensures absent { IsErrOf result FileFault.Absent → IfSome (held self.old) (λ _. (counts self.new).faults
            ≡ (counts self.old).faults) }
        ensures cause { HasCause (counts self.old) (counts self.new) result };

    /// Sets the bytes of a file, which need not be there yet. After `Failed` that file is as it may be.
    fn write(&mut self, alloc: Global, folder: &str, name: &str, bytes: &[u8]) -> FileResult<()>
        ensures written { IfSome (held self.old) (λ m.
            Writes m (folder.now, name.now) bytes.now (held self.new) result) }
        ensures no_reading { IsNoReading result }
        ensures cause { HasCause (counts self.old) (counts self.new) result };
}
