//! Real folders. They tell nothing of what they hold.
ghost use Rattle.std.specs.Prelude.{◌≡◌, IfErr};

use crate::failure::describe;
use crate::listing::files_in;
use crate::replacing::replace;
use crate::{FileFault, FileResult, Files};
use std::alloc::Global;
use std::fs::File;
use std::io::{ErrorKind, Read};
use std::marker::Model;
use std::path::{Path, PathBuf};
use std::{fs, io};

/// Files in the host's folders, where a name is joined to its folder as a path. They tell no contents, and
/// contracts see them as their counts.
///
/// `list` answers what are files, links followed, and links that lead nowhere. `write` leaves a file as it was
/// or whole and new, also where the process ends in it; then a file `moxaldiz-N.new` may stay beside it.
#[derive(Drop)]
pub struct HostFiles<R: fs::Files + Alloc + Clone + Drop> {
    runtime: R,
    faults: u64,
    absent: u64,
    long: u64,
    number: u64,
    failure: Option<String>,
}

impl<R: fs::Files + Alloc + Clone + Drop> Model for HostFiles<R> {
    ghost use Rattle.mig_files.specs.Held.{Counts};

    ghost Value = { Counts };

    ghost view = { λ f. record { faults = f.faults; absent = f.absent; long = f.long } };
}

impl<R: fs::Files + Alloc + Clone + Drop> HostFiles<R> {
    /// The files that this runtime reaches.
    pub fn new(runtime: R) -> Self
        ensures { result ≡ record { faults = 0; absent = 0; long = 0 } }
    {
        HostFiles {
            runtime,
            faults: 0,
            absent: 0,
            long: 0,
            number: 0,
            failure: None,
        }
    }

    /// What was the last call that answered `Failed`, in one line: the call, the path, and the host's word for
    /// the error, as `list in: No such file or directory`.
    pub fn last_failure(&self) -> Option<&str> {
        match &self.failure {
            Some(line) => Some(line.as_str()),
            None => None,
        }
    }

    // Keeps what is said of a call that failed.
    fn keep(&mut self, alloc: Global, call: &str, path: &str, error: &io::Error)
        ensures { self.new ≡ self.old }
    {
        self.failure = describe(alloc, call, path, error).ok();
    }
}

// The path of a file.
fn path_of(alloc: Global, folder: &str, name: &str) -> Result<PathBuf, FileFault>
    ensures { IfErr result (λ e. e ≡ FileFault.Memory) }
{
    Ok(Path::new(folder).join(alloc, name)?)
}

// The bytes of a file, or where these are more than the limit, one more than the limit. What isn't a file isn't
// opened: to open a pipe would wait for its other end.
fn bytes_of<R: fs::Files>(
    runtime: &R,
    alloc: Global,
    path: Path<'_>,
    limit: usize,
) -> io::Result<Vec<u8>> {
    if !fs::metadata(runtime, path)?.is_file() {
        return Err(io::Error::other("Not a file"));
    }
    let file = File::open(runtime, path)?;
    let mut bytes = Vec::new(alloc);
    file.take((limit as u64).saturating_add(1))
        .read_to_end(&mut bytes)?;
    Ok(bytes)
}

// Whether this error says that nothing is there: also of a link that leads nowhere.
fn is_absence(error: &io::Error) -> bool {
    matches!(
        error.kind(),
        ErrorKind::NotFound | ErrorKind::NotADirectory | ErrorKind::FilesystemLoop
    )
}

// Makes the folder where it isn't there, and sets the file.
fn put_file<R: fs::Files + Drop>(
    runtime: &R,
    alloc: Global,
    folder: &str,
    path: Path<'_>,
    number: &mut u64,
    bytes: &[u8],
) -> io::Result<()> {
    if !fs::exists(runtime, folder)? {
        fs::create_dir_all(runtime, folder)?;
    }
    replace(runtime, alloc, path, number, bytes)
}

impl<R: fs::Files + Alloc + Clone + Drop> Files for HostFiles<R> {
    ghost use Rattle.std.specs.Prelude.{◌≤◌, None, IfOk, length};
    ghost use Rattle.mig_files.specs.Told.{HasCause, IsNoReading, Tallies};

    ghost held = { λ f. None };

    ghost counts = { λ f. f };

    fn list(&mut self, alloc: Global, folder: &str) -> FileResult<Vec<String>>
        ensures no_reading { IsNoReading result }
        ensures cause { HasCause self.old self.new result }
        ensures tallied { Tallies self.old self.new result }
    {
        match files_in(&self.runtime, alloc, folder) {
            Ok(names) => Ok(names),
            Err(error) if error.kind() == ErrorKind::OutOfMemory => Err(FileFault::Memory),
            Err(error) => {
                self.keep(alloc, "list", folder, &error);
                self.faults = self.faults.saturating_add(1);
                Err(FileFault::Failed)
            }
        }
    }

    fn read(&mut self, alloc: Global, folder: &str, name: &str, limit: usize) -> FileResult<Vec<u8>>
        ensures limit { IfOk result (λ bytes. length bytes.items ≤ limit) }
        ensures cause { HasCause self.old self.new result }
        ensures tallied { Tallies self.old self.new result }
    {
        let path = path_of(alloc, folder, name)?;
        match bytes_of(&self.runtime, alloc, path.as_path(), limit) {
            Ok(bytes) => {
                if bytes.len() > limit {
                    self.long = self.long.saturating_add(1);
                    return Err(FileFault::Long);
                }
                Ok(bytes)
            }
            Err(error) if error.kind() == ErrorKind::OutOfMemory => Err(FileFault::Memory),
            Err(error) if is_absence(&error) => {
                self.absent = self.absent.saturating_add(1);
                Err(FileFault::Absent)
            }
            Err(error) => {
                self.keep(alloc, "read", path.as_path().as_str(), &error);
                self.faults = self.faults.saturating_add(1);
                Err(FileFault::Failed)
            }
        }
    }

    fn write(&mut self, alloc: Global, folder: &str, name: &str, bytes: &[u8]) -> FileResult<()>
        ensures no_reading { IsNoReading result }
        ensures cause { HasCause self.old self.new result }
        ensures tallied { Tallies self.old self.new result }
    {
        let path = path_of(alloc, folder, name)?;
        let at = path.as_path();
        match put_file(&self.runtime, alloc, folder, at, &mut self.number, bytes) {
            Ok(()) => Ok(()),
            Err(error) if error.kind() == ErrorKind::OutOfMemory => Err(FileFault::Memory),
            Err(error) => {
                self.keep(alloc, "write", at.as_str(), &error);
                self.faults = self.faults.saturating_add(1);
                Err(FileFault::Failed)
            }
        }
    }
}
