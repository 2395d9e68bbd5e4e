//! Files in memory, which tell all that they hold.
ghost use Rattle.std.specs.Prelude.{◌≡◌, [], ◌∷◌, ◌++◌, Some, OnOk, OnErr, option_map};
ghost use Rattle.mig_files.specs.Held.{assign, next};
ghost use Rattle.mig_files.specs.Numbered.{holds};

use crate::failing::lists;
use crate::{FileFault, FileResult, Files};
use mig_model::Memory;
use std::alloc::{AllocError, Global};
use std::cmp::Ordering;
use std::marker::Model;
use std::mem;

#[derive(Drop)]
struct Entry {
    folder: String,
    name: String,
    bytes: Vec<u8>,
}

/// Files in memory, of which chosen calls fail. Contracts see them as their entries, their number of calls,
/// the numbers of those that are to fail, and their counts.
#[derive(Drop)]
pub struct MemoryFiles {
    entries: Vec<Entry>,
    calls: u64,
    failing: Vec<u64>,
    faults: u64,
    absent: u64,
    long: u64,
}

impl Model for MemoryFiles {
    ghost use Rattle.std.specs.Prelude.{map};
    ghost use Rattle.mig_files.specs.Numbered.{Stored};

    ghost Value = { Stored };

    ghost use Rattle.mig_files.specs.Entries.{entry_of, AreOrdered};

    ghost view = { λ f. record {
      entries = map entry_of f.entries.items;
      calls = f.calls;
      failing = f.failing.items;
      counts = record { faults = f.faults; absent = f.absent; long = f.long };
    } };

    ghost invariant = { λ f. AreOrdered (map entry_of f.entries.items) };
}

impl MemoryFiles {
    /// Files that hold nothing, and of which no call is to fail.
    pub fn new(alloc: Global) -> MemoryFiles
        ensures { result
            ≡ record { entries = []; calls = 0; failing = []; counts = record { faults = 0; absent = 0; long = 0 } } }
    {
        MemoryFiles {
            entries: Vec::new(alloc),
            calls: 0,
            failing: Vec::new(alloc),
            faults: 0,
            absent: 0,
            long: 0,
        }
    }

    /// Sets the bytes of one file. It is no numbered call.
    pub fn put(
        &mut self,
        alloc: Global,
        folder: &str,
        name: &str,
        bytes: &[u8],
    ) -> Result<(), Memory>
        ensures ok { OnOk result (holds self.new ≡ assign (holds self.old) (folder.now, name.now) (Some bytes.now)) }
        ensures rest { OnOk result (record self.new { entries = self.old.entries } ≡ self.old) }
        ensures err { OnErr result (self.new ≡ self.old) }
    {
        Ok(Entry::store(alloc, &mut self.entries, folder, name, bytes)?)
    }

    /// The bytes of a file, and `None` exactly where it isn't there.
    pub fn get(&self, folder: &str, name: &str) -> Option<&[u8]>
        ensures { option_map (λ bytes. bytes.now) result ≡ holds self.now (folder.now, name.now) }
    {
        Entry::bytes_in(&self.entries, folder, name)
    }

    /// Lists the number of a call that is to fail. The calls of `list`, `read` and `write` are numbered together from 1.
    pub fn fail_at(&mut self, call: u64) -> Result<(), Memory>
        ensures ok { OnOk result (self.new ≡ record self.old { failing = self.old.failing ++ call ∷ [] }) }
        ensures err { OnErr result (self.new ≡ self.old) }
    {
        self.failing.push(call)?;
        Ok(())
    }

    // Counts a call that is to fail.
    fn fail(&mut self, call: u64) -> FileFault
        ensures fault { result ≡ FileFault.Failed }
        ensures counted { self.new
            ≡ record self.old { calls = call; counts = record self.old.counts { faults = next self.old.counts.faults } } }
    {
        self.calls = call;
        self.faults = self.faults.saturating_add(1);
        FileFault::Failed
    }
}

impl Entry {
    ghost use Rattle.mig_files.specs.Entries.{entry_of, by_key, AreOrdered, names_in};
    ghost use Rattle.mig_files.specs.Numbered.{held_by};
    ghost use Rattle.mig_files.specs.Held.{assign};
    ghost use Rattle.std_collections.specs.Layout.BTreeMap.{seek};
    ghost use Rattle.std.specs.List.Sorted.{IsSearchInRange};
    ghost use Rattle.std.specs.Prelude.{◌≡◌, length, map, IfOk, OnOk, OnErr, Some, option_map, string_bytes};

    // How the key of this entry compares to another key.
    fn order(&self, folder: &str, name: &str) -> Ordering
        ensures { result ≡ by_key (entry_of self.now).0 (folder.now, name.now) }
    {
        let by_name = self.name.as_str().cmp(&name);
        self.folder.as_str().cmp(&folder).then(by_name)
    }

    // The place of a key, or where it would go. It takes log n comparisons.
    fn place(entries: &[Entry], folder: &str, name: &str) -> Result<usize, usize>
        requires { AreOrdered (map entry_of entries.now) }
        ensures bound { IsSearchInRange result (length entries.now) }
        ensures place { result ≡ seek (by_key (folder.now, name.now)) (map entry_of entries.now) }
    {
        entries.binary_search_by(|entry| entry.order(folder, name))
    }

    // The bytes of a key.
    fn bytes_in<'a>(entries: &'a [Entry], folder: &str, name: &str) -> Option<&'a [u8]>
        requires { AreOrdered (map entry_of entries.now) }
        ensures { option_map (λ bytes. bytes.now) result ≡ held_by (map entry_of entries.now) (folder.now, name.now) }
    {
        match Entry::place(entries, folder, name) {
            Ok(at) => Some(entries[at].bytes.as_slice()),
            Err(_) => None,
        }
    }

    // The names in a folder.
    fn names_in(alloc: Global, entries: &[Entry], folder: &str) -> Result<Vec<String>, AllocError>
        ensures { IfOk result (λ names. map string_bytes names.items ≡ names_in folder.now (map entry_of entries.now)) }
    {
        let mut names = Vec::new(alloc);
        for entry in entries {
            if folder == entry.folder.as_str() {
                names.push(String::from_str(alloc, entry.name.as_str())?)?;
            }
        }
        Ok(names)
    }

    // Sets the bytes of a key.
    fn store(
        alloc: Global,
        entries: &mut Vec<Entry>,
        folder: &str,
        name: &str,
        bytes: &[u8],
    ) -> Result<(), AllocError>
        requires { AreOrdered (map entry_of entries.old.items) }
        ensures ordered { AreOrdered (map entry_of entries.new.items) }
        ensures ok { OnOk result (held_by (map entry_of entries.new.items)
            ≡ assign (held_by (map entry_of entries.old.items)) (folder.now, name.now) (Some bytes.now)) }
        ensures err { OnErr result (map entry_of entries.new.items ≡ map entry_of entries.old.items) }
    {
        let bytes = Vec::from_slice(alloc, bytes)?;
        match Entry::place(entries, folder, name) {
            Ok(at) => {
                let old = mem::replace(&mut entries[at].bytes, bytes);
                drop(old);
            }
            Err(at) => {
                let folder = String::from_str(alloc, folder)?;
                let name = String::from_str(alloc, name)?;
                entries.insert(
                    at,
                    Entry {
                        folder,
                        name,
                        bytes,
                    },
                )?;
            }
        }
        Ok(())
    }
}

impl Files for MemoryFiles {
    ghost use Rattle.std.specs.Prelude.{◌≡◌, ◌≤◌, length, map, Some, IfOk, IsErrOf, string_bytes};
    ghost use Rattle.mig_files.specs.Numbered.{holds, first_half, Numbers};
    ghost use Rattle.mig_files.specs.Held.{Lists, assign};
    ghost use Rattle.mig_files.specs.Told.{HasCause, IsNoReading, AnswersRead, Writes};

    ghost held = { λ f. Some (holds f) };

    ghost counts = { λ f. f.counts };

    // Beyond the trait's clauses: it fails exactly where its number is listed.
    fn list(&mut self, alloc: Global, folder: &str) -> FileResult<Vec<String>>
        ensures names { IfOk result (λ names. Lists (holds self.old) folder.now (map string_bytes names.items)) }
        ensures same { Some (holds self.new) ≡ Some (holds self.old) }
        ensures no_reading { IsNoReading result }
        ensures cause { HasCause self.old.counts self.new.counts result }
        ensures numbered { Numbers self.old self.new result }
    {
        let call = self.calls.saturating_add(1);
        if lists(&self.failing, call) {
            return Err(self.fail(call));
        }
        let names = Entry::names_in(alloc, &self.entries, folder)?;
        self.calls = call;
        Ok(names)
    }

    // Beyond the trait's clauses: it fails exactly where its number is listed.
    fn read(&mut self, alloc: Global, folder: &str, name: &str, limit: usize) -> FileResult<Vec<u8>>
        ensures bytes { AnswersRead (holds self.old (folder.now, name.now)) limit result }
        ensures limit { IfOk result (λ bytes. length bytes.items ≤ limit) }
        ensures same { Some (holds self.new) ≡ Some (holds self.old) }
        ensures absent { IsErrOf result FileFault.Absent → self.new.counts.faults ≡ self.old.counts.faults }
        ensures cause { HasCause self.old.counts self.new.counts result }
        ensures numbered { Numbers self.old self.new result }
    {
        let call = self.calls.saturating_add(1);
        if lists(&self.failing, call) {
            return Err(self.fail(call));
        }
        let Some(bytes) = Entry::bytes_in(&self.entries, folder, name) else {
            self.calls = call;
            self.absent = self.absent.saturating_add(1);
            return Err(FileFault::Absent);
        };
        if bytes.len() > limit {
            self.calls = call;
            self.long = self.long.saturating_add(1);
            return Err(FileFault::Long);
        }
        let bytes = Vec::from_slice(alloc, bytes)?;
        self.calls = call;
        Ok(bytes)
    }

    // Beyond the trait's clauses: it fails exactly where its number is listed, and leaves the first half then.
    fn write(&mut self, alloc: Global, folder: &str, name: &str, bytes: &[u8]) -> FileResult<()>
        ensures written { Writes (holds self.old) (folder.now, name.now) bytes.now (Some (holds self.new)) result }
        ensures half { IsErrOf result FileFault.Failed → holds self.new
            ≡ assign (holds self.old) (folder.now, name.now) (Some (first_half bytes.now)) }
        ensures no_reading { IsNoReading result }
        ensures cause { HasCause self.old.counts self.new.counts result }
        ensures numbered { Numbers self.old (record self.new { entries = self.old.entries }) result }
        ensures memory { IsErrOf result FileFault.Memory → self.new ≡ self.old }
    {
        let call = self.calls.saturating_add(1);
        if lists(&self.failing, call) {
            let half = &bytes[..bytes.len() / 2];
            Entry::store(alloc, &mut self.entries, folder, name, half)?;
            self.calls = call;
            self.faults = self.faults.saturating_add(1);
            return Err(FileFault::Failed);
        }
        Entry::store(alloc, &mut self.entries, folder, name, bytes)?;
        self.calls = call;
        Ok(())
    }
}
