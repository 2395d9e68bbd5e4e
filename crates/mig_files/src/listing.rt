//! The files of a folder of the host.
use std::alloc::Global;
use std::io::Read;
use std::path::Path;
use std::{fs, io};

// A folder of more entries isn't listed.
const MOST_ENTRIES: usize = 1_000_000;

// One read of a folder: some thousand names.
const ROOM: usize = 65_536;

// Whether an entry is a file, links followed. A link that leads nowhere counts, since a read tells of it.
fn is_listed<R: fs::Files>(runtime: &R, path: Path<'_>) -> bool {
    match fs::metadata(runtime, path) {
        Ok(found) => found.is_file(),
        Err(_) => true,
    }
}

// Puts those of some entries that are files to the names. Of a name that isn't UTF-8 each wrong piece is
// replaced: nothing is there under that name, and a read tells of it.
fn push_files<R: fs::Files>(
    runtime: &R,
    alloc: Global,
    folder: &str,
    entries: &[u8],
    names: &mut Vec<String>,
) -> io::Result<()> {
    for entry in entries.split(|byte| *byte == 0) {
        if entry.is_empty() {
            continue;
        }
        if names.len() >= MOST_ENTRIES {
            return Err(io::Error::other("Too many entries"));
        }
        let name = String::from_utf8_lossy(alloc, entry)?;
        let path = Path::new(folder).join(alloc, name.as_str())?;
        if is_listed(runtime, path.as_path()) {
            names.push(name)?;
        }
    }
    Ok(())
}

// The names of the files in a folder.
pub(crate) fn files_in<R: fs::Files>(
    runtime: &R,
    alloc: Global,
    folder: &str,
) -> io::Result<Vec<String>> {
    // the empty name that is joined ends the path in a slash: a link to a folder is followed
    let path = Path::new(folder).join(alloc, "")?;
    let mut entries = runtime.open_dir(path.as_path().as_str())?;
    let mut room = vec![in alloc; 0u8; ROOM]?;
    let mut names = Vec::new(alloc);
    for _ in 0..MOST_ENTRIES {
        let count = entries.read(&mut room)?;
        if count == 0 {
            return Ok(names);
        }
        push_files(runtime, alloc, folder, &room[..count], &mut names)?;
    }
    Err(io::Error::other("Too many entries"))
}
