//! Sets a file of the host: at each moment it is as it was, or whole and new.
use std::alloc::Global;
use std::fs::{Metadata, OpenFile, OpenOptions};
use std::io::{ErrorKind, Write};
use std::os::unix::fs::{MetadataExt, OpenOptionsExt, PermissionsExt, chown};
use std::path::{Path, PathBuf};
use std::{fs, io};

// So many files of earlier runs are passed by.
const MOST_STRAYS: u64 = 1_000_000;

// How the new file is made: no file that is there is opened, and where it replaces one, nobody reads it
// who couldn't read that.
fn options_for(old: Option<&Metadata>) -> OpenOptions {
    let mut options = OpenOptions::new();
    options.write(true);
    options.create_new(true);
    if let Some(old) = old {
        options.mode(old.permissions().mode() & 0o777);
    }
    options
}

// Makes a file under a name that isn't there yet, and leaves its number in `number`.
fn make_new<R: fs::Files + Drop>(
    runtime: &R,
    alloc: Global,
    folder: &str,
    number: &mut u64,
    options: &OpenOptions,
) -> io::Result<(PathBuf, R::File)> {
    for _ in 0..MOST_STRAYS {
        let name = format!(in alloc; "moxaldiz-{number}.new")?;
        let path = Path::new(folder).join(alloc, name.as_str())?;
        match options.open(runtime, path.as_path()) {
            Ok(file) => return Ok((path, file)),
            Err(error) if error.kind() == ErrorKind::AlreadyExists => {
                *number = number.wrapping_add(1);
            }
            Err(error) => return Err(error),
        }
    }
    Err(io::Error::from(ErrorKind::AlreadyExists))
}

// Gives the new file the group and the owner of the old one, where the host lets.
fn keep_owner<R: fs::Files>(runtime: &R, path: Path<'_>, old: &Metadata) {
    let _ = chown(runtime, path, None, Some(old.gid()));
    let _ = chown(runtime, path, Some(old.uid()), None);
}

// Fills the new file, and has the host bring its bytes to the disk. The mode comes behind the owner, who takes some
// of its bits away. Where it is right already it isn't set: some disks refuse that to all but the administrator.
fn fill<R: fs::Files>(
    runtime: &R,
    path: Path<'_>,
    mut file: R::File,
    old: Option<&Metadata>,
    bytes: &[u8],
) -> io::Result<()> {
    file.write_all(bytes)?;
    if let Some(old) = old {
        keep_owner(runtime, path, old);
        if file.metadata()?.permissions() != old.permissions() {
            file.set_permissions(old.permissions())?;
        }
    }
    file.sync_all()
}

// Sets the bytes of a file: a new one is written beside it, brought to the disk, and renamed. Where that fails,
// what was there stays, and the new file is removed, where the host lets. `number` is where the search for a
// new name begins.
pub(crate) fn replace<R: fs::Files + Drop>(
    runtime: &R,
    alloc: Global,
    path: Path<'_>,
    number: &mut u64,
    bytes: &[u8],
) -> io::Result<()> {
    let old = fs::metadata(runtime, path).ok().filter(|old| old.is_file());
    let folder = match path.parent() {
        Some(folder) => folder.as_str(),
        None => "",
    };
    let options = options_for(old.as_ref());
    let (new, file) = make_new(runtime, alloc, folder, number, &options)?;
    let filled = fill(runtime, new.as_path(), file, old.as_ref(), bytes);
    let done = match filled {
        Ok(()) => fs::rename(runtime, new.as_path(), path),
        Err(error) => Err(error),
    };
    if done.is_err() {
        let _ = fs::remove_file(runtime, new.as_path());
    }
    done
}
