//! Real folders and writers, and doubles that fail.
use mig_files::{FileFault, Files, HostFiles, HostSink, MemoryFiles, MemorySink, Sink, SinkFault};
use std::alloc::Global;
use std::fs;
use std::os::unix::fs::{PermissionsExt, symlink};
use std::process::Abort;
use std::test::Fail;

// Each test of the host makes a folder of its own here, and removes it again.
const REPLACED: &str = "host_files_replaced/made/out";

const LISTED: &str = "host_files_listed";

const REFUSED: &str = "host_files_refused";

// A name as long as the host takes: 255 bytes.
const LONG_NAME: &str =
    "a234567890123456789012345678901234567890123456789012345678901234567890123456789012345678901234567890a234567890123456789012345678901234567890123456789012345678901234567890123456789012345678901234567890a23456789012345678901234567890123456789012345678901.dat";

const MEMORY: &str = "memory for a test";

// Compares the names of the files in a folder, in ascending order: no file is there that isn't due.
fn check_names<F: Files>(
    rt: &impl Abort,
    alloc: Global,
    files: &mut F,
    folder: &str,
    due: &[&str],
) {
    let mut names = files.list(alloc, folder).expect(rt, "the names");
    names.sort().expect(rt, MEMORY);
    assert_eq!(rt; names.len(), due.len(), "the names in {folder}");
    for (name, due) in names.iter().zip(due) {
        assert!(rt; name.as_str() == *due, "{name} for {due}");
    }
}

// Compares the bytes of a file.
fn check_bytes<F: Files>(
    rt: &impl Abort,
    alloc: Global,
    files: &mut F,
    folder: &str,
    name: &str,
    due: &[u8],
) {
    let bytes = files.read(alloc, folder, name, 255).expect(rt, "the bytes");
    assert_eq!(rt; bytes.as_slice(), due, "the bytes of {name}");
}

#[test]
fn host_files_replace_files(rt: HostRuntime) -> Result<(), Fail> {
    let alloc = rt.alloc();
    let _ = fs::remove_dir_all(&rt, "host_files_replaced");
    let mut files = HostFiles::new(rt.clone()?);
    assert!(rt; files.list(alloc, REPLACED) == Err(FileFault::Failed));
    let line = "list host_files_replaced/made/out: No such file or directory";
    assert!(rt; files.last_failure() == Some(line));
    assert!(rt; files.write(alloc, REPLACED, LONG_NAME, b"second").is_ok());
    assert!(rt;
        files
            .write(alloc, REPLACED, "a.dat", b"longer at first")
            .is_ok()
    );
    let path = "host_files_replaced/made/out/a.dat";
    fs::set_permissions(&rt, path, fs::Permissions::from_mode(0o640))?;
    assert!(rt; files.write(alloc, REPLACED, "a.dat", b"bytes").is_ok());
    check_bytes(&rt, alloc, &mut files, REPLACED, "a.dat", b"bytes");
    check_bytes(&rt, alloc, &mut files, REPLACED, LONG_NAME, b"second");
    let mode = fs::metadata(&rt, path)?.permissions().mode();
    assert_eq!(rt; mode & 0o777, 0o640);
    assert!(rt; files.read(alloc, REPLACED, "a.dat", 4) == Err(FileFault::Long));
    assert!(rt; files.read(alloc, REPLACED, "c.dat", 5) == Err(FileFault::Absent));
    check_names(&rt, alloc, &mut files, REPLACED, &["a.dat", LONG_NAME]);
    fs::remove_dir_all(&rt, "host_files_replaced")?;
    Ok(())
}

#[test]
fn host_files_list_files_alone(rt: HostRuntime) -> Result<(), Fail> {
    let alloc = rt.alloc();
    let _ = fs::remove_dir_all(&rt, LISTED);
    let mut files = HostFiles::new(rt.clone()?);
    assert!(rt; files.write(alloc, LISTED, "file.dat", b"bytes").is_ok());
    fs::create_dir(&rt, "host_files_listed/folder.dat")?;
    symlink(&rt, "file.dat", "host_files_listed/link.dat")?;
    symlink(&rt, "folder.dat", "host_files_listed/link_to_folder.dat")?;
    symlink(&rt, "gone.dat", "host_files_listed/nowhere.dat")?;
    symlink(&rt, "round.dat", "host_files_listed/round.dat")?;
    let due = ["file.dat", "link.dat", "nowhere.dat", "round.dat"];
    check_names(&rt, alloc, &mut files, LISTED, &due);
    check_bytes(&rt, alloc, &mut files, LISTED, "link.dat", b"bytes");
    assert!(rt; files.read(alloc, LISTED, "folder.dat", 5) == Err(FileFault::Failed));
    assert!(rt; files.last_failure() == Some("read host_files_listed/folder.dat: Not a file"));
    for name in ["nowhere.dat", "round.dat"] {
        assert!(rt; files.read(alloc, LISTED, name, 5) == Err(FileFault::Absent));
    }
    fs::remove_dir_all(&rt, LISTED)?;
    Ok(())
}

// The administrator writes into a read-only folder too: then the write has to be whole.
#[test]
fn failed_writes_leave_what_was_there(rt: HostRuntime) -> Result<(), Fail> {
    let alloc = rt.alloc();
    let _ = fs::remove_dir_all(&rt, REFUSED);
    let mut files = HostFiles::new(rt.clone()?);
    assert!(rt; files.write(alloc, REFUSED, "a.dat", b"old").is_ok());
    fs::create_dir(&rt, "host_files_refused/folder.dat")?;
    let onto_folder = files.write(alloc, REFUSED, "folder.dat", b"new");
    assert!(rt; onto_folder == Err(FileFault::Failed));
    assert!(rt;
        files.last_failure() == Some("write host_files_refused/folder.dat: Is a directory")
    );
    let through_file = files.write(alloc, "host_files_refused/a.dat", "b.dat", b"new");
    assert!(rt; through_file == Err(FileFault::Failed));
    check_names(&rt, alloc, &mut files, REFUSED, &["a.dat"]);
    fs::set_permissions(&rt, REFUSED, fs::Permissions::from_mode(0o555))?;
    let due = match files.write(alloc, REFUSED, "a.dat", b"new") {
        Ok(()) => b"new".as_slice(),
        Err(_) => b"old".as_slice(),
    };
    check_bytes(&rt, alloc, &mut files, REFUSED, "a.dat", due);
    check_names(&rt, alloc, &mut files, REFUSED, &["a.dat"]);
    fs::set_permissions(&rt, REFUSED, fs::Permissions::from_mode(0o755))?;
    fs::remove_dir_all(&rt, REFUSED)?;
    Ok(())
}

#[test]
fn host_sinks_write_all_or_fail(rt: HostRuntime) -> Result<(), Fail> {
    let mut written = Vec::new(rt.alloc());
    let mut sink = HostSink::new(&mut written);
    sink.put(b"one ")?;
    sink.put(b"two")?;
    drop(sink);
    assert_eq!(rt; written.as_slice(), b"one two".as_slice());
    let mut room = [0u8; 4];
    let mut sink = HostSink::new(room.as_mut_slice());
    assert_eq!(rt; sink.put(b"four"), Ok(()));
    assert_eq!(rt; sink.put(b""), Ok(()));
    assert_eq!(rt; sink.put(b"x"), Err(SinkFault::Failed));
    Ok(())
}

// Which calls fail and what they leave, contracts say: this shows that there is memory for the others.
#[test]
fn memory_fails_at_listed_calls(rt: HostRuntime) {
    let alloc = rt.alloc();
    let mut files = MemoryFiles::new(alloc);
    files.fail_at(3).expect(&rt, MEMORY);
    files
        .put(alloc, "in", "a.dat", b"bytes")
        .expect(&rt, MEMORY);
    check_names(&rt, alloc, &mut files, "in", &["a.dat"]);
    check_bytes(&rt, alloc, &mut files, "in", "a.dat", b"bytes");
    let failed = files.write(alloc, "out", "a.dat", b"bytes");
    assert!(rt; failed == Err(FileFault::Failed));
    assert!(rt; files.get("out", "a.dat") == Some(b"by".as_slice()));
    assert!(rt; files.write(alloc, "out", "a.dat", b"bytes").is_ok());
    let mut sink = MemorySink::new(alloc);
    sink.fail_at(2).expect(&rt, MEMORY);
    assert!(rt; sink.put(b"one ").is_ok());
    assert!(rt; sink.put(b"two").is_err());
    assert!(rt; sink.bytes() == b"one t".as_slice());
}
