//! What no contract says: calls succeed with ample memory; and files written elsewhere, on both sides of each bound.
use mig_nbt::{NbtError, read, write};
use std::alloc::Global;
use std::process::Abort;

/// What a test says where memory is wanting.
const MEMORY: &str = "out of memory";

const SAVE: &[u8] =
    b"\x0a\x00\x00\x03\x00\x0bDataVersion\x00\x00\x00d\x08\x00\x04name\x00\x03Ann\x00";

/// The canonical text of the file that the bytes are, and `None` where they are none.
fn rewritten(rt: &impl Abort, alloc: Global, bytes: &[u8]) -> Option<Vec<u8>> {
    match read(alloc, bytes) {
        Ok((name, tree)) => Some(write(alloc, name.bytes(), &tree).expect(rt, MEMORY)),
        Err(fault) => {
            assert_eq!(rt; fault, NbtError::Wrong);
            None
        }
    }
}

/// Adds the bytes.
fn add(rt: &impl Abort, file: &mut Vec<u8>, bytes: &[u8]) {
    file.extend_from_slice(bytes).expect(rt, MEMORY);
}

/// A root of these tags.
fn root(rt: &impl Abort, alloc: Global, tags: &[u8]) -> Vec<u8> {
    let mut file = Vec::new(alloc);
    add(rt, &mut file, b"\x0a\x00\x00");
    add(rt, &mut file, tags);
    add(rt, &mut file, b"\x00");
    file
}

/// So many zeros behind these bytes.
fn with_zeros(rt: &impl Abort, alloc: Global, bytes: &[u8], zeros: usize) -> Vec<u8> {
    let mut tags = Vec::new(alloc);
    add(rt, &mut tags, bytes);
    let zeros = vec![in alloc; 0u8; zeros].expect(rt, MEMORY);
    add(rt, &mut tags, &zeros);
    tags
}

/// So many times the first bytes, and then the others.
fn repeated(rt: &impl Abort, alloc: Global, times: u32, first: &[u8], others: &[u8]) -> Vec<u8> {
    let mut tags = Vec::new(alloc);
    for _ in 0..times {
        add(rt, &mut tags, first);
    }
    add(rt, &mut tags, others);
    tags
}

/// The bytes are a file, and this is its canonical text; or they are none.
fn check_file(rt: &impl Abort, alloc: Global, file: &[u8], due: Option<&[u8]>) {
    let found = rewritten(rt, alloc, file);
    assert_eq!(rt; found.as_deref(), due);
}

/// A root of the tags is a file, and written as a root of the others.
fn check_root(rt: &impl Abort, alloc: Global, tags: &[u8], due: &[u8]) {
    let file = root(rt, alloc, tags);
    let due = root(rt, alloc, due);
    check_file(rt, alloc, &file, Some(&due));
}

/// A root of the tags is no file.
fn check_wrong(rt: &impl Abort, alloc: Global, tags: &[u8]) {
    let file = root(rt, alloc, tags);
    check_file(rt, alloc, &file, None);
}

#[test]
fn a_save_is_whole(rt: HostRuntime) {
    let alloc = rt.alloc();
    check_file(&rt, alloc, SAVE, Some(SAVE));
    for end in 0..SAVE.len() {
        check_file(&rt, alloc, &SAVE[..end], None);
    }
}

#[test]
fn each_tag_is_written_as_it_was(rt: HostRuntime) {
    let table: [&[u8]; 15] = [
        b"",
        b"\x01\x00\x00\x80",
        b"\x02\x00\x00\x80\x00",
        b"\x03\x00\x00\x80\x00\x00\x00",
        b"\x04\x00\x00\x80\x00\x00\x00\x00\x00\x00\x00",
        b"\x05\x00\x00\x7f\xc0\x00\x01",
        b"\x06\x00\x00\x7f\xf8\x00\x00\x00\x00\x00\x01",
        b"\x07\x00\x00\x00\x00\x00\x01\xff",
        b"\x08\x00\x00\x00\x0ba\xc0\x80\xdf\xbf\xe0\x80\x80\xef\xbf\xbf",
        b"\x08\x00\x00\x00\x03\xef\xbf\xbf",
        b"\x09\x00\x00\x01\x00\x00\x00\x02\x01\x02",
        b"\x0a\x00\x00\x00",
        b"\x0b\x00\x00\x00\x00\x00\x01\x00\x00\x00\x07",
        b"\x0c\x00\x00\x00\x00\x00\x01\x00\x00\x00\x00\x00\x00\x00\x07",
        b"\x01\x00\x01a\x01\x01\x00\x01b\x02",
    ];
    for tags in table {
        check_root(&rt, rt.alloc(), tags, tags);
    }
}

#[test]
fn names_are_put_in_order_and_empty_lists_get_the_tag_end(rt: HostRuntime) {
    let alloc = rt.alloc();
    let turned = b"\x01\x00\x01b\x02\x01\x00\x01a\x01";
    check_root(&rt, alloc, turned, b"\x01\x00\x01a\x01\x01\x00\x01b\x02");
    for number in 0..13u8 {
        let empty = [9, 0, 0, number, 0, 0, 0, 0];
        check_root(&rt, alloc, &empty, &[9, 0, 0, 0, 0, 0, 0, 0]);
    }
}

#[test]
fn what_is_out_of_bounds_is_no_file(rt: HostRuntime) {
    let table: [&[u8]; 10] = [
        b"\x08\x00\x00\x00\x01\x80",
        b"\x08\x00\x00\x00\x01\xc0",
        b"\x08\x00\x00\x00\x04\xf0\x80\x80\x80",
        b"\x07\x00\x00\xff\xff\xff\xff",
        b"\x0b\x00\x00\x80\x00\x00\x00",
        b"\x09\x00\x00\x01\xff\xff\xff\xff",
        b"\x09\x00\x00\x00\x00\x00\x00\x01",
        b"\x09\x00\x00\x0d\x00\x00\x00\x00",
        b"\x0d\x00\x00",
        b"\x01\x00\x01a\x01\x01\x00\x01a\x02",
    ];
    for tags in table {
        check_wrong(&rt, rt.alloc(), tags);
    }
}

/// So many compounds in one another, with the root.
fn compounds(rt: &impl Abort, alloc: Global, levels: u32) -> Vec<u8> {
    let ends = vec![in alloc; 0u8; levels as usize].expect(rt, MEMORY);
    repeated(rt, alloc, levels, b"\x0a\x00\x00", &ends)
}

/// The tag of a list of so many lists in one another.
fn lists(rt: &impl Abort, alloc: Global, levels: u32) -> Vec<u8> {
    let mut tags = Vec::new(alloc);
    add(rt, &mut tags, b"\x09\x00\x00");
    let inside = repeated(rt, alloc, levels, b"\x09\x00\x00\x00\x01", &[0; 5]);
    add(rt, &mut tags, &inside);
    tags
}

#[test]
fn levels_have_a_bound(rt: HostRuntime) {
    let alloc = rt.alloc();
    let deep = compounds(&rt, alloc, 512);
    check_file(&rt, alloc, &deep, Some(&deep));
    check_file(&rt, alloc, &compounds(&rt, alloc, 513), None);
    let deep = lists(&rt, alloc, 510);
    check_root(&rt, alloc, &deep, &deep);
    check_wrong(&rt, alloc, &lists(&rt, alloc, 511));
}

#[test]
fn sizes_have_a_bound(rt: HostRuntime) {
    let alloc = rt.alloc();
    let named = with_zeros(&rt, alloc, b"\x0a\xff\xff", 65_536);
    check_file(&rt, alloc, &named, Some(&named));
    let short = with_zeros(&rt, alloc, b"\x0a\xff\xff", 65_535);
    check_file(&rt, alloc, &short, None);
    let full = with_zeros(&rt, alloc, b"\x07\x00\x00\x00\xff\xff\xf5", 16_777_205);
    check_root(&rt, alloc, &full, &full);
    let over = with_zeros(&rt, alloc, b"\x07\x00\x00\x00\xff\xff\xf6", 16_777_206);
    check_wrong(&rt, alloc, &over);
}
