//! Folders through the whole program. Contracts pin what a run answers, but for want of memory: so each outcome comes
//! once, with expected bytes and lines that were written by hand.
use crate::running::status_of;
use mig_files::{MemoryFiles, MemorySink};
use std::alloc::Global;
use std::process::Abort;

const CHAIN: &str = "form nbt; version \"DataVersion\"; schema 100;
type player = { \"name\": text, .. }; root player;
fix 101 seq(rename \"name\" \"Name\", add \"Health\" = int 20);
schema 101; type player = { \"Health\": int, \"Name\": text, .. }; root player;
";

const CHAIN_TO_110: &str = "form nbt; version \"DataVersion\"; schema 100;
type player = { \"name\": text, .. }; root player;
fix 110 seq(rename \"name\" \"Name\", add \"Health\" = int 20);
schema 110; type player = { \"Health\": int, \"Name\": text, .. }; root player;
";

const CHAIN_WITH_MISSING: &str = "form nbt; version \"DataVersion\" missing 100; schema 100;
type player = { \"name\": text, .. }; root player;
fix 101 seq(rename \"name\" \"Name\", add \"Health\" = int 20);
schema 101; type player = { \"Health\": int, \"Name\": text, .. }; root player;
";

const JSON_CHAIN: &str = "form json; version \"DataVersion\"; schema 100;
type p = { \"x\": whole, .. }; root p;
fix 101 seq(rename \"x\" \"y\", add \"z\" = whole 1);
schema 101; type p = { \"y\": whole, \"z\": whole, .. }; root p;
";

const MORE: &str =
    "form nbt; version \"DataVersion\"; schema 100; type player = { \"name\": text }; root player;
fix 101 drop \"name\"; schema 101 follows;";

const SAVE: &[u8] =
    b"\x0a\x00\x00\x03\x00\x0bDataVersion\x00\x00\x00d\x08\x00\x04name\x00\x03Ann\x00";

const LIFTED: &[u8] =
    b"\x0a\x00\x00\x03\x00\x0bDataVersion\x00\x00\x00e\x03\x00\x06Health\x00\x00\x00\x14\x08\x00\x04Name\x00\x03Ann\x00";

const WITH_HEALTH: &[u8] =
    b"\x0a\x00\x00\x03\x00\x0bDataVersion\x00\x00\x00d\x08\x00\x06Health\x00\x01x\x08\x00\x04name\x00\x03Ann\x00";

const CUT: &[u8] = b"\x0a\x00\x00\x03\x00\x0bDataVersion\x00\x00\x00d\x08\x00\x04name\x00\x03Ann";

const GZIP: &[u8] = b"\x1f\x8b";

const LONGER: &[u8] =
    b"\x0a\x00\x00\x03\x00\x0bDataVersion\x00\x00\x00d\x08\x00\x04name\x00\x03Ann\x00\x00";

const NAMED_TWICE: &[u8] =
    b"\x0a\x00\x00\x03\x00\x0bDataVersion\x00\x00\x00d\x08\x00\x04name\x00\x03Ann\x08\x00\x04name\x00\x03Ann\x00";

const VERSION_102: &[u8] =
    b"\x0a\x00\x00\x03\x00\x0bDataVersion\x00\x00\x00f\x08\x00\x04name\x00\x03Ann\x00";

const VERSION_99: &[u8] =
    b"\x0a\x00\x00\x03\x00\x0bDataVersion\x00\x00\x00c\x08\x00\x04name\x00\x03Ann\x00";

const VERSION_105: &[u8] =
    b"\x0a\x00\x00\x03\x00\x0bDataVersion\x00\x00\x00i\x08\x00\x04name\x00\x03Ann\x00";

const LIFTED_TO_110: &[u8] =
    b"\x0a\x00\x00\x03\x00\x0bDataVersion\x00\x00\x00n\x03\x00\x06Health\x00\x00\x00\x14\x08\x00\x04Name\x00\x03Ann\x00";

const VERSION_101: &[u8] =
    b"\x0a\x00\x00\x08\x00\x04Name\x00\x03Ann\x03\x00\x06Health\x00\x00\x00\x14\x03\x00\x0bDataVersion\x00\x00\x00e\x00";

const NUMBER_NAMED: &[u8] =
    b"\x0a\x00\x00\x03\x00\x0bDataVersion\x00\x00\x00d\x03\x00\x04name\x00\x00\x00\x01\x00";

const NAMELESS: &[u8] = b"\x0a\x00\x00\x03\x00\x0bDataVersion\x00\x00\x00d\x00";

const WITH_LIST: &[u8] =
    b"\x0a\x00\x00\x03\x00\x0bDataVersion\x00\x00\x00d\x08\x00\x04name\x00\x03Ann\x09\x00\x01l\x08\x00\x00\x00\x00\x00";

const LIFTED_LIST: &[u8] =
    b"\x0a\x00\x00\x03\x00\x0bDataVersion\x00\x00\x00e\x03\x00\x06Health\x00\x00\x00\x14\x08\x00\x04Name\x00\x03Ann\x09\x00\x01l\x00\x00\x00\x00\x00\x00";

const VERSIONLESS: &[u8] = b"\x0a\x00\x00\x08\x00\x04name\x00\x03Ann\x00";

const SHORT_VERSION: &[u8] =
    b"\x0a\x00\x00\x02\x00\x0bDataVersion\x00d\x08\x00\x04name\x00\x03Ann\x00";

const JSON_SAVE: &[u8] = b"{\"DataVersion\":100,\"x\":1000}";

const LIFTED_JSON: &[u8] = b"{\"DataVersion\":101,\"y\":1000,\"z\":1}";

const JSON_NULL: &[u8] = b"{\"x\":1,\"u\":null,\"DataVersion\":100}";

const LIFTED_NULL: &[u8] = b"{\"DataVersion\":101,\"u\":null,\"y\":1,\"z\":1}";

const JSON_FRACTION: &[u8] = b"{\"DataVersion\":100,\"x\":1.5}";

const JSON_LIST: &[u8] = b"[]";

const MEMORY: &str = "memory for a test";

// Files with this chain, and these saves in the folder `in`.
fn files_of(
    rt: &impl Abort,
    alloc: Global,
    chain: &str,
    saves: &[(&str, &[u8], Option<&[u8]>)],
) -> MemoryFiles {
    let mut files = MemoryFiles::new(alloc);
    files
        .put(alloc, ".", "c.mig", chain.as_bytes())
        .expect(rt, MEMORY);
    for (name, save, _) in saves {
        files.put(alloc, "in", name, save).expect(rt, MEMORY);
    }
    files
}

// Lifts these saves to the target, and compares the status, the report and what was written of each.
fn check_folder(
    rt: &impl Abort,
    alloc: Global,
    chain: &str,
    target: &str,
    saves: &[(&str, &[u8], Option<&[u8]>)],
    status: u8,
    lines: &str,
) {
    let mut files = files_of(rt, alloc, chain, saves);
    let mut report = MemorySink::new(alloc);
    let words = ["lift", "c.mig", "in", "out", target];
    let found = status_of(rt, alloc, &words, &mut files, &mut report);
    assert!(rt;
        report.bytes() == lines.as_bytes(),
        "the report to {target}"
    );
    assert_eq!(rt; found, status, "the status to {target}");
    for (name, _, lifted) in saves {
        assert!(rt;
            files.get("out", name) == *lifted,
            "the save {name} at {target}"
        );
    }
}

const LINES_101: &str = "a.dat: lifted 100 to 101
b.nbt: lifted 100 to 101
c%20%2F%25.dat: lifted 100 to 101
d.dat: lifted 101 to 101
e.dat: refused bytes
f.dat: refused bytes
g.dat: refused bytes
h.dat: refused bytes
i.dat: refused version above 102
j.dat: refused version below 99
k.dat: refused version absent
l.dat: refused version wrong
m.dat: refused schema /name
n.dat: refused schema /name
";

#[test]
fn saves_meet_their_outcomes(rt: HostRuntime) {
    let saves = [
        ("a.dat", SAVE, Some(LIFTED)),
        ("b.nbt", WITH_HEALTH, Some(LIFTED)),
        ("c /%.dat", WITH_LIST, Some(LIFTED_LIST)),
        ("d.dat", VERSION_101, Some(LIFTED)),
        ("e.dat", CUT, None),
        ("f.dat", GZIP, None),
        ("g.dat", LONGER, None),
        ("h.dat", NAMED_TWICE, None),
        ("i.dat", VERSION_102, None),
        ("j.dat", VERSION_99, None),
        ("k.dat", VERSIONLESS, None),
        ("l.dat", SHORT_VERSION, None),
        ("m.dat", NUMBER_NAMED, None),
        ("n.dat", NAMELESS, None),
        ("note.txt", SAVE, None),
    ];
    check_folder(&rt, rt.alloc(), CHAIN, "101", &saves, 1, LINES_101);
}

#[test]
fn chains_of_other_forms_meet_their_outcomes(rt: HostRuntime) {
    let alloc = rt.alloc();
    let between = [("a.dat", VERSION_105, Some(LIFTED_TO_110))];
    let line = "a.dat: lifted 105 to 110\n";
    check_folder(&rt, alloc, CHAIN_TO_110, "110", &between, 0, line);
    let missing = [
        ("a.dat", VERSIONLESS, Some(LIFTED)),
        ("b.dat", SHORT_VERSION, None),
    ];
    let lines = "a.dat: lifted 100 to 101\nb.dat: refused version wrong\n";
    check_folder(&rt, alloc, CHAIN_WITH_MISSING, "101", &missing, 1, lines);
    let json = [
        ("a.json", JSON_SAVE, Some(LIFTED_JSON)),
        ("b.json", JSON_NULL, Some(LIFTED_NULL)),
        ("c.json", JSON_FRACTION, None),
        ("d.json", JSON_LIST, None),
        ("e.dat", JSON_SAVE, None),
    ];
    let lines = "a.json: lifted 100 to 101\nb.json: lifted 100 to 101\n\
                 c.json: refused bytes\nd.json: refused bytes\n";
    check_folder(&rt, alloc, JSON_CHAIN, "101", &json, 1, lines);
}

#[test]
fn words_and_chains_meet_their_lines(rt: HostRuntime) {
    let alloc = rt.alloc();
    let mut files = files_of(&rt, alloc, CHAIN, &[]);
    files
        .put(alloc, ".", "cut.mig", b"form nbt")
        .expect(&rt, MEMORY);
    files
        .put(alloc, ".", "more.mig", MORE.as_bytes())
        .expect(&rt, MEMORY);
    for (chain, target, line, status) in [
        ("c.mig", "101", "", 0u8),
        ("c.mig", "0101", "usage\n", 2),
        ("c.mig", "99", "target below 100\n", 2),
        ("no.mig", "101", "chain: absent\n", 2),
        ("cut.mig", "101", "chain: declaration 1\n", 2),
        ("more.mig", "101", "chain: not yet\n", 2),
    ] {
        let mut report = MemorySink::new(alloc);
        let words = ["lift", chain, "in", "out", target];
        let found = status_of(&rt, alloc, &words, &mut files, &mut report);
        assert!(rt; report.bytes() == line.as_bytes(), "{chain} to {target}");
        assert_eq!(rt; found, status, "{chain} to {target}");
    }
}

#[test]
fn a_folder_is_lifted_into_itself(rt: HostRuntime) {
    let alloc = rt.alloc();
    let saves = [("a.dat", SAVE, Some(LIFTED)), ("b.nbt", CUT, Some(CUT))];
    let mut files = files_of(&rt, alloc, CHAIN, &saves);
    let mut report = MemorySink::new(alloc);
    let words = ["lift", "c.mig", "in", "in", "101"];
    for _ in 0..2 {
        let found = status_of(&rt, alloc, &words, &mut files, &mut report);
        assert_eq!(rt; found, 1);
        assert!(rt; files.get("in", "a.dat") == Some(LIFTED));
        assert!(rt; files.get("in", "b.nbt") == Some(CUT));
    }
    let lines = "a.dat: lifted 100 to 101\nb.nbt: refused bytes\n\
                 a.dat: lifted 101 to 101\nb.nbt: refused bytes\n";
    assert!(rt; report.bytes() == lines.as_bytes());
}

// The calls of the files are the read of the chain, the list, and a read and a write for each save.
#[test]
fn failing_calls_stop_the_run(rt: HostRuntime) {
    let alloc = rt.alloc();
    let words = ["lift", "c.mig", "in", "out", "101"];
    let first = "a.dat: lifted 100 to 101\n";
    for (call, put, status, line) in [
        (1, 0, 3, ""),
        (2, 0, 3, ""),
        (5, 0, 3, first),
        (6, 0, 3, first),
        (0, 1, 4, "a.dat: lifte"),
    ] {
        let saves = [("a.dat", SAVE, None), ("b.dat", SAVE, None)];
        let mut files = files_of(&rt, alloc, CHAIN, &saves);
        let mut report = MemorySink::new(alloc);
        files.fail_at(call).expect(&rt, MEMORY);
        report.fail_at(put).expect(&rt, MEMORY);
        let found = status_of(&rt, alloc, &words, &mut files, &mut report);
        assert_eq!(rt; found, status, "call {call} and put {put}");
        assert!(rt;
            report.bytes() == line.as_bytes(),
            "call {call} and put {put}"
        );
    }
}
