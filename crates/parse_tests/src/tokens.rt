//! Each kind of token, and bytes that are none.
use mig_lex::{cut, is_blank, tokens};
use std::alloc::Global;
use std::test::Fail;

/// How many tokens the bytes are, where they are tokens.
fn count(alloc: Global, bytes: &[u8]) -> Option<usize> {
    match tokens(alloc, bytes) {
        Ok(found) => Some(found.len()),
        Err(_) => None,
    }
}

#[test]
fn reads_longest_first(rt: HostRuntime) -> Result<(), Fail> {
    let table: [(&[u8], Option<usize>); 10] = [
        (b"fix 101on item nop", Some(5)),
        (b" clamp\t01\r\n", Some(3)),
        (b"add \"x y\" = bool true", Some(5)),
        (b"{..}", Some(3)),
        (b"-7", Some(1)),
        (b"-0", None),
        (b".", None),
        (b"\"open", None),
        (b"Fix", None),
        (b"", Some(0)),
    ];
    for (bytes, expected) in table {
        assert_eq!(rt; count(rt.alloc(), bytes), expected);
    }
    Ok(())
}

#[test]
fn cuts_at_each_semicolon(rt: HostRuntime) -> Result<(), Fail> {
    let pieces = cut(rt.alloc(), b"form nbt;; \n")?;
    assert_eq!(rt; pieces.declarations.len(), 2);
    assert_eq!(rt; pieces.declarations[0], b"form nbt".as_slice());
    assert!(rt; pieces.declarations[1].is_empty());
    assert!(rt; is_blank(pieces.rest));
    Ok(())
}
