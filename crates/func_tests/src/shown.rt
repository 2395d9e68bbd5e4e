//! Trees as texts, to be compared.
use crate::records::MEMORY;
use mig_tree::Tree;
use std::alloc::Global;
use std::process::Abort;

/// Adds the bytes.
fn add(rt: &impl Abort, text: &mut Vec<u8>, bytes: &[u8]) {
    text.extend_from_slice(bytes).expect(rt, MEMORY);
}

/// Adds the tree to the text as JSON would write it; below so many levels it writes `_`.
pub fn show(rt: &impl Abort, alloc: Global, tree: &Tree, levels: u8, text: &mut Vec<u8>) {
    if levels == 0 {
        add(rt, text, b"_");
        return;
    }
    match tree {
        Tree::Whole(number) => {
            let number = format!(in alloc; "{number}").expect(rt, MEMORY);
            add(rt, text, number.as_bytes());
        }
        Tree::Text(found) => show_text(rt, found.bytes(), text),
        Tree::Null => add(rt, text, b"null"),
        Tree::List(items) => {
            add(rt, text, b"[");
            for item in items.as_slice() {
                show(rt, alloc, item, levels - 1, text);
                add(rt, text, b",");
            }
            add(rt, text, b"]");
        }
        Tree::Map(entries) => {
            add(rt, text, b"{");
            for entry in entries.as_slice() {
                show_text(rt, entry.name.bytes(), text);
                add(rt, text, b":");
                show(rt, alloc, &entry.tree, levels - 1, text);
                add(rt, text, b",");
            }
            add(rt, text, b"}");
        }
        _ => add(rt, text, b"!"),
    }
}

/// Adds the text in quotes.
fn show_text(rt: &impl Abort, bytes: &[u8], text: &mut Vec<u8>) {
    add(rt, text, b"\"");
    add(rt, text, bytes);
    add(rt, text, b"\"");
}
