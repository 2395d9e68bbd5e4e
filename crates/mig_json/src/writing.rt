//! The canonical text of a tree.
ghost use Rattle.std.specs.Prelude.{◌≡◌, ◌++◌, ◌≤◌, OnOk, IfOk, map, length};
ghost use Rattle.json.specs.Tree.{json_tokens, items_tokens, members_tokens};
ghost use Rattle.serde_json.specs.Data.{depth};
ghost use Rattle.serde_json.specs.Read.{max_depth};
ghost use Rattle.serde_json.specs.Written.{outline, items_outline, members_outline};
ghost use Rattle.mig_model.specs.declared.limits.TheConstants.{MOST_SAVE_BYTES};
ghost use Rattle.mig_model.specs.Plain.{trees_of, pairs_of};
ghost use Rattle.mig_model.specs.Kinds.{IsMap};
ghost use Rattle.mig_tree.specs.View.{plain_of, entry_of};
ghost use Rattle.mig_json.specs.Save.{JsonSave};
ghost use Rattle.mig_json.specs.Kinds.{IsJson, AreJson, ArePairsJson};
ghost use Rattle.mig_json.specs.Writing.{data_of, items_of, members_of, json_text};

use json::{Token, Writer};
use mig_tree::{Entry, Memory, Tree};
use std::alloc::{AllocError, Global};

#[cycle(writing)]
fn write_tree(out: &mut Writer, tree: &Tree) -> Result<(), AllocError>
    requires { IsJson (plain_of tree.now) }
    ensures tokens { OnOk result (out.new.tokens
        ≡ out.old.tokens ++ json_tokens (outline (data_of (plain_of tree.now)))) }
    ensures before { out.new.before ≡ out.old.before }
{
    match tree {
        Tree::Null => out.token(Token::Null),
        Tree::Bool(value) => out.token(Token::Bool(*value)),
        Tree::Whole(number) => out.i64(*number),
        Tree::Text(text) => out.string(unsafe { str::from_utf8_unchecked(text.bytes()) }),
        Tree::List(items) => {
            out.begin_array()?;
            write_items(out, items.as_slice())
        }
        Tree::Map(entries) => {
            out.begin_object()?;
            write_members(out, entries.as_slice())
        }
        _ => unreachable!(),
    }
}

/// The items and the closing bracket.
#[cycle(writing)]
fn write_items(out: &mut Writer, trees: &[Tree]) -> Result<(), AllocError>
    requires { AreJson (trees_of (map plain_of trees.now)) }
    ensures tokens { OnOk result (out.new.tokens
        ≡ out.old.tokens ++ items_tokens (items_outline (items_of (trees_of (map plain_of trees.now))))) }
    ensures before { out.new.before ≡ out.old.before }
{
    for tree in trees {
        write_tree(out, tree)?;
    }
    out.end_array()
}

/// The members and the closing brace.
#[cycle(writing)]
fn write_members(out: &mut Writer, entries: &[Entry]) -> Result<(), AllocError>
    requires { ArePairsJson (pairs_of (map entry_of entries.now)) }
    ensures tokens { OnOk result (out.new.tokens
        ≡ out.old.tokens ++ members_tokens (members_outline (members_of (pairs_of (map entry_of entries.now))))) }
    ensures before { out.new.before ≡ out.old.before }
{
    for entry in entries {
        out.key(unsafe { str::from_utf8_unchecked(entry.name.bytes()) })?;
        write_tree(out, &entry.tree)?;
    }
    out.end_object()
}

/// The canonical text of a map: compact, with names ascending by bytes.
///
/// It has no limit of levels or bytes, but it is read again only within the reader's limits.
pub fn write(alloc: Global, tree: &Tree) -> Result<Vec<u8>, Memory>
    requires map { IsMap (plain_of tree.now) }
    requires json { IsJson (plain_of tree.now) }
    ensures text { IfOk result (λ out. out.items ≡ json_text (plain_of tree.now)) }
    ensures reads_back { IfOk result (λ out. depth (data_of (plain_of tree.now)) ≤ max_depth
        → length out.items ≤ MOST_SAVE_BYTES → JsonSave out.items (plain_of tree.now)) }
{
    tree.keeps();
    let mut out = Writer::new(Vec::with_capacity(alloc, 128)?);
    write_tree(&mut out, tree)?;
    Ok(out.into_inner())
}
