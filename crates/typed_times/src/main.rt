//! Does a part of the way of an NBT save, by a family of its own making, or makes many texts: `bench/typed.py` and `bench/texts.py` time it.
#![tactic(auto)]

mod shapes;
mod texts;

ghost use Rattle.std.specs.Prelude.{◌≡◌, ◌<◌, IfSome, IsTrue};
ghost use Rattle.mig_model.specs.Kinds.{IsMap};
ghost use Rattle.mig_nbt.specs.Writing.{IsName, IsSpelled, save_text};
ghost use Rattle.mig_tree.specs.View.{plain_of};
ghost use Rattle.mig_value.specs.Typed.{out};
ghost use Rattle.mig_value.specs.View.{typed_of};
ghost use Rattle.typed_times.specs.Parts.{IsSave, IsWritten};

use mig_files::{Files, HostFiles};
use mig_model::MOST_SAVE_BYTES;
use mig_schema::{Family, Form};
use mig_tree::{Steps, Text, Tree};
use mig_value::Value;
use std::alloc::Global;
use std::env;
use std::marker::Brand;
use std::process::ExitCode;
use std::sync::ledger::{Blank, Ledger};

/// The name and the tree of a save.
fn save<'a>(alloc: Global, bytes: &'a [u8]) -> Option<(Text<'a>, Tree<'a>)>
    ensures { IfSome result (λ x. IsSave bytes.now x.0 (plain_of x.1)) }
{
    match mig_nbt::read(alloc, bytes) {
        Ok(save) => Some(save),
        Err(_) => None,
    }
}

/// Whether the bytes are a save: they are read, and nothing else.
fn is_save(alloc: Global, bytes: &[u8]) -> bool {
    match save(alloc, bytes) {
        Some(save) => {
            drop(save);
            true
        }
        None => false,
    }
}

/// Whether the family's saves are NBT.
fn is_nbt(family: &Family) -> bool
    ensures { IsTrue result → family.now.form ≡ Form.Nbt }
{
    match family.form() {
        Form::Nbt => true,
        Form::Json => false,
    }
}

/// The name and the typed value of a save, which is read by the root's type.
fn typed<'a>(alloc: Global, family: &Family, bytes: &'a [u8]) -> Option<(Text<'a>, Value<'a>)>
    ensures { IfSome result (λ x. IsSave bytes.now x.0 (out (typed_of x.1))) }
{
    if !is_nbt(family) || !family.is_named(family.root()) {
        return None;
    }
    let (name, tree) = save(alloc, bytes)?;
    match mig_codec::read(alloc, family, family.root(), tree) {
        Ok(value) => Some((name, value)),
        Err(_) => None,
    }
}

/// Whether the bytes are a save that fits.
fn fits(alloc: Global, family: &Family, bytes: &[u8]) -> bool {
    match typed(alloc, family, bytes) {
        Some(value) => {
            drop(value);
            true
        }
        None => false,
    }
}

/// The canonical text of a save.
fn text_of(alloc: Global, name: &[u8], tree: &Tree) -> Option<Vec<u8>>
    requires named { IsName name.now }
    requires map { IsMap (plain_of tree.now) }
    requires spelled { IsSpelled (plain_of tree.now) }
    ensures { IfSome result (λ text. text.items ≡ save_text name.now (plain_of tree.now)) }
{
    match mig_nbt::write(alloc, name, tree) {
        Ok(text) => Some(text),
        Err(_) => None,
    }
}

/// The tree of the value, with a counter of its own.
fn tree_of<'a, L: Ledger>(alloc: Global, value: Value<'a>, blank: Blank) -> Option<Tree<'a>>
    requires name { blank.name ≡ L.name }
    requires parts { blank.parts ≡ L.parts }
    requires some { 0 < L.parts }
    ensures { IfSome result (λ t. plain_of t ≡ out (typed_of value.entry)) }
{
    let mut steps: Steps<L> = Steps::new(blank);
    match mig_codec::write(alloc, value, &mut steps) {
        Ok(tree) => Some(tree),
        Err(_) => None,
    }
}

/// The canonical text of a save that is read by the root's type and written again.
fn written<L: Ledger>(alloc: Global, family: &Family, bytes: &[u8], blank: Blank) -> Option<Vec<u8>>
    requires name { blank.name ≡ L.name }
    requires parts { blank.parts ≡ L.parts }
    requires some { 0 < L.parts }
    ensures { IfSome result (λ text. IsWritten bytes.now text.items) }
{
    let (name, value) = typed(alloc, family, bytes)?;
    let tree = tree_of::<L>(alloc, value, blank)?;
    let text = text_of(alloc, name.bytes(), &tree);
    drop(tree);
    text
}

/// Whether the part of the way could be done.
fn is_done<L: Ledger>(
    alloc: Global,
    part: &str,
    family: &Family,
    bytes: &[u8],
    blank: Blank,
) -> bool
    requires name { blank.name ≡ L.name }
    requires parts { blank.parts ≡ L.parts }
    requires some { 0 < L.parts }
{
    match part {
        "read" => is_save(alloc, bytes),
        "type" => fits(alloc, family, bytes),
        "write" => written::<L>(alloc, family, bytes, blank).is_some(),
        part => texts::are_made(alloc, part, bytes),
    }
}

/// Does what the words `PART SHAPE FOLDER NAME` say, and answers whether it could be done.
fn run_on_host<L: Ledger>(rt: &HostRuntime, words: &[String], blank: Blank) -> Option<bool>
    requires name { blank.name ≡ L.name }
    requires parts { blank.parts ≡ L.parts }
    requires some { 0 < L.parts }
{
    let alloc = rt.alloc();
    let [part, shape, folder, name] = words else {
        return None;
    };
    let family = shapes::family(alloc, shape.as_str())?;
    let mut files = HostFiles::new(rt.clone().ok()?);
    let bytes = files
        .read(alloc, folder.as_str(), name.as_str(), MOST_SAVE_BYTES)
        .ok()?;
    Some(is_done::<L>(alloc, part.as_str(), &family, &bytes, blank))
}

/// The words after the program's name.
fn words_of(rt: &HostRuntime, alloc: Global) -> Option<Vec<String>> {
    let mut words = Vec::new(alloc);
    for word in env::args(rt).ok()?.skip(1) {
        words.push(word).ok()?;
    }
    Some(words)
}

fn main(rt: HostRuntime) -> ExitCode {
    let Some(words) = words_of(&rt, rt.alloc()) else {
        return ExitCode::from(2);
    };
    match run_on_host::<Brand>(&rt, &words, Blank::new(1)) {
        Some(true) => ExitCode::from(0),
        Some(false) => ExitCode::from(1),
        None => ExitCode::from(2),
    }
}
