//! What fits is written as it was, and the first wrong place of what doesn't is told.
ghost use Rattle.std.specs.Prelude.{◌≡◌, ◌<◌, IfOk, IsTrue, true};
ghost use Rattle.mig_json.specs.Kinds.{IsJson};
ghost use Rattle.mig_model.specs.declared.form.Form.TheVariants.{Json};
ghost use Rattle.mig_model.specs.Family.{is_named};
ghost use Rattle.mig_model.specs.Inhabits.{is_in_form};
ghost use Rattle.mig_model.specs.Kinds.{IsMap};
ghost use Rattle.mig_tree.specs.View.{plain_of};

use crate::families::{MEMORY, closed_world, level, note, player, world};
use mig_codec::ReadFault;
use mig_schema::{Family, Form};
use mig_tree::{Steps, Tree};
use std::alloc::Global;
use std::marker::Brand;
use std::process::Abort;
use std::sync::ledger::{Blank, Ledger};

/// Reads a tree by the root's type and writes what was read, with a counter of its own.
fn read_and_write<'a, L: Ledger>(
    alloc: Global,
    family: &Family,
    tree: Tree<'a>,
    blank: Blank,
) -> Result<Tree<'a>, ReadFault>
    requires known { IsTrue (is_named family.now family.now.root) }
    requires form { is_in_form family.now.form (plain_of tree) ≡ true }
    requires name { blank.name ≡ L.name }
    requires parts { blank.parts ≡ L.parts }
    requires some { 0 < L.parts }
    ensures { IfOk result (λ t. plain_of t ≡ plain_of tree.entry) }
{
    let mut steps: Steps<L> = Steps::new(blank);
    let value = mig_codec::read(alloc, family, family.root(), tree)?;
    Ok(mig_codec::write(alloc, value, &mut steps)?)
}

fn read_alone<'a>(alloc: Global, family: &Family, tree: Tree<'a>) -> Result<Tree<'a>, ReadFault>
    requires known { IsTrue (is_named family.now family.now.root) }
    requires form { is_in_form family.now.form (plain_of tree) ≡ true }
    ensures { IfOk result (λ t. plain_of t ≡ plain_of tree.entry) }
{
    read_and_write::<Brand>(alloc, family, tree, Blank::new(1))
}

/// The place that is wrong, as a text.
fn place_text(rt: &impl Abort, alloc: Global, fault: &ReadFault) -> Vec<u8> {
    match fault {
        ReadFault::Unfit(place) => place.text(alloc).expect(rt, MEMORY),
        ReadFault::Memory => panic!(rt; "out of memory"),
    }
}

/// The JSON text of what was read and written of a tree, or the place that is wrong.
fn outcome(rt: &impl Abort, alloc: Global, family: &Family, tree: Tree) -> Vec<u8>
    requires known { IsTrue (is_named family.now family.now.root) }
    requires form { is_in_form family.now.form (plain_of tree) ≡ true }
    requires map { IsMap (plain_of tree) }
    requires json { IsJson (plain_of tree) }
{
    match read_alone(alloc, family, tree) {
        Ok(tree) => mig_json::write(alloc, &tree).expect(rt, MEMORY),
        Err(fault) => place_text(rt, alloc, &fault),
    }
}

/// Where the tree is wrong, and `fits` where it isn't.
fn wrong_place(rt: &impl Abort, alloc: Global, family: &Family, tree: Tree) -> Vec<u8>
    requires known { IsTrue (is_named family.now family.now.root) }
    requires form { is_in_form family.now.form (plain_of tree) ≡ true }
{
    match read_alone(alloc, family, tree) {
        Ok(tree) => {
            drop(tree);
            vec![in alloc; b'f', b'i', b't', b's'].expect(rt, MEMORY)
        }
        Err(fault) => place_text(rt, alloc, &fault),
    }
}

/// The family is of JSON, and its root one of its types.
fn check_family(rt: &impl Abort, family: &Family)
    ensures known { IsTrue (is_named family.now family.now.root) }
    ensures form { family.now.form ≡ Json }
{
    assert!(rt; family.form() == Form::Json);
    assert!(rt; family.is_named(family.root()));
}

/// The text gives what is wanted.
fn check_text(rt: &impl Abort, alloc: Global, family: &Family, text: &str, want: &str) {
    check_family(rt, family);
    let document = mig_json::parse(alloc, text.as_bytes()).expect(rt, "no JSON");
    let tree = document.tree(alloc).expect(rt, MEMORY);
    let found = outcome(rt, alloc, family, tree);
    assert_eq!(rt; found.as_slice(), want.as_bytes());
}

/// Where the tree of the text is wrong once its version is taken out.
fn check_stripped(rt: &impl Abort, alloc: Global, family: &Family, text: &str, want: &str) {
    check_family(rt, family);
    let document = mig_json::parse(alloc, text.as_bytes()).expect(rt, "no JSON");
    let mut tree = document.tree(alloc).expect(rt, MEMORY);
    drop(family.version_path().strip(&mut tree));
    let found = wrong_place(rt, alloc, family, tree);
    assert_eq!(rt; found.as_slice(), want.as_bytes());
}

/// Each text gives what stands beside it.
fn check(rt: &impl Abort, alloc: Global, family: &Family, table: &[(&str, &str)]) {
    for (text, want) in table {
        check_text(rt, alloc, family, text, want);
    }
}

/// Each text fits and is written as it was.
fn check_kept(rt: &impl Abort, alloc: Global, family: &Family, texts: &[&str]) {
    for text in texts {
        check_text(rt, alloc, family, text, text);
    }
}

#[test]
fn what_fits_is_written_as_it_was(rt: HostRuntime) {
    let alloc = rt.alloc();
    check_kept(
        &rt,
        alloc,
        &world(&rt, alloc),
        &[
            r#"{"blocks":[]}"#,
            r#"{"blocks":[{"id":"sign","line":"hi","pos":1},{"id":"chest","items":[],"pos":2}]}"#,
            r#"{"blocks":[{"id":"sign","items":3,"line":"hi","pos":1,"zap":null}],"name":"x"}"#,
        ],
    );
    check_kept(
        &rt,
        alloc,
        &player(&rt, alloc),
        &[
            r#"{"bag":{"slot":{"item":{"id":"A"}}}}"#,
            r#"{"bag":{"slot":{"item":{"count":1,"id":"A"},"z":[]}}}"#,
        ],
    );
    check_kept(
        &rt,
        alloc,
        &note(&rt, alloc),
        &[
            r#"{"line":"a"}"#,
            r#"{"line":"a","mark":[1,"x"]}"#,
            r#"{"line":["a"],"mark":{"x":[null,1]},"more":{"line":[],"more":{"line":"b"}}}"#,
        ],
    );
}

#[test]
fn a_tag_that_is_no_literal_is_wrong(rt: HostRuntime) {
    check(
        &rt,
        rt.alloc(),
        &world(&rt, rt.alloc()),
        &[
            (
                r#"{"blocks":[{"id":"bed","line":"hi","pos":1},{"id":"chest","items":[],"pos":2}]}"#,
                "/blocks/0/id",
            ),
            (r#"{"blocks":[{"line":"hi","pos":1}]}"#, "/blocks/0/id"),
            (
                r#"{"blocks":[{"id":4,"line":"hi","pos":1}]}"#,
                "/blocks/0/id",
            ),
        ],
    );
}

#[test]
fn an_unknown_tag_is_kept_as_it_was(rt: HostRuntime) {
    let alloc = rt.alloc();
    check_kept(
        &rt,
        alloc,
        &closed_world(&rt, alloc, true),
        &[
            r#"{"blocks":[{"id":"bed","pos":1,"z":true}]}"#,
            r#"{"blocks":[{"id":"bed","pos":1},{"id":"sign","line":7,"n":3,"pos":2,"q":null}]}"#,
            r#"{"blocks":[{"id":"chest","items":[],"pos":2}]}"#,
        ],
    );
}

#[test]
fn a_kept_tag_is_a_text_and_common_fields_stay_wrong(rt: HostRuntime) {
    let alloc = rt.alloc();
    check(
        &rt,
        alloc,
        &closed_world(&rt, alloc, true),
        &[
            (r#"{"blocks":[{"id":4,"pos":1}]}"#, "/blocks/0/id"),
            (r#"{"blocks":[{"pos":1}]}"#, "/blocks/0/id"),
            (r#"{"blocks":[{"id":"bed","z":true}]}"#, "/blocks/0/pos"),
            (r#"{"blocks":[{"id":"bed","pos":"x"}]}"#, "/blocks/0/pos"),
            (
                r#"{"blocks":[{"id":"chest","items":[],"pos":2,"z":true}]}"#,
                "/blocks/0/z",
            ),
        ],
    );
    check(
        &rt,
        alloc,
        &closed_world(&rt, alloc, false),
        &[(
            r#"{"blocks":[{"id":"bed","pos":1,"z":true}]}"#,
            "/blocks/0/id",
        )],
    );
}

#[test]
fn a_version_below_the_root_is_taken_out_first(rt: HostRuntime) {
    let alloc = rt.alloc();
    let family = level(&rt, alloc);
    let save = r#"{"Data":{"DataVersion":100,"LevelName":"w"}}"#;
    check(&rt, alloc, &family, &[(save, "/Data/DataVersion")]);
    for (text, want) in [
        (save, "fits"),
        (r#"{"Data":{"DataVersion":100}}"#, "/Data/LevelName"),
        (r#"{"DataVersion":100}"#, "/Data"),
    ] {
        check_stripped(&rt, alloc, &family, text, want);
    }
}

#[test]
fn the_first_wrong_place_is_told(rt: HostRuntime) {
    check(
        &rt,
        rt.alloc(),
        &world(&rt, rt.alloc()),
        &[
            (r#"{"name":4}"#, "/blocks"),
            (r#"{"blocks":3,"name":4}"#, "/blocks"),
            (r#"{"blocks":[7]}"#, "/blocks/0"),
            (
                r#"{"blocks":[{"id":"sign","line":1,"pos":1}]}"#,
                "/blocks/0/line",
            ),
            (r#"{"blocks":[{"id":"sign","pos":"x"}]}"#, "/blocks/0/line"),
            (
                r#"{"blocks":[{"id":"chest","items":3}]}"#,
                "/blocks/0/items",
            ),
            (
                r#"{"blocks":[{"id":"chest","items":[],"pos":1},{"id":"chest","items":["a",2],"pos":1}]}"#,
                "/blocks/1/items/1",
            ),
        ],
    );
}

#[test]
fn a_wrong_place_lies_in_a_side(rt: HostRuntime) {
    check(
        &rt,
        rt.alloc(),
        &note(&rt, rt.alloc()),
        &[
            (r#"{"line":1}"#, "/line"),
            (r#"{"line":["a",1]}"#, "/line/1"),
            (r#"{"line":"a","zap":1}"#, "/zap"),
        ],
    );
}

#[test]
fn a_wrong_place_lies_behind_points(rt: HostRuntime) {
    let alloc = rt.alloc();
    check(
        &rt,
        alloc,
        &player(&rt, alloc),
        &[
            (r#"{"bag":{}}"#, "/bag/slot"),
            (r#"{"bag":{"slot":{"item":{"id":1}}}}"#, "/bag/slot/item/id"),
        ],
    );
    check(
        &rt,
        alloc,
        &note(&rt, alloc),
        &[(
            r#"{"line":"a","more":{"line":"b","more":{"mark":1}}}"#,
            "/more/more/line",
        )],
    );
}
