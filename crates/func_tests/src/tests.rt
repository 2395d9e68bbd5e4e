//! What each field function makes of a text, and where it doesn't fit.
ghost use Rattle.std.specs.Prelude.{◌≡◌, ◌<◌, IsTrue, true};
ghost use Rattle.mig_model.specs.declared.form.Form.TheVariants.{Json};
ghost use Rattle.mig_model.specs.Family.{body, is_named};
ghost use Rattle.mig_model.specs.Inhabits.{is_in_form};
ghost use Rattle.mig_model.specs.Record.{record_of};
ghost use Rattle.mig_tree.specs.View.{plain_of};
ghost use Rattle.mig_value.specs.Fit.{Shape};
ghost use Rattle.mig_value.specs.View.{typed_of};

use crate::functions::function;
use crate::records::{MEMORY, name_of, template};
use crate::shown::show;
use mig_func::{FieldFn, FuncFault};
use mig_schema::{Family, Form, Template, VersionPath};
use mig_template::Record;
use mig_tree::{Memory, Steps, Tree};
use mig_value::Value;
use std::alloc::Global;
use std::marker::Brand;
use std::process::Abort;
use std::sync::ledger::{Blank, Ledger};

/// The value after the function, or none where that doesn't fit the record.
fn applied<'a>(
    rt: &impl Abort,
    alloc: Global,
    function: &FieldFn,
    on: &Record,
    value: Value<'a>,
) -> Option<Value<'a>>
    requires { Shape (record_of on.now) (typed_of value) }
{
    match function.target(alloc, on) {
        Ok(record) => {
            drop(record);
            Some(function.apply(alloc, on, value).expect(rt, MEMORY))
        }
        Err(fault) => {
            assert_eq!(rt; fault, FuncFault::Misfit);
            drop(value);
            None
        }
    }
}

/// The tree of the value, written with a counter of its own.
fn write_alone<'a, L: Ledger>(
    alloc: Global,
    value: Value<'a>,
    blank: Blank,
) -> Result<Tree<'a>, Memory>
    requires name { blank.name ≡ L.name }
    requires parts { blank.parts ≡ L.parts }
    requires some { 0 < L.parts }
{
    let mut steps: Steps<L> = Steps::new(blank);
    mig_codec::write(alloc, value, &mut steps)
}

/// The tree of the value.
fn written<'a>(rt: &impl Abort, alloc: Global, value: Value<'a>) -> Tree<'a> {
    write_alone::<Brand>(alloc, value, Blank::new(1)).expect(rt, MEMORY)
}

/// The family of the one type `p`.
fn family_of(rt: &impl Abort, alloc: Global, body: Template) -> Family {
    let name = name_of(rt, alloc, b"DataVersion");
    let path = vec![in alloc; name].expect(rt, MEMORY);
    let version = VersionPath::new(path).expect(rt, "no path");
    let root = name_of(rt, alloc, b"p");
    let types = vec![in alloc; (name_of(rt, alloc, b"p"), body)].expect(rt, MEMORY);
    Family::new(alloc, Form::Json, version, types, root).expect(rt, "no family")
}

/// The root's record.
fn root_record<'f>(rt: &impl Abort, family: &'f Family) -> &'f Record
    ensures { body family.now family.now.root ≡ record_of result.now }
{
    if let Some(Template::Rec(record)) = family.body(family.root()) {
        return record;
    }
    panic!(rt; "no record")
}

/// The root's record, and the tree read as a value of it.
fn read_root<'f, 'a>(
    rt: &impl Abort,
    alloc: Global,
    family: &'f Family,
    tree: Tree<'a>,
) -> (&'f Record, Value<'a>)
    requires known { IsTrue (is_named family.now family.now.root) }
    requires form { is_in_form family.now.form (plain_of tree) ≡ true }
    ensures { Shape (record_of result.0.now) (typed_of result.1) }
{
    let record = root_record(rt, family);
    let value = mig_codec::read(alloc, family, family.root(), tree).expect(rt, "an unfit tree");
    (record, value)
}

/// The value's tree as a text; `-` where there is none.
fn shown<'a>(rt: &impl Abort, alloc: Global, value: Option<Value<'a>>) -> Vec<u8> {
    let mut text = Vec::new(alloc);
    match value {
        Some(value) => show(rt, alloc, &written(rt, alloc, value), 9, &mut text),
        None => text.push(b'-').expect(rt, MEMORY),
    }
    text
}

/// What the function, and then the second, if there is one, makes of the tree, which is read by the family's root; `-` where it doesn't fit.
fn outcome<'a>(
    rt: &impl Abort,
    alloc: Global,
    family: &Family,
    function: &FieldFn,
    second: Option<&FieldFn>,
    tree: Tree<'a>,
) -> Vec<u8>
    requires known { IsTrue (is_named family.now family.now.root) }
    requires form { is_in_form family.now.form (plain_of tree) ≡ true }
{
    let (record, value) = read_root(rt, alloc, family, tree);
    let Some(second) = second else {
        return shown(rt, alloc, applied(rt, alloc, function, record, value));
    };
    let next = function.target(alloc, record).expect(rt, "no record");
    let value = function.apply(alloc, record, value).expect(rt, MEMORY);
    shown(rt, alloc, applied(rt, alloc, second, &next, value))
}

/// The family is of JSON, and its root one of its types.
fn check_family(rt: &impl Abort, family: &Family)
    ensures known { IsTrue (is_named family.now family.now.root) }
    ensures form { family.now.form ≡ Json }
{
    assert!(rt; family.form() == Form::Json);
    assert!(rt; family.is_named(family.root()));
}

/// The function, and then the second, if there is one, makes this of the JSON text.
fn check_text(
    rt: &impl Abort,
    alloc: Global,
    family: &Family,
    function: &FieldFn,
    second: Option<&FieldFn>,
    text: &str,
    want: &str,
) {
    check_family(rt, family);
    let document = mig_json::parse(alloc, text.as_bytes()).expect(rt, "no JSON");
    let tree = document.tree(alloc).expect(rt, MEMORY);
    let copy = function.copy(alloc).expect(rt, MEMORY);
    let found = outcome(rt, alloc, family, &copy, second, tree);
    assert_eq!(rt; found.as_slice(), want.as_bytes());
}

/// Each row: the record, the literal of the scope, the function, a text, and what comes of it.
fn check(rt: &impl Abort, alloc: Global, table: &[(&str, &str, &str, &str, &str)]) {
    for (record, literal, words, text, want) in table {
        let family = family_of(rt, alloc, template(rt, alloc, record));
        let function = function(rt, alloc, literal, words);
        check_text(rt, alloc, &family, &function, None, text, want);
    }
}

#[test]
fn names_change(rt: HostRuntime) {
    check(
        &rt,
        rt.alloc(),
        &[
            (
                "whole .x open",
                "",
                "rename x y",
                r#"{"x":1,"y":"old"}"#,
                r#"{"y":1,}"#,
            ),
            (
                "whole .x whole .y open",
                "",
                "rename x y",
                r#"{"x":1,"y":2}"#,
                "-",
            ),
            ("whole .x open", "", "rename x x", r#"{"x":1}"#, "-"),
            (
                "whole .x open",
                "",
                "drop x",
                r#"{"x":1,"z":2}"#,
                r#"{"z":2,}"#,
            ),
            ("whole .x open", "", "drop y", r#"{"x":1}"#, "-"),
            (
                "whole .x open",
                "",
                "add y",
                r#"{"x":1,"y":[]}"#,
                r#"{"x":1,"y":4,}"#,
            ),
            (
                "whole .x open",
                "",
                "addlist y",
                r#"{"x":1}"#,
                r#"{"x":1,"y":[],}"#,
            ),
            ("whole .x open", "", "add x", r#"{"x":1}"#, "-"),
            ("whole .x open", "", "addunclear y", r#"{"x":1}"#, "-"),
        ],
    );
}

#[test]
fn fields_are_learned_and_forgotten(rt: HostRuntime) {
    check(
        &rt,
        rt.alloc(),
        &[
            ("open", "", "learn k", r#"{"k":3}"#, "{}"),
            ("open", "", "learn k", r#"{"k":"a"}"#, r#"{"k":"a",}"#),
            ("open", "", "learnany k", r#"{"k":[3]}"#, r#"{"k":[3,],}"#),
            ("whole .x closed", "", "learn k", r#"{"x":1}"#, "-"),
            ("whole .x open", "", "forget x", r#"{"x":1}"#, r#"{"x":1,}"#),
            ("whole .x closed", "", "forget x", r#"{"x":1}"#, "-"),
            ("whole ?x closed", "", "default x", "{}", r#"{"x":4,}"#),
            (
                "whole ?x closed",
                "",
                "default x",
                r#"{"x":1}"#,
                r#"{"x":1,}"#,
            ),
            (
                "whole list ?x closed",
                "",
                "defaultlist x",
                "{}",
                r#"{"x":[],}"#,
            ),
            ("text ?x closed", "", "default x", "{}", "-"),
            (
                "whole .x closed",
                "",
                "maybe x",
                r#"{"x":1}"#,
                r#"{"x":1,}"#,
            ),
            ("whole ?x closed", "", "maybe x", "{}", "-"),
        ],
    );
}

#[test]
fn leaves_change(rt: HostRuntime) {
    check(
        &rt,
        rt.alloc(),
        &[
            ("whole .x open", "", "map x", r#"{"x":1}"#, r#"{"x":2,}"#),
            ("text .x open", "", "map x", r#"{"x":"a"}"#, "-"),
            (
                "whole .x open",
                "",
                "wrap x",
                r#"{"x":1}"#,
                r#"{"x":[1,],}"#,
            ),
            ("whole .x open", "", "wrap y", r#"{"x":1}"#, "-"),
            (
                "whole text or .x open",
                "",
                "unify x",
                r#"{"x":7}"#,
                r#"{"x":"7",}"#,
            ),
            (
                "whole text or .x open",
                "",
                "unify x",
                r#"{"x":"A"}"#,
                r#"{"x":"a",}"#,
            ),
            ("text whole or .x open", "", "unify x", r#"{"x":7}"#, "-"),
        ],
    );
}

#[test]
fn fields_nest(rt: HostRuntime) {
    check(
        &rt,
        rt.alloc(),
        &[
            (
                "whole .a whole .b open",
                "",
                "nest a b a",
                r#"{"a":1,"b":2,"c":3}"#,
                r#"{"a":{"a":1,"b":2,},"c":3,}"#,
            ),
            (
                "whole .a open",
                "",
                "nest y a",
                r#"{"a":1,"y":2}"#,
                r#"{"y":{"a":1,},}"#,
            ),
            ("whole .a open", "", "nest y a a", r#"{"a":1}"#, "-"),
            (
                "whole .p whole ?q open .p open",
                "",
                "unnest p",
                r#"{"p":{"p":1,"z":5},"q":9}"#,
                r#"{"p":1,}"#,
            ),
            (
                "whole .q open .p whole .q open",
                "",
                "unnest p",
                r#"{"p":{"q":1},"q":9}"#,
                "-",
            ),
        ],
    );
}

#[test]
fn choices_change(rt: HostRuntime) {
    check(
        &rt,
        rt.alloc(),
        &[
            (
                "=ta closed",
                "",
                "retag a b",
                r#"{"t":"a"}"#,
                r#"{"t":"b",}"#,
            ),
            ("=ta =tb closed", "", "retag a b", r#"{"t":"a"}"#, "-"),
            (
                "=ta closed",
                "",
                "addcase b x",
                r#"{"t":"a"}"#,
                r#"{"t":"a",}"#,
            ),
            ("=ta closed", "", "addcase b x x", r#"{"t":"a"}"#, "-"),
            (
                "whole .x =ta closed",
                "a",
                "rename x y",
                r#"{"t":"a","x":1}"#,
                r#"{"t":"a","y":1,}"#,
            ),
            (
                "whole .x =ta =tb closed",
                "a",
                "rename x y",
                r#"{"t":"b"}"#,
                r#"{"t":"b",}"#,
            ),
            (
                "whole .x =ta closed",
                "c",
                "rename x y",
                r#"{"t":"a","x":1}"#,
                "-",
            ),
            ("=ta closed", "a", "retag a b", r#"{"t":"a"}"#, "-"),
            (
                "=ta kept closed",
                "",
                "retag a b",
                r#"{"t":"a"}"#,
                r#"{"t":"b",}"#,
            ),
            (
                "whole .y =ta whole .x kept closed",
                "",
                "rename x z",
                r#"{"k":2,"t":"q","x":1,"y":3}"#,
                r#"{"k":2,"t":"q","y":3,"z":1,}"#,
            ),
            (
                "whole .y =ta kept closed",
                "a",
                "rename y z",
                r#"{"t":"q","y":3}"#,
                r#"{"t":"q","y":3,}"#,
            ),
            ("=ta closed", "", "addcaseunclear b", r#"{"t":"a"}"#, "-"),
        ],
    );
}

/// Each function in the scope of a case, where the tag is the case's literal and where it is another.
#[test]
fn functions_act_on_a_case(rt: HostRuntime) {
    let leaf = "whole .x =ta whole .x =tb open";
    let may = "whole ?x =ta whole ?x =tb open";
    let sum = "whole text or .x =ta whole .x =tb open";
    let inner = "whole .q open .x =ta whole .x =tb open";
    let given = r#"{"t":"a","x":1}"#;
    let other = r#"{"t":"b","x":1}"#;
    let stays = r#"{"t":"b","x":1,}"#;
    check(
        &rt,
        rt.alloc(),
        &[
            (leaf, "a", "drop x", given, r#"{"t":"a",}"#),
            (leaf, "a", "drop x", other, stays),
            (leaf, "a", "add y", given, r#"{"t":"a","x":1,"y":4,}"#),
            (leaf, "a", "add y", other, stays),
            (
                leaf,
                "a",
                "learn y",
                r#"{"t":"a","x":1,"y":2}"#,
                r#"{"t":"a","x":1,}"#,
            ),
            (
                leaf,
                "a",
                "learn y",
                r#"{"t":"b","x":1,"y":2}"#,
                r#"{"t":"b","x":1,"y":2,}"#,
            ),
            (leaf, "a", "forget x", given, r#"{"t":"a","x":1,}"#),
            (leaf, "a", "forget x", other, stays),
            (may, "a", "default x", r#"{"t":"a"}"#, r#"{"t":"a","x":4,}"#),
            (may, "a", "default x", r#"{"t":"b"}"#, r#"{"t":"b",}"#),
            (leaf, "a", "maybe x", given, r#"{"t":"a","x":1,}"#),
            (leaf, "a", "maybe x", other, stays),
            (leaf, "a", "map x", given, r#"{"t":"a","x":2,}"#),
            (leaf, "a", "map x", other, stays),
            (leaf, "a", "nest y x", given, r#"{"t":"a","y":{"x":1,},}"#),
            (leaf, "a", "nest y x", other, stays),
            (
                inner,
                "a",
                "unnest x",
                r#"{"t":"a","x":{"q":3}}"#,
                r#"{"q":3,"t":"a",}"#,
            ),
            (inner, "a", "unnest x", other, stays),
            (leaf, "a", "wrap x", given, r#"{"t":"a","x":[1,],}"#),
            (leaf, "a", "wrap x", other, stays),
            (sum, "a", "unify x", given, r#"{"t":"a","x":"1",}"#),
            (sum, "a", "unify x", other, stays),
        ],
    );
}

#[test]
fn absent_fields_stay_absent(rt: HostRuntime) {
    check(
        &rt,
        rt.alloc(),
        &[
            ("whole ?x open", "", "map x", r#"{"y":1}"#, r#"{"y":1,}"#),
            ("whole ?x open", "", "wrap x", r#"{"y":1}"#, r#"{"y":1,}"#),
            (
                "whole text or ?x open",
                "",
                "unify x",
                r#"{"y":1}"#,
                r#"{"y":1,}"#,
            ),
            (
                "whole .q open ?p open",
                "",
                "unnest p",
                r#"{"q":9,"z":1}"#,
                r#"{"z":1,}"#,
            ),
        ],
    );
}

/// What was forgotten is learned again with the trees of named types in it, which nothing opens.
#[test]
fn a_forgotten_field_is_learned(rt: HostRuntime) {
    let alloc = rt.alloc();
    let family = family_of(&rt, alloc, template(&rt, alloc, "p ?x whole ?n open"));
    let forget = function(&rt, alloc, "", "forget x");
    let learn = function(&rt, alloc, "", "learnany x");
    check_text(
        &rt,
        alloc,
        &family,
        &forget,
        Some(&learn),
        r#"{"n":1,"x":{"n":2,"x":{"k":3}}}"#,
        r#"{"n":1,"x":{"n":2,"x":{"k":3,},},}"#,
    );
    let number = function(&rt, alloc, "", "learn x");
    check_text(
        &rt,
        alloc,
        &family,
        &forget,
        Some(&number),
        r#"{"n":1,"x":{"n":2}}"#,
        r#"{"n":1,}"#,
    );
}

#[test]
fn kept_saves_are_settled(rt: HostRuntime) {
    let kept = "text .l whole ?n any ?z =ta whole .p kept closed";
    let open = "text .l whole ?n any ?z =ta whole .p kept open";
    check(
        &rt,
        rt.alloc(),
        &[
            (
                kept,
                "",
                "retag a b",
                r#"{"l":7,"n":3,"p":2,"q":null,"t":"b","z":[1]}"#,
                r#"{"l":"","n":3,"p":2,"t":"b","z":[1,],}"#,
            ),
            (
                open,
                "",
                "retag a b",
                r#"{"l":"A","n":"no","p":2,"q":1,"t":"b"}"#,
                r#"{"l":"A","p":2,"q":1,"t":"b",}"#,
            ),
            (
                kept,
                "",
                "retag a b",
                r#"{"l":7,"p":2,"q":1,"t":"c"}"#,
                r#"{"l":7,"p":2,"q":1,"t":"c",}"#,
            ),
            (
                "whole list .l =ta kept closed",
                "",
                "retag a b",
                r#"{"l":[1],"t":"a"}"#,
                "-",
            ),
            (
                "any .l =ta kept closed",
                "",
                "retag a b",
                r#"{"l":[1],"t":"a"}"#,
                "-",
            ),
            (
                "=ta kept closed",
                "",
                "addcase b y x",
                r#"{"t":"b","x":"no","z":1}"#,
                r#"{"t":"b","x":0,"y":0,}"#,
            ),
            (
                "=ta kept closed",
                "",
                "addcase b x",
                r#"{"t":"c","x":"no"}"#,
                r#"{"t":"c","x":"no",}"#,
            ),
        ],
    );
}
