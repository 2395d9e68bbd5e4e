//! Field functions by words. Want of memory and a word that isn't known end the test at once, so that no function is let go on the way.
use crate::records::{MEMORY, field, name_of, template};
use mig_func::{CaseFields, FieldFn, FieldOp, Fill, Names, Scope};
use mig_leaf::{Const, LeafFn};
use mig_schema::{Kind, Name, Template};
use mig_template::Presence;
use std::alloc::Global;
use std::process::Abort;

/// The word at a place as a name.
fn name_at(rt: &impl Abort, alloc: Global, words: &[Name], at: usize) -> Name {
    let word = words.get(at).expect(rt, "a word is missing");
    word.copy(alloc).expect(rt, MEMORY)
}

/// The names from a place on.
fn names_from(rt: &impl Abort, alloc: Global, words: &[Name], at: usize) -> Names {
    let mut names = Vec::new(alloc);
    for word in words.iter().skip(at) {
        let name = word.copy(alloc).expect(rt, MEMORY);
        names.push(name).expect(rt, MEMORY);
    }
    Names::new(alloc, names).expect(rt, MEMORY)
}

/// An empty list of whole numbers.
fn empty_list(rt: &impl Abort, alloc: Global) -> Fill {
    Fill::EmptyList(template(rt, alloc, "whole"))
}

/// A sum whose sides no kind tells apart.
const UNCLEAR: &str = "any whole or";

/// One field of such a sum.
fn unclear_field(rt: &impl Abort, alloc: Global) -> CaseFields {
    let template = template(rt, alloc, UNCLEAR);
    let field = field(rt, alloc, b"x", Presence::Must, template);
    let fields = vec![in alloc; field].expect(rt, MEMORY);
    CaseFields::new(alloc, fields).expect(rt, MEMORY)
}

/// Fields of whole numbers, of the names from a place on.
fn fields_from(rt: &impl Abort, alloc: Global, words: &[Name], at: usize) -> CaseFields {
    let mut fields = Vec::new(alloc);
    for name in words.iter().skip(at) {
        let whole = Template::Leaf(Kind::Whole);
        let field = field(rt, alloc, name.bytes(), Presence::Must, whole);
        fields.push(field).expect(rt, MEMORY);
    }
    CaseFields::new(alloc, fields).expect(rt, MEMORY)
}

/// An operation on the field of one name. `map` adds 1; `unify` makes a whole number's text and a text's lower-case letters.
fn at_name(rt: &impl Abort, verb: &[u8], name: Name) -> FieldOp {
    match verb {
        b"drop" => FieldOp::Drop(name),
        b"add" => FieldOp::Add(name, Fill::Const(Const::Whole(4))),
        b"learn" => FieldOp::Learn(name, Some(Kind::Text)),
        b"learnany" => FieldOp::Learn(name, None),
        b"forget" => FieldOp::Forget(name),
        b"default" => FieldOp::Default(name, Fill::Const(Const::Whole(4))),
        b"maybe" => FieldOp::MayBe(name),
        b"map" => FieldOp::Map(name, LeafFn::Plus(1)),
        b"unnest" => FieldOp::Unnest(name),
        b"wrap" => FieldOp::Wrap(name),
        b"unify" => FieldOp::Unify(name, LeafFn::ToText, LeafFn::Lower),
        _ => panic!(rt; "no such function"),
    }
}

/// The operation of these words.
fn operation(rt: &impl Abort, alloc: Global, words: &[Name]) -> FieldOp {
    let verb = words.first().expect(rt, "no function").bytes();
    let name = name_at(rt, alloc, words, 1);
    match verb {
        b"rename" => FieldOp::Rename(name, name_at(rt, alloc, words, 2)),
        b"retag" => FieldOp::Retag(name, name_at(rt, alloc, words, 2)),
        b"nest" => FieldOp::Nest(names_from(rt, alloc, words, 2), name),
        b"addcase" => FieldOp::AddCase(name, fields_from(rt, alloc, words, 2)),
        b"addlist" => FieldOp::Add(name, empty_list(rt, alloc)),
        b"defaultlist" => FieldOp::Default(name, empty_list(rt, alloc)),
        b"addunclear" => FieldOp::Add(name, Fill::EmptyList(template(rt, alloc, UNCLEAR))),
        b"addcaseunclear" => FieldOp::AddCase(name, unclear_field(rt, alloc)),
        other => at_name(rt, other, name),
    }
}

/// The words of a text.
fn words_of(rt: &impl Abort, alloc: Global, text: &str) -> Vec<Name> {
    let mut words = Vec::new(alloc);
    for word in text.split(' ') {
        let name = name_of(rt, alloc, word.as_bytes());
        words.push(name).expect(rt, MEMORY);
    }
    words
}

/// The common fields where the literal is empty, and else those of its case.
fn scope(rt: &impl Abort, alloc: Global, literal: &str) -> Scope {
    match literal {
        "" => Scope::Common,
        literal => Scope::Case(name_of(rt, alloc, literal.as_bytes())),
    }
}

/// The function of these words in the scope of the literal.
pub fn function(rt: &impl Abort, alloc: Global, literal: &str, text: &str) -> FieldFn {
    let words = words_of(rt, alloc, text);
    let scope = scope(rt, alloc, literal);
    let op = operation(rt, alloc, &words);
    FieldFn { scope, op }
}
