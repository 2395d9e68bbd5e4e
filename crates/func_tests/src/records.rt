//! Records by words. Want of memory and a word that isn't known end the test at once, so that no template is let go on the way.
use mig_schema::{Kind, Name, Template, TemplateBox};
use mig_template::{Field, Presence, Record, Rest};
use std::alloc::Global;
use std::process::Abort;

/// What a test says where memory is wanting.
pub const MEMORY: &str = "out of memory";

/// What was built so far: templates, and the fields and the choice of the next record.
#[derive(Drop)]
struct Builder {
    made: Vec<Template>,
    fields: Vec<Field>,
    choice: Option<(Name, Vec<(Name, Vec<Field>)>, bool)>,
}

pub fn name_of(rt: &impl Abort, alloc: Global, bytes: &[u8]) -> Name {
    Name::new(alloc, bytes).expect(rt, MEMORY)
}

/// A field of the template.
pub fn field(
    rt: &impl Abort,
    alloc: Global,
    name: &[u8],
    presence: Presence,
    template: Template,
) -> Field {
    let name = name_of(rt, alloc, name);
    Field {
        name,
        presence,
        template,
    }
}

/// The template on the heap.
fn boxed(rt: &impl Abort, alloc: Global, template: Template) -> TemplateBox {
    TemplateBox::new(alloc, template).expect(rt, MEMORY)
}

impl Builder {
    fn new(alloc: Global) -> Builder {
        Builder {
            made: Vec::new(alloc),
            fields: Vec::new(alloc),
            choice: None,
        }
    }

    /// The template that was made last.
    fn last(&mut self, rt: &impl Abort) -> Template {
        self.made.pop().expect(rt, "no template")
    }

    /// The fields that stand there, which are then none.
    fn take_fields(&mut self, alloc: Global) -> Vec<Field> {
        std::mem::replace(&mut self.fields, Vec::new(alloc))
    }

    /// Adds a field of the template that was made last.
    fn add_field(&mut self, rt: &impl Abort, alloc: Global, name: &[u8], presence: Presence) {
        let template = self.last(rt);
        let field = field(rt, alloc, name, presence, template);
        self.fields.push(field).expect(rt, MEMORY);
    }

    /// Makes the fields that stand there a case of the literal.
    fn add_case(&mut self, rt: &impl Abort, alloc: Global, tag: &[u8], literal: &[u8]) {
        let fields = self.take_fields(alloc);
        let literal = name_of(rt, alloc, literal);
        let (tag, mut cases, kept) = match self.choice.take() {
            Some(choice) => choice,
            None => (name_of(rt, alloc, tag), Vec::new(alloc), false),
        };
        cases.push((literal, fields)).expect(rt, MEMORY);
        self.choice = Some((tag, cases, kept));
    }

    /// Keeps unknown tags in the choice that stands there.
    fn keep_unknown(&mut self, rt: &impl Abort) {
        let (tag, cases, _) = self.choice.take().expect(rt, "no choice");
        self.choice = Some((tag, cases, true));
    }

    /// A record of what stands there.
    fn record(&mut self, rt: &impl Abort, alloc: Global, rest: Rest) {
        let fields = self.take_fields(alloc);
        let choice = self.choice.take();
        let record = Record::new(alloc, fields, choice, rest).expect(rt, "no record");
        self.push(rt, Template::Rec(record));
    }

    /// A list of the template that was made last.
    fn list(&mut self, rt: &impl Abort, alloc: Global) {
        let part = boxed(rt, alloc, self.last(rt));
        self.push(rt, Template::List(part));
    }

    /// The sum of the two templates that were made last.
    fn sum(&mut self, rt: &impl Abort, alloc: Global) {
        let right = boxed(rt, alloc, self.last(rt));
        let left = boxed(rt, alloc, self.last(rt));
        self.push(rt, Template::Sum(left, right));
    }

    /// Keeps what was made.
    fn push(&mut self, rt: &impl Abort, made: Template) {
        self.made.push(made).expect(rt, MEMORY);
    }

    /// One word: a leaf kind or `any`; `p`, a point at the type `p`; `list`, which takes a template; `or`, which takes two; `.x` and `?x` for a field, which has to be or may be there;
    /// `=ts`, which makes the fields before it those of the case `s` of the tag `t`; `kept`, which keeps that choice's unknown tags; `open` and `closed`,
    /// which make a record of what stands before them.
    fn word(&mut self, rt: &impl Abort, alloc: Global, word: &[u8]) {
        match word {
            b"whole" => self.push(rt, Template::Leaf(Kind::Whole)),
            b"text" => self.push(rt, Template::Leaf(Kind::Text)),
            b"any" => self.push(rt, Template::Any),
            b"p" => self.push(rt, Template::Point(name_of(rt, alloc, b"p"))),
            b"list" => self.list(rt, alloc),
            b"or" => self.sum(rt, alloc),
            b"kept" => self.keep_unknown(rt),
            b"open" => self.record(rt, alloc, Rest::Open),
            b"closed" => self.record(rt, alloc, Rest::Closed),
            [b'.', name @ ..] => self.add_field(rt, alloc, name, Presence::Must),
            [b'?', name @ ..] => self.add_field(rt, alloc, name, Presence::May),
            [b'=', tag, literal] => self.add_case(rt, alloc, &[*tag], &[*literal]),
            _ => panic!(rt; "no such word"),
        }
    }
}

/// The template that the words build.
pub fn template(rt: &impl Abort, alloc: Global, words: &str) -> Template {
    let mut builder = Builder::new(alloc);
    for word in words.split(' ') {
        builder.word(rt, alloc, word.as_bytes());
    }
    builder.last(rt)
}
