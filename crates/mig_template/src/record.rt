//! Records: their parts, and records with other templates in the same places.
ghost use Rattle.std.specs.Prelude.{◌≡◌, ◌↔◌, Some, false, length, map, option_map, IfOk, IfErr, IsTrue};
ghost use Rattle.mig_model.specs.Record.{IsRecordOf, is_twice_named, has_no_case, choice_of};
ghost use Rattle.mig_template.specs.Fault.{IsRecordFault};
ghost use Rattle.mig_model.specs.Template.{cases_of};
ghost use Rattle.mig_model.specs.TemplateKept.{FieldListKept, CasesKept, ChoiceKept};
ghost use Rattle.mig_template.specs.Retyped.{HavePlaces, with_templates, choice_with, record_with, cases_or_none};
ghost use Rattle.mig_template.specs.View.{template_of, field_of, case_of, given_choice, given_templates};

use crate::cases::order_cases;
use crate::ordering::order_fields;
use crate::{Field, Fields, Memory, Name, RecordFault, Rest, Template};
use mig_model::Keyed;
use std::alloc::Global;
use std::marker::Model;

/// The fields that a record has where its tag is the literal.
#[cycle(template)]
#[derive(Debug, Drop)]
pub struct Case {
    pub literal: Name,
    pub fields: Fields,
}

impl Keyed for Case {
    ghost key = { λ c. c.literal };

    fn key(&self) -> &[u8] {
        self.literal.bytes()
    }
}

/// The name of a tag, a case for each of its literals, and whether a tag that is no literal is kept. Contracts see these three.
#[cycle(template)]
#[derive(Debug)]
pub struct Choice {
    tag: Name,
    cases: Vec<Case>,
    kept: bool,
}

impl Drop for Choice {
    #[cycle(drops)]
    fn drop(self) {
        let Choice {
            tag,
            cases,
            kept: _,
        } = self;
        drop(tag);
        drop(cases);
    }
}

/// A record: fields that each of its maps has, a choice between cases by a tag, and whether other names may stand there. Contracts see its parts as lists.
#[cycle(template)]
#[derive(Debug)]
pub struct Record {
    fields: Fields,
    choice: Option<Choice>,
    rest: Rest,
}

impl Drop for Record {
    #[cycle(drops)]
    fn drop(self) {
        let Record {
            fields,
            choice,
            rest: _,
        } = self;
        drop(fields);
        drop(choice);
    }
}

impl Model for Choice {
    ghost use Rattle.std.specs.Prelude.{map};
    ghost use Rattle.mig_model.specs.Record.{Cases};
    ghost use Rattle.mig_template.specs.Code.{coded_choice};

    ghost Value = { Cases };

    ghost coded = { coded_choice };

    ghost use Rattle.mig_model.specs.Record.{IsRecordOf, is_twice_named, has_no_case};
    ghost use Rattle.mig_template.specs.Fault.{IsRecordFault};
    ghost use Rattle.mig_template.specs.View.{field_of, case_of, given_choice};

    ghost view = { λ a. (a.tag, map case_of a.cases.items, a.kept) };

    ghost use Rattle.mig_template.specs.Size.{cases_in_size};

    ghost size = { cases_in_size };

    ghost use Rattle.std.proofs.Common.{arith};
    ghost use Rattle.mig_template.specs.Falls.{most_cases};

    ghost size_decreases = { λ a h. omega (arith, most_cases a.cases.items) };
}

impl Model for Record {
    ghost use Rattle.mig_model.specs.Record.{RecordParts};
    ghost use Rattle.mig_template.specs.Code.{coded_record};

    ghost Value = { RecordParts };

    ghost coded = { coded_record };

    ghost view = { λ a. record { fields = a.fields; choice = a.choice; rest = a.rest } };

    ghost use Rattle.mig_model.specs.TemplateKept.{RecordKept};

    ghost invariant = { λ a. RecordKept (record { fields = a.fields; choice = a.choice; rest = a.rest }) };

    ghost use Rattle.mig_template.specs.Size.{record_size};

    ghost size = { record_size };

    ghost use Rattle.std.proofs.Common.{arith};

    ghost size_decreases = { λ a h. Prim.grind arith };
}

impl Case {
    /// The case with other templates, in the order of its fields. A field without one gets a copy of its own.
    fn with_templates(
        &self,
        alloc: Global,
        templates: Vec<Option<Template>>,
    ) -> Result<Case, Memory>
        requires { length templates.items ≡ length self.now.fields }
        ensures case { IfOk result (λ c. case_of c
            ≡ (self.now.literal, with_templates (given_templates templates) self.now.fields)) }
        ensures keep { IfOk result (λ c. FieldListKept c.fields) }
    {
        let literal = self.literal.copy(alloc)?;
        let fields = self.fields.with_templates(alloc, templates)?;
        fields.keeps();
        Ok(Case { literal, fields })
    }

    /// Whether the two are equal.
    #[cycle(same)]
    pub fn same(&self, other: &Case) -> bool
        ensures { IsTrue result ↔ (case_of self.now ≡ case_of other.now) }
    {
        self.literal.bytes() == other.literal.bytes() && self.fields.same(&other.fields)
    }
}

impl Choice {
    ghost use Rattle.mig_model.specs.Record.{choice_of};

    /// The choice of a tag's name and cases in the order of their literals.
    pub fn new(tag: Name, cases: Vec<Case>, kept: bool) -> Choice
        ensures { result ≡ (tag, map case_of cases.items, kept) }
    {
        Choice { tag, cases, kept }
    }

    /// The name of the tag.
    pub fn tag(&self) -> &Name
        ensures { result.now ≡ self.now.0 }
    {
        &self.tag
    }

    /// The cases, ascending by literal.
    pub fn cases(&self) -> &[Case]
        ensures { map case_of result.now ≡ self.now.1 }
    {
        self.cases.as_slice()
    }

    /// Whether a tag that is no literal is kept: then it may be any other text.
    pub fn kept(&self) -> bool
        ensures { result ≡ self.now.2 }
    {
        self.kept
    }

    /// Gives the tag's name, the cases, and whether other tags are kept.
    pub fn into_parts(self) -> (Name, Vec<Case>, bool)
        ensures tag { result.0 ≡ self.0 }
        ensures cases { map case_of result.1.items ≡ self.1 }
        ensures kept { result.2 ≡ self.2 }
    {
        let Choice { tag, cases, kept } = self;
        (tag, cases, kept)
    }

    /// The choice with other templates, for each case in order a list as for its fields.
    fn with_templates(
        &self,
        alloc: Global,
        templates: Vec<Vec<Option<Template>>>,
    ) -> Result<Choice, Memory>
        requires { HavePlaces (map given_templates templates.items) self.now.1 }
        ensures choice { IfOk result (λ c. c ≡ choice_with (map given_templates templates.items) self.now) }
        ensures keep { IfOk result (λ c. CasesKept (cases_of c.1)) }
    {
        let tag = self.tag().copy(alloc)?;
        let given = self.cases();
        let mut cases = Vec::new(alloc);
        for list in templates {
            let case = &given[cases.len()];
            cases.push(case.with_templates(alloc, list)?)?;
        }
        Ok(Choice {
            tag,
            cases,
            kept: self.kept(),
        })
    }

    /// An equal choice.
    #[cycle(copy)]
    pub fn copy(&self, alloc: Global) -> Result<Choice, Memory>
        ensures { IfOk result (λ c. c ≡ self.now) }
    {
        let tag = self.tag().copy(alloc)?;
        let mut cases = Vec::new(alloc);
        for case in self.cases() {
            let literal = case.literal.copy(alloc)?;
            let fields = case.fields.copy(alloc)?;
            cases.push(Case { literal, fields })?;
        }
        Ok(Choice {
            tag,
            cases,
            kept: self.kept(),
        })
    }

    /// Whether the two are equal.
    #[cycle(same)]
    pub fn same(&self, other: &Choice) -> bool
        ensures { IsTrue result ↔ (self.now ≡ other.now) }
    {
        if self.tag().bytes() != other.tag().bytes() || self.kept() != other.kept() {
            return false;
        }
        let list = self.cases();
        let others = other.cases();
        if list.len() != others.len() {
            return false;
        }
        for at in 0..list.len() {
            let one = &list[at];
            let another = &others[at];
            if !one.same(another) {
                return false;
            }
        }
        true
    }
}

impl Record {
    /// The record with other templates: a list as for its common fields, and for each case in order one as for the case's. It copies the names, and the templates of fields without another.
    pub fn with_templates(
        &self,
        alloc: Global,
        common: Vec<Option<Template>>,
        cased: Vec<Vec<Option<Template>>>,
    ) -> Result<Record, Memory>
        requires common { length common.items ≡ length self.now.fields }
        requires cased { HavePlaces (map given_templates cased.items) (cases_or_none self.now.choice) }
        ensures { IfOk result (λ r. r
            ≡ record_with (given_templates common) (map given_templates cased.items) self.now) }
    {
        self.keeps();
        let fields = self.fields().with_templates(alloc, common)?;
        fields.keeps();
        let choice = self.choice_with(alloc, cased)?;
        Ok(Record {
            fields,
            choice,
            rest: self.rest(),
        })
    }

    /// The choice with other templates, if there is one.
    fn choice_with(
        &self,
        alloc: Global,
        templates: Vec<Vec<Option<Template>>>,
    ) -> Result<Option<Choice>, Memory>
        requires { HavePlaces (map given_templates templates.items) (cases_or_none self.now.choice) }
        ensures choice { IfOk result (λ c. c
            ≡ option_map (choice_with (map given_templates templates.items)) self.now.choice) }
        ensures keep { IfOk result (λ c. ChoiceKept (choice_of c)) }
    {
        match self.choice() {
            Some(choice) => Ok(Some(choice.with_templates(alloc, templates)?)),
            None => Ok(None),
        }
    }

    /// The record of these parts, which may come in any order; the bool says whether a tag that is no literal is kept. The rules are this project's own.
    pub fn new(
        alloc: Global,
        fields: Vec<Field>,
        choice: Option<(Name, Vec<(Name, Vec<Field>)>, bool)>,
        rest: Rest,
    ) -> Result<Record, RecordFault>
        ensures made { IfOk result (IsRecordOf (map field_of fields.items) (given_choice choice) rest) }
        ensures once { IfOk result (λ r. is_twice_named (map field_of fields.items) (given_choice choice) ≡ false) }
        ensures some { IfOk result (λ r. has_no_case (given_choice choice) ≡ false) }
        ensures fault { IfErr result (λ e.
            IsRecordFault e (is_twice_named (map field_of fields.items) (given_choice choice)) (has_no_case
            (given_choice choice))) }
    {
        let Some(fields) = order_fields(fields) else {
            return Err(RecordFault::TwiceNamed);
        };
        let Some((tag, given, kept)) = choice else {
            return Ok(Record {
                fields,
                choice: None,
                rest,
            });
        };
        if fields.has(tag.bytes()) {
            return Err(RecordFault::TwiceNamed);
        }
        let cases = order_cases(alloc, given, &tag, &fields)?;
        if cases.is_empty() {
            return Err(RecordFault::NoCase);
        }
        Ok(Record {
            fields,
            choice: Some(Choice { tag, cases, kept }),
            rest,
        })
    }

    ghost use Rattle.mig_model.specs.Record.{record_of};
    ghost use Rattle.mig_model.specs.TemplateKept.{RecordKept};

    /// The record of parts that are in order already and keep what a record keeps. It sorts nothing.
    pub fn from_parts(fields: Fields, choice: Option<Choice>, rest: Rest) -> Record
        requires { RecordKept (record { fields = fields; choice = choice; rest = rest }) }
        ensures { result ≡ record { fields = fields; choice = choice; rest = rest } }
    {
        Record {
            fields,
            choice,
            rest,
        }
    }

    /// The common fields.
    pub fn fields(&self) -> &Fields
        ensures { result.now ≡ self.now.fields }
    {
        &self.fields
    }

    /// The choice, where there is one.
    pub fn choice(&self) -> Option<&Choice>
        ensures { option_map (λ c. c.now) result ≡ self.now.choice }
    {
        self.choice.as_ref()
    }

    /// Whether other names may stand there.
    pub fn rest(&self) -> Rest
        ensures { result ≡ self.now.rest }
    {
        self.rest
    }

    /// Gives the parts up.
    pub fn into_parts(self) -> (Fields, Option<Choice>, Rest)
        ensures fields { result.0 ≡ self.fields }
        ensures choice { result.1 ≡ self.choice }
        ensures rest { result.2 ≡ self.rest }
        ensures keep { RecordKept self }
    {
        let Record {
            fields,
            choice,
            rest,
        } = self;
        (fields, choice, rest)
    }

    /// Does nothing. Its contract tells what every record keeps at every depth.
    pub fn keeps(&self)
        ensures { RecordKept self.now }
    {
        let _rest = self.rest;
    }

    /// An equal record.
    #[cycle(copy)]
    pub fn copy(&self, alloc: Global) -> Result<Record, Memory>
        ensures { IfOk result (λ r. r ≡ self.now) }
    {
        self.keeps();
        let fields = self.fields().copy(alloc)?;
        let rest = self.rest();
        match self.choice() {
            Some(choice) => {
                let choice = Some(choice.copy(alloc)?);
                Ok(Record {
                    fields,
                    choice,
                    rest,
                })
            }
            None => Ok(Record {
                fields,
                choice: None,
                rest,
            }),
        }
    }

    /// Whether the two are equal.
    #[cycle(same)]
    pub fn same(&self, other: &Record) -> bool
        ensures { IsTrue result ↔ (self.now ≡ other.now) }
    {
        if self.rest() != other.rest() || !self.fields().same(other.fields()) {
            return false;
        }
        match self.choice() {
            Some(one) => match other.choice() {
                Some(other) => one.same(other),
                None => false,
            },
            None => other.choice().is_none(),
        }
    }
}
