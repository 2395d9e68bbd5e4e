//! The syntax of templates: what a `TemplateText` is made of, and the lists and boxes that it stands in.
ghost use Rattle.std.specs.Prelude.{◌≡◌, map, IfOk};

use mig_model::{Kind, Name};
use std::alloc::{AllocFailed, Global};
use std::marker::Model;

/// The syntax of a template.
#[cycle(template)]
#[derive(Debug, Drop)]
pub enum TemplateText {
    /// A kind word. `List` and `Map` are none.
    Leaf(Kind),
    Any,
    List(TemplateBox),
    Rec(RecordText),
    /// The name of a type.
    Point(Name),
    /// The parts before and after the first `or`.
    Sum(TemplateBox, TemplateBox),
}

/// The syntax of a template, on the heap.
#[cycle(template)]
#[derive(Debug)]
pub struct TemplateBox {
    template: Box<TemplateText>,
}

impl Drop for TemplateBox {
    #[cycle(template_drops)]
    fn drop(self) {
        let TemplateBox { template } = self;
        drop(template);
    }
}

/// The syntax of a record.
#[cycle(template)]
#[derive(Debug, Drop)]
pub struct RecordText {
    pub fields: FieldList,
    pub choice: Option<ChoiceText>,
    /// Whether `..` stands.
    pub dots: bool,
}

/// The syntax of a field.
#[cycle(template)]
#[derive(Debug)]
pub struct FieldText {
    pub name: Name,
    /// Whether `?` stands.
    pub may: bool,
    pub template: TemplateText,
}

impl Drop for FieldText {
    #[cycle(template_drops)]
    fn drop(self) {
        let FieldText {
            name,
            may: _,
            template,
        } = self;
        drop(name);
        drop(template);
    }
}

/// The syntax of a choice, `'choice' STRING { case {, case} [, 'else' 'kept'] }`. Contracts see the tag's name, the cases, and whether `else kept`
/// stands.
#[cycle(template)]
#[derive(Debug)]
pub struct ChoiceText {
    tag: Name,
    cases: Vec<CaseText>,
    kept: bool,
}

impl Drop for ChoiceText {
    #[cycle(template_drops)]
    fn drop(self) {
        let ChoiceText {
            tag,
            cases,
            kept: _,
        } = self;
        drop(tag);
        drop(cases);
    }
}

/// The syntax of a case, `STRING { [field {, field}] }`.
#[cycle(template)]
#[derive(Debug)]
pub struct CaseText {
    pub literal: Name,
    pub fields: FieldList,
}

impl Drop for CaseText {
    #[cycle(template_drops)]
    fn drop(self) {
        let CaseText { literal, fields } = self;
        drop(literal);
        drop(fields);
    }
}

/// Fields as they stand in the text. Their names may repeat.
#[cycle(template)]
#[derive(Debug)]
pub struct FieldList {
    list: Vec<FieldText>,
}

impl Drop for FieldList {
    #[cycle(template_drops)]
    fn drop(self) {
        let FieldList { list } = self;
        drop(list);
    }
}

impl Model for TemplateBox {
    ghost use Rattle.mig_syntax.specs.TemplateSyntax.{TemplateSyntax, template_size};
    ghost use Rattle.mig_syntax.specs.TemplateCode.{coded_template};

    ghost Value = { TemplateSyntax };

    ghost coded = { coded_template };

    ghost use Rattle.mig_syntax.specs.TemplateView.{template_of};

    ghost view = { λ a. template_of a.template.value };

    ghost size = { template_size };

    ghost use Rattle.std.proofs.Common.{arith};
    ghost use Rattle.mig_syntax.specs.TemplateFalls.{depth_template};

    ghost size_decreases = { λ a h. omega (arith, depth_template a.template.value) };
}

impl Model for ChoiceText {
    ghost use Rattle.std.specs.Prelude.{map};
    ghost use Rattle.mig_syntax.specs.TemplateSyntax.{CasesOfTag, cases_of_tag_size};
    ghost use Rattle.mig_syntax.specs.TemplateCode.{coded_cases_of_tag};

    ghost Value = { CasesOfTag };

    ghost coded = { coded_cases_of_tag };

    ghost use Rattle.mig_syntax.specs.TemplateView.{case_of};

    ghost view = { λ a. (a.tag, (map case_of a.cases.items, a.kept)) };

    ghost size = { cases_of_tag_size };

    ghost use Rattle.std.proofs.Common.{arith};
    ghost use Rattle.mig_syntax.specs.TemplateFalls.{depth_cases};

    ghost size_decreases = { λ a h. omega (arith, depth_cases a.cases.items) };
}

impl Model for FieldList {
    ghost use Rattle.std.specs.Prelude.{List, map};
    ghost use Rattle.mig_syntax.specs.TemplateSyntax.{FieldSyntax, field_list_size};
    ghost use Rattle.mig_syntax.specs.TemplateCode.{coded_field_list};

    ghost Value = { List FieldSyntax };

    ghost coded = { coded_field_list };

    ghost use Rattle.mig_syntax.specs.TemplateView.{field_of};

    ghost view = { λ a. map field_of a.list.items };

    ghost size = { field_list_size };

    ghost use Rattle.std.proofs.Common.{arith};
    ghost use Rattle.mig_syntax.specs.TemplateFalls.{depth_fields};

    ghost size_decreases = { λ a h. omega (arith, depth_fields a.list.items) };
}

impl TemplateBox {
    ghost use Rattle.mig_syntax.specs.TemplateView.{template_of};

    /// The template, on the heap.
    pub fn new(
        alloc: Global,
        template: TemplateText,
    ) -> Result<TemplateBox, AllocFailed<TemplateText>>
        ensures { IfOk result (λ b. b ≡ template_of template) }
    {
        Ok(TemplateBox {
            template: Box::new(alloc, template)?,
        })
    }

    /// The template itself.
    pub fn get(&self) -> &TemplateText
        ensures { template_of result.now ≡ self.now }
    {
        &*self.template
    }
}

impl ChoiceText {
    ghost use Rattle.mig_syntax.specs.TemplateView.{case_of};

    /// The choice with the tag of this name, the cases in this order, and `else kept` or not.
    pub fn new(tag: Name, cases: Vec<CaseText>, kept: bool) -> ChoiceText
        ensures { result ≡ (tag, (map case_of cases.items, kept)) }
    {
        ChoiceText { tag, cases, kept }
    }

    /// The name of the tag.
    pub fn tag(&self) -> &Name
        ensures { result.now ≡ self.now.0 }
    {
        &self.tag
    }

    /// The cases in order. Their literals may repeat.
    pub fn cases(&self) -> &[CaseText]
        ensures { map case_of result.now ≡ self.now.1.0 }
    {
        self.cases.as_slice()
    }

    /// Whether `else kept` stands.
    pub fn kept(&self) -> bool
        ensures { result ≡ self.now.1.1 }
    {
        self.kept
    }
}

impl FieldList {
    ghost use Rattle.mig_syntax.specs.TemplateView.{field_of};

    /// The fields, in this order.
    pub fn new(list: Vec<FieldText>) -> FieldList
        ensures { result ≡ map field_of list.items }
    {
        FieldList { list }
    }

    /// The fields in order.
    pub fn as_slice(&self) -> &[FieldText]
        ensures { map field_of result.now ≡ self.now }
    {
        self.list.as_slice()
    }

    /// Gives the fields up.
    pub fn into_vec(self) -> Vec<FieldText>
        ensures { map field_of result.items ≡ self }
    {
        let FieldList { list } = self;
        list
    }
}
