//! Templates, and what they are made of: a part, a record, a choice, a field. A number says how many levels are free.
ghost use Rattle.std.specs.Prelude.{◌≡◌, length, map};
ghost use Rattle.mig_token.specs.Token.{toks};
ghost use Rattle.mig_syntax.specs.TemplateView.{template_of, field_of, case_of};
ghost use Rattle.mig_reader.specs.Reading.{Gives, listed_at};
ghost use Rattle.mig_parse_template.specs.Reading.{field_at, braced_at, case_at, goes_on, cases_at, comma_kept_at, choice_at, comma_dots_at, last_choice_at, members_at, record_at, compound_at, part_at, template_at};

use mig_reader::{
    ParseError, begins, behind, behind_first, first_kind, name_at, optional_at, text_at,
};
use mig_syntax::{
    CaseText, ChoiceText, FieldList, FieldText, RecordText, TemplateBox, TemplateText,
};
use mig_token::{Mark, Token};
use std::alloc::Global;

/// A field, whose template has so many levels at most.
#[cycle(part)]
#[tactic(auto, unfolding(crate::specs::Reading::field_at))]
fn field_at<'a, 't>(
    alloc: Global,
    levels: u32,
    tokens: &'a [Token<'t>],
) -> Result<(FieldText, &'a [Token<'t>]), ParseError>
    ensures { Gives (λ x. (field_of x.0, toks x.1.now)) result (field_at (template_at levels) (toks tokens.now)) }
{
    let (name, rest) = text_at(alloc, tokens)?;
    let (may, rest) = optional_at(Mark::Question, rest);
    let rest = behind(Mark::Colon, rest)?;
    let (template, rest) = template_at(alloc, levels, rest)?;
    Ok((
        FieldText {
            name,
            may,
            template,
        },
        rest,
    ))
}

/// Fields parted by commas. Each turn takes a token at least, so the count of the tokens bounds the turns.
#[cycle(part)]
fn fields_at<'a, 't>(
    alloc: Global,
    levels: u32,
    tokens: &'a [Token<'t>],
) -> Result<(Vec<FieldText>, &'a [Token<'t>]), ParseError>
    ensures { Gives (λ x. (map field_of x.0.items, toks x.1.now)) result
        (listed_at (field_at (template_at levels)) (length tokens.now) (toks tokens.now)) }
{
    let mut fields = Vec::new(alloc);
    let mut rest = tokens;
    for _ in 0..tokens.len() {
        let (field, after) = field_at(alloc, levels, rest)?;
        fields.push(field)?;
        if !begins(Mark::Comma, after) {
            return Ok((fields, after));
        }
        rest = behind_first(after);
    }
    Err(ParseError::Wrong)
}

/// Fields in `{ }`.
#[cycle(part)]
#[tactic(auto, unfolding(crate::specs::Reading::braced_at))]
pub(crate) fn braced_at<'a, 't>(
    alloc: Global,
    levels: u32,
    tokens: &'a [Token<'t>],
) -> Result<(FieldList, &'a [Token<'t>]), ParseError>
    ensures { Gives (λ x. (x.0, toks x.1.now)) result (braced_at (template_at levels) (toks tokens.now)) }
{
    let rest = behind(Mark::CurlyOpen, tokens)?;
    if begins(Mark::CurlyClose, rest) {
        return Ok((FieldList::new(Vec::new(alloc)), behind_first(rest)));
    }
    let (list, rest) = fields_at(alloc, levels, rest)?;
    let rest = behind(Mark::CurlyClose, rest)?;
    Ok((FieldList::new(list), rest))
}

/// A case: its literal and its fields.
#[cycle(part)]
#[tactic(auto, unfolding(crate::specs::Reading::case_at))]
fn case_at<'a, 't>(
    alloc: Global,
    levels: u32,
    tokens: &'a [Token<'t>],
) -> Result<(CaseText, &'a [Token<'t>]), ParseError>
    ensures { Gives (λ x. (case_of x.0, toks x.1.now)) result (case_at (template_at levels) (toks tokens.now)) }
{
    let (literal, rest) = text_at(alloc, tokens)?;
    let (fields, rest) = braced_at(alloc, levels, rest)?;
    Ok((CaseText { literal, fields }, rest))
}

/// Whether a comma comes and no `else` behind it, so that a further case has to come.
#[tactic(auto, unfolding(crate::specs::Reading::goes_on))]
fn goes_on(tokens: &[Token]) -> bool
    ensures { result ≡ goes_on (toks tokens.now) }
{
    begins(Mark::Comma, tokens) && !begins(Mark::Else, behind_first(tokens))
}

/// Cases parted by commas, up to one that leads to no further case. Each turn takes a token at least, so the count of the tokens bounds the turns.
#[cycle(part)]
fn cases_at<'a, 't>(
    alloc: Global,
    levels: u32,
    tokens: &'a [Token<'t>],
) -> Result<(Vec<CaseText>, &'a [Token<'t>]), ParseError>
    ensures { Gives (λ x. (map case_of x.0.items, toks x.1.now)) result
        (cases_at (template_at levels) (length tokens.now) (toks tokens.now)) }
{
    let mut cases = Vec::new(alloc);
    let mut rest = tokens;
    for _ in 0..tokens.len() {
        let (case, after) = case_at(alloc, levels, rest)?;
        cases.push(case)?;
        if !goes_on(after) {
            return Ok((cases, after));
        }
        rest = behind_first(after);
    }
    Err(ParseError::Wrong)
}

/// Whether a comma comes, behind which `else kept` has to stand.
#[tactic(auto, unfolding(crate::specs::Reading::comma_kept_at))]
fn comma_kept_at<'a, 't>(tokens: &'a [Token<'t>]) -> Result<(bool, &'a [Token<'t>]), ParseError>
    ensures { Gives (λ x. (x.0, toks x.1.now)) result (comma_kept_at (toks tokens.now)) }
{
    if begins(Mark::Comma, tokens) {
        let rest = behind(Mark::Else, behind_first(tokens))?;
        let rest = behind(Mark::Kept, rest)?;
        return Ok((true, rest));
    }
    Ok((false, tokens))
}

/// A choice behind its first word.
#[cycle(part)]
#[tactic(auto, unfolding(crate::specs::Reading::choice_at))]
fn choice_at<'a, 't>(
    alloc: Global,
    levels: u32,
    tokens: &'a [Token<'t>],
) -> Result<(ChoiceText, &'a [Token<'t>]), ParseError>
    ensures { Gives (λ x. (x.0, toks x.1.now)) result (choice_at (template_at levels) (toks tokens.now)) }
{
    let (tag, rest) = text_at(alloc, tokens)?;
    let rest = behind(Mark::CurlyOpen, rest)?;
    let (cases, rest) = cases_at(alloc, levels, rest)?;
    let (kept, rest) = comma_kept_at(rest)?;
    let rest = behind(Mark::CurlyClose, rest)?;
    Ok((ChoiceText::new(tag, cases, kept), rest))
}

/// Whether a comma comes, behind which `..` has to stand.
#[tactic(auto, unfolding(crate::specs::Reading::comma_dots_at))]
fn comma_dots_at<'a, 't>(tokens: &'a [Token<'t>]) -> Result<(bool, &'a [Token<'t>]), ParseError>
    ensures { Gives (λ x. (x.0, toks x.1.now)) result (comma_dots_at (toks tokens.now)) }
{
    if begins(Mark::Comma, tokens) {
        let rest = behind(Mark::Dots, behind_first(tokens))?;
        return Ok((true, rest));
    }
    Ok((false, tokens))
}

/// A choice behind its first word, and whether `..` follows it.
#[cycle(part)]
#[tactic(auto, unfolding(crate::specs::Reading::last_choice_at))]
fn last_choice_at<'a, 't>(
    alloc: Global,
    levels: u32,
    tokens: &'a [Token<'t>],
) -> Result<(ChoiceText, bool, &'a [Token<'t>]), ParseError>
    ensures { Gives (λ x. ((x.0, x.1), toks x.2.now)) result (last_choice_at (template_at levels) (toks tokens.now)) }
{
    let (choice, rest) = choice_at(alloc, levels, tokens)?;
    let (dots, rest) = comma_dots_at(rest)?;
    Ok((choice, dots, rest))
}

/// What stands in a record: its fields, its choice, and whether `..` is the last.
type Members = (Vec<FieldText>, Option<ChoiceText>, bool);

/// The members up to the `}`. Each turn takes a token at least, so the count of the tokens bounds the turns.
#[cycle(part)]
fn members_at<'a, 't>(
    alloc: Global,
    levels: u32,
    tokens: &'a [Token<'t>],
) -> Result<(Members, &'a [Token<'t>]), ParseError>
    ensures { Gives (λ x. ((map field_of x.0.0.items, x.0.1, x.0.2), toks x.1.now)) result
        (members_at (template_at levels) (length tokens.now) (toks tokens.now)) }
{
    let mut fields = Vec::new(alloc);
    let mut rest = tokens;
    for _ in 0..tokens.len() {
        if begins(Mark::Dots, rest) {
            return Ok(((fields, None, true), behind_first(rest)));
        }
        if begins(Mark::Choice, rest) {
            let (choice, dots, after) = last_choice_at(alloc, levels, behind_first(rest))?;
            return Ok(((fields, Some(choice), dots), after));
        }
        let (field, after) = field_at(alloc, levels, rest)?;
        fields.push(field)?;
        if !begins(Mark::Comma, after) {
            return Ok(((fields, None, false), after));
        }
        rest = behind_first(after);
    }
    Err(ParseError::Wrong)
}

/// A record behind its `{`.
#[cycle(part)]
#[tactic(auto, unfolding(crate::specs::Reading::record_at))]
fn record_at<'a, 't>(
    alloc: Global,
    levels: u32,
    tokens: &'a [Token<'t>],
) -> Result<(TemplateText, &'a [Token<'t>]), ParseError>
    ensures { Gives (λ x. (template_of x.0, toks x.1.now)) result (record_at (template_at levels) (toks tokens.now)) }
{
    if begins(Mark::CurlyClose, tokens) {
        let record = RecordText {
            fields: FieldList::new(Vec::new(alloc)),
            choice: None,
            dots: false,
        };
        return Ok((TemplateText::Rec(record), behind_first(tokens)));
    }
    let ((list, choice, dots), rest) = members_at(alloc, levels, tokens)?;
    let rest = behind(Mark::CurlyClose, rest)?;
    let record = RecordText {
        fields: FieldList::new(list),
        choice,
        dots,
    };
    Ok((TemplateText::Rec(record), rest))
}

/// A part that no kind word begins, with so many levels below it.
#[cycle(part)]
#[tactic(auto, unfolding(crate::specs::Reading::compound_at))]
fn compound_at<'a, 't>(
    alloc: Global,
    levels: u32,
    tokens: &'a [Token<'t>],
) -> Result<(TemplateText, &'a [Token<'t>]), ParseError>
    ensures { Gives (λ x. (template_of x.0, toks x.1.now)) result
        (compound_at (part_at levels) (template_at levels) (toks tokens.now)) }
{
    if begins(Mark::Any, tokens) {
        return Ok((TemplateText::Any, behind_first(tokens)));
    }
    if begins(Mark::List, tokens) {
        let (part, rest) = part_at(alloc, levels, behind_first(tokens))?;
        return Ok((TemplateText::List(TemplateBox::new(alloc, part)?), rest));
    }
    if begins(Mark::CurlyOpen, tokens) {
        return record_at(alloc, levels, behind_first(tokens));
    }
    if begins(Mark::Open, tokens) {
        let (template, rest) = template_at(alloc, levels, behind_first(tokens))?;
        let rest = behind(Mark::Close, rest)?;
        return Ok((template, rest));
    }
    let (name, rest) = name_at(alloc, tokens)?;
    Ok((TemplateText::Point(name), rest))
}

/// A part, which has so many levels at most.
#[cycle(part)]
#[tactic(auto, unfolding(crate::specs::Reading::part_at))]
pub(crate) fn part_at<'a, 't>(
    alloc: Global,
    levels: u32,
    tokens: &'a [Token<'t>],
) -> Result<(TemplateText, &'a [Token<'t>]), ParseError>
    ensures { Gives (λ x. (template_of x.0, toks x.1.now)) result (part_at levels (toks tokens.now)) }
{
    if levels == 0 {
        return Err(ParseError::Wrong);
    }
    match first_kind(tokens) {
        Some(kind) => Ok((TemplateText::Leaf(kind), behind_first(tokens))),
        None => compound_at(alloc, levels - 1, tokens),
    }
}

/// A template, which has so many levels at most. Each `or` takes one.
#[cycle(part)]
#[tactic(auto, unfolding(crate::specs::Reading::template_at))]
pub(crate) fn template_at<'a, 't>(
    alloc: Global,
    levels: u32,
    tokens: &'a [Token<'t>],
) -> Result<(TemplateText, &'a [Token<'t>]), ParseError>
    ensures { Gives (λ x. (template_of x.0, toks x.1.now)) result (template_at levels (toks tokens.now)) }
{
    if levels == 0 {
        return Err(ParseError::Wrong);
    }
    let (part, rest) = part_at(alloc, levels, tokens)?;
    if !begins(Mark::Or, rest) {
        return Ok((part, rest));
    }
    let (template, rest) = template_at(alloc, levels - 1, behind_first(rest))?;
    let left = TemplateBox::new(alloc, part)?;
    let right = TemplateBox::new(alloc, template)?;
    Ok((TemplateText::Sum(left, right), rest))
}
