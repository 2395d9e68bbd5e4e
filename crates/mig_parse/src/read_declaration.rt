//! The reader of declarations.
ghost use Rattle.std.specs.Prelude.{◌≡◌, Err, IfOk};
ghost use Rattle.mig_token.specs.Token.{toks};
ghost use Rattle.mig_reader.specs.declared.error.ParseError.TheVariants as errors;
ghost use Rattle.mig_syntax.specs.DeclSyntax.{DeclSyntax};
ghost use Rattle.mig_syntax.specs.DeclView.{decl_of};
ghost use Rattle.mig_parse.specs.Grammar.{Declaration};
ghost use Rattle.mig_reader.specs.Reading.{Gives};
ghost use Rattle.mig_parse.specs.Reading.{form_at, missing_at, further_name_at, names_at, version_at, schema_at, named_at, fix_at, declaration_at};

use crate::read_fix::fix_text_at;
use mig_model::{Form, Name};
use mig_parse_template::template;
use mig_reader::{
    ParseError, begins, begins_text, behind, behind_first, name_at, number_at, optional_at, text_at,
};
use mig_syntax::Decl;
use mig_token::{Mark, Token};
use std::alloc::Global;

/// The form, behind `form`.
#[tactic(auto, unfolding(crate::specs::Reading::form_at))]
fn form_at<'a, 't>(tokens: &'a [Token<'t>]) -> Result<(Form, &'a [Token<'t>]), ParseError>
    ensures { Gives (λ x. (x.0, toks x.1.now)) result (form_at (toks tokens.now)) }
{
    if begins(Mark::Nbt, tokens) {
        return Ok((Form::Nbt, behind_first(tokens)));
    }
    let rest = behind(Mark::Json, tokens)?;
    Ok((Form::Json, rest))
}

/// The number after `missing`, if that word comes.
#[tactic(auto, unfolding(crate::specs::Reading::missing_at))]
fn missing_at<'a, 't>(
    tokens: &'a [Token<'t>],
) -> Result<(Option<i128>, &'a [Token<'t>]), ParseError>
    ensures { Gives (λ x. (x.0, toks x.1.now)) result (missing_at (toks tokens.now)) }
{
    if begins(Mark::Missing, tokens) {
        let (number, rest) = number_at(behind_first(tokens))?;
        return Ok((Some(number), rest));
    }
    Ok((None, tokens))
}

/// The names before, and one more where a string comes.
#[tactic(auto, unfolding(crate::specs::Reading::further_name_at))]
fn further_name_at<'a, 't>(
    alloc: Global,
    names: Vec<Name>,
    tokens: &'a [Token<'t>],
) -> Result<(Vec<Name>, &'a [Token<'t>]), ParseError>
    ensures { Gives (λ x. (x.0.items, toks x.1.now)) result (further_name_at names.items (toks tokens.now)) }
{
    if !begins_text(tokens) {
        return Ok((names, tokens));
    }
    let mut names = names;
    let (name, rest) = text_at(alloc, tokens)?;
    names.push(name)?;
    Ok((names, rest))
}

/// One to three strings.
#[tactic(auto, unfolding(crate::specs::Reading::names_at))]
fn names_at<'a, 't>(
    alloc: Global,
    tokens: &'a [Token<'t>],
) -> Result<(Vec<Name>, &'a [Token<'t>]), ParseError>
    ensures { Gives (λ x. (x.0.items, toks x.1.now)) result (names_at (toks tokens.now)) }
{
    let (name, rest) = text_at(alloc, tokens)?;
    let mut names = Vec::new(alloc);
    names.push(name)?;
    let (names, rest) = further_name_at(alloc, names, rest)?;
    further_name_at(alloc, names, rest)
}

/// The names that lead to the version, and the number after `missing`, behind `version`.
#[tactic(auto, unfolding(crate::specs::Reading::version_at))]
fn version_at<'a, 't>(
    alloc: Global,
    tokens: &'a [Token<'t>],
) -> Result<(Decl, &'a [Token<'t>]), ParseError>
    ensures { Gives (λ x. (decl_of x.0, toks x.1.now)) result (version_at (toks tokens.now)) }
{
    let (names, rest) = names_at(alloc, tokens)?;
    let (missing, rest) = missing_at(rest)?;
    Ok((Decl::Version(names, missing), rest))
}

/// The version of a schema, and whether `follows` stands, behind `schema`.
#[tactic(auto, unfolding(crate::specs::Reading::schema_at))]
fn schema_at<'a, 't>(tokens: &'a [Token<'t>]) -> Result<(Decl, &'a [Token<'t>]), ParseError>
    ensures { Gives (λ x. (decl_of x.0, toks x.1.now)) result (schema_at (toks tokens.now)) }
{
    let (version, rest) = number_at(tokens)?;
    let (follows, rest) = optional_at(Mark::Follows, rest);
    Ok((Decl::Schema(version, follows), rest))
}

/// The name and the template, behind `type`.
#[tactic(auto, unfolding(crate::specs::Reading::named_at))]
fn named_at<'a, 't>(
    alloc: Global,
    tokens: &'a [Token<'t>],
) -> Result<(Decl, &'a [Token<'t>]), ParseError>
    ensures { Gives (λ x. (decl_of x.0, toks x.1.now)) result (named_at (toks tokens.now)) }
{
    let (name, rest) = name_at(alloc, tokens)?;
    let rest = behind(Mark::Equals, rest)?;
    let (named, rest) = template(alloc, rest)?;
    Ok((Decl::Named(name, named), rest))
}

/// The number of a fix, and what it does, behind `fix`.
#[tactic(auto, unfolding(crate::specs::Reading::fix_at))]
fn fix_at<'a, 't>(
    alloc: Global,
    tokens: &'a [Token<'t>],
) -> Result<(Decl, &'a [Token<'t>]), ParseError>
    ensures { Gives (λ x. (decl_of x.0, toks x.1.now)) result (fix_at (toks tokens.now)) }
{
    let (number, rest) = number_at(tokens)?;
    let (fix, rest) = fix_text_at(alloc, rest)?;
    Ok((Decl::Fix(number, fix), rest))
}

/// The declaration that the tokens begin with.
#[tactic(auto, unfolding(crate::specs::Reading::declaration_at))]
fn declaration_at<'a, 't>(
    alloc: Global,
    tokens: &'a [Token<'t>],
) -> Result<(Decl, &'a [Token<'t>]), ParseError>
    ensures { Gives (λ x. (decl_of x.0, toks x.1.now)) result (declaration_at (toks tokens.now)) }
{
    if begins(Mark::Form, tokens) {
        let (form, rest) = form_at(behind_first(tokens))?;
        return Ok((Decl::Form(form), rest));
    }
    if begins(Mark::Version, tokens) {
        return version_at(alloc, behind_first(tokens));
    }
    if begins(Mark::Schema, tokens) {
        return schema_at(behind_first(tokens));
    }
    if begins(Mark::Type, tokens) {
        return named_at(alloc, behind_first(tokens));
    }
    if begins(Mark::Root, tokens) {
        let (name, rest) = name_at(alloc, behind_first(tokens))?;
        return Ok((Decl::Root(name), rest));
    }
    let rest = behind(Mark::Fix, tokens)?;
    fix_at(alloc, rest)
}

/// The declaration that the tokens are, all of them. The grammar is this project's own.
pub fn declaration<'t>(alloc: Global, tokens: &[Token<'t>]) -> Result<Decl, ParseError>
    ensures found { IfOk result (λ d. Declaration (toks tokens.now) (decl_of d)) }
    ensures wrong { result ≡ Err errors.Wrong → (d : DeclSyntax) → Declaration (toks tokens.now) d → ⊥ }
    ensures only { IfOk result (λ d. (e : DeclSyntax) → Declaration (toks tokens.now) e → e ≡ decl_of d) }
{
    let (declaration, rest) = declaration_at(alloc, tokens)?;
    if !rest.is_empty() {
        drop(declaration);
        return Err(ParseError::Wrong);
    }
    Ok(declaration)
}
