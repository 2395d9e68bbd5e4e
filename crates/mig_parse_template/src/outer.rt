//! The readers of outermost templates, which may have every level.
ghost use Rattle.mig_token.specs.Token.{toks};
ghost use Rattle.mig_syntax.specs.TemplateView.{template_of};
ghost use Rattle.mig_reader.specs.Reading.{Gives};
ghost use Rattle.mig_parse_template.specs.Grammar.{max_levels};
ghost use Rattle.mig_parse_template.specs.Reading.{braced_at, part_at, template_at};

use crate::levels::{braced_at, part_at, template_at};
use mig_reader::ParseError;
use mig_syntax::{FieldList, TemplateText};
use mig_token::Token;
use std::alloc::Global;

/// The levels at which a rule and a template may stand: this project's own limit.
pub const MAX_LEVELS: u32 = 256;

/// The template that comes, and the tokens behind it.
pub fn template<'a, 't>(
    alloc: Global,
    tokens: &'a [Token<'t>],
) -> Result<(TemplateText, &'a [Token<'t>]), ParseError>
    ensures { Gives (λ x. (template_of x.0, toks x.1.now)) result (template_at max_levels (toks tokens.now)) }
{
    template_at(alloc, MAX_LEVELS, tokens)
}

/// The part of a template that comes, and the tokens behind it.
pub fn part<'a, 't>(
    alloc: Global,
    tokens: &'a [Token<'t>],
) -> Result<(TemplateText, &'a [Token<'t>]), ParseError>
    ensures { Gives (λ x. (template_of x.0, toks x.1.now)) result (part_at max_levels (toks tokens.now)) }
{
    part_at(alloc, MAX_LEVELS, tokens)
}

/// The fields in `{ }` that come, and the tokens behind them. Their templates are outermost ones.
pub fn braced_fields<'a, 't>(
    alloc: Global,
    tokens: &'a [Token<'t>],
) -> Result<(FieldList, &'a [Token<'t>]), ParseError>
    ensures { Gives (λ x. (x.0, toks x.1.now)) result (braced_at (template_at max_levels) (toks tokens.now)) }
{
    braced_at(alloc, MAX_LEVELS, tokens)
}
