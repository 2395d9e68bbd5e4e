//! A text cut into declarations.
ghost use Rattle.std.specs.Prelude.{IfOk, map};
ghost use Rattle.mig_token.specs.Cuts.{Cuts};
ghost use Rattle.mig_lex.specs.Law.{OneCut};

use mig_model::Memory;
use std::alloc::Global;

/// A chain text cut at its `;`.
#[derive(Debug, Drop)]
pub struct Pieces<'a> {
    /// What stands before each `;` and after the one before it.
    pub declarations: Vec<&'a [u8]>,
    /// What follows the last `;`.
    pub rest: &'a [u8],
}

/// Cuts a chain text at each `;`.
pub fn cut<'a>(alloc: Global, text: &'a [u8]) -> Result<Pieces<'a>, Memory>
    ensures { IfOk result (λ pieces. Cuts text.now (map (λ piece. piece.now) pieces.declarations.items)
        pieces.rest.now) }
{
    let mut declarations = Vec::new(alloc);
    let mut start = 0;
    for (i, byte) in text.iter().enumerate() {
        if *byte == b';' {
            declarations.push(&text[start..i])?;
            start = i + 1;
        }
    }
    Ok(Pieces {
        declarations,
        rest: &text[start..],
    })
}

/// A text is cut in one way.
pub fn one_cut()
    ensures { OneCut }
{}
