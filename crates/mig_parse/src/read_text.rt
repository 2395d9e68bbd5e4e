//! The reader of whole chain texts.
ghost use Rattle.std.specs.Prelude.{◌≡◌, List, map, IfOk, IfErr, MatchOption};
ghost use Rattle.mig_syntax.specs.DeclSyntax.{DeclSyntax};
ghost use Rattle.mig_syntax.specs.DeclView.{decl_of};
ghost use Rattle.mig_parse.specs.Text.{IsDeclared, IsUndeclared, AreDeclared, IsPieceFault, IsChainText, IsParseFault};

use crate::fault::ParseFault;
use crate::read_declaration::declaration;
use mig_lex::{LexFault, cut, is_blank, tokens};
use mig_model::{MOST_CHAIN_BYTES, Memory};
use mig_reader::ParseError;
use mig_syntax::Decl;
use std::alloc::Global;

/// The declaration that the piece is, or nothing where no declaration is the piece.
fn declared(alloc: Global, piece: &[u8]) -> Result<Option<Decl>, Memory>
    ensures { IfOk result (λ found. MatchOption found (IsUndeclared piece.now)
        (λ d. IsDeclared piece.now (decl_of d))) }
{
    let tokens = match tokens(alloc, piece) {
        Ok(tokens) => tokens,
        Err(LexFault::Wrong) => return Ok(None),
        Err(LexFault::Memory) => return Err(Memory),
    };
    match declaration(alloc, &tokens) {
        Ok(found) => Ok(Some(found)),
        Err(ParseError::Wrong) => Ok(None),
        Err(ParseError::Memory) => Err(Memory),
    }
}

/// The declarations that the pieces are, or the number of the first piece that is none.
fn each_declared(alloc: Global, pieces: &[&[u8]]) -> Result<Vec<Decl>, ParseFault>
    ensures found { IfOk result (λ ds. AreDeclared (map (λ piece. piece.now) pieces.now) (map decl_of ds.items)) }
    ensures fault { IfErr result (λ e. IsPieceFault e (map (λ piece. piece.now) pieces.now)) }
{
    let mut declarations = Vec::new(alloc);
    for (i, piece) in pieces.iter().enumerate() {
        match declared(alloc, piece)? {
            Some(found) => declarations.push(found)?,
            None => return Err(ParseFault::Declaration(i + 1)),
        }
    }
    Ok(declarations)
}

/// The declarations that the text is.
pub fn parse(alloc: Global, bytes: &[u8]) -> Result<Vec<Decl>, ParseFault>
    ensures found { IfOk result (λ ds. IsChainText bytes.now (map decl_of ds.items)) }
    ensures fault { IfErr result (λ e. IsParseFault e bytes.now) }
    ensures only { IfOk result (λ ds. (es : List DeclSyntax) → IsChainText bytes.now es → es ≡ map decl_of ds.items) }
{
    if bytes.len() > MOST_CHAIN_BYTES {
        return Err(ParseFault::TooLong);
    }
    let pieces = cut(alloc, bytes)?;
    let declarations = each_declared(alloc, &pieces.declarations)?;
    if !is_blank(pieces.rest) {
        drop(declarations);
        return Err(ParseFault::Declaration(pieces.declarations.len() + 1));
    }
    Ok(declarations)
}
