//! The text of the chain.
ghost use Rattle.std.specs.Prelude.{◌≡◌, [], ◌∷◌, Some, IfSome, IfOk, IfErr, IsErrOf};
ghost use Rattle.mig_files.specs.Held.{Rose, NoneFell};
ghost use Rattle.mig_run.specs.View.{IsGrammarLine, IsRead, MayBeRead};

use crate::lines::{declaration_line, fault_line, line_of};
use crate::stop::Stop;
use mig_files::{FileFault, Files};
use mig_model::MOST_CHAIN_BYTES;
use mig_parse::{ParseFault, parse};
use mig_resolve::{ChainFault, resolve};
use mig_rule::Chain;
use std::alloc::Global;

/// What is read under the chain's name: a chain, or the line that says why there is none.
#[derive(Drop)]
pub enum Reading {
    Line(Vec<u8>),
    Chain(Chain),
}

/// The line of a text that gives no declarations.
fn ungrammatical(alloc: Global, fault: ParseFault) -> Result<Vec<u8>, Stop>
    ensures line { IfOk result (λ line. IsGrammarLine fault line.items) }
    ensures memory { IfErr result (λ e. e ≡ Stop.Memory) }
{
    match fault {
        ParseFault::TooLong => Ok(line_of(alloc, b"chain: too long")?),
        ParseFault::Declaration(number) => Ok(declaration_line(alloc, number)?),
        ParseFault::Memory => Err(Stop::Memory),
    }
}

/// What the text is.
fn reading_of(alloc: Global, text: &[u8]) -> Result<Reading, Stop>
    ensures read { IfOk result (IsRead (Some text.now)) }
    ensures memory { IfErr result (λ e. e ≡ Stop.Memory) }
{
    let declarations = match parse(alloc, text) {
        Ok(declarations) => declarations,
        Err(fault) => return Ok(Reading::Line(ungrammatical(alloc, fault)?)),
    };
    match resolve(alloc, declarations) {
        Ok(chain) => Ok(Reading::Chain(chain)),
        Err(
            ChainFault::Fault {
                number,
                declaration,
            },
        ) => Ok(Reading::Line(fault_line(alloc, number, declaration)?)),
        Err(ChainFault::Memory) => Err(Stop::Memory),
    }
}

/// Reads the chain of that name.
pub fn read_chain<F: Files>(alloc: Global, chain: &str, files: &mut F) -> Result<Reading, Stop>
    ensures told { IfSome (F.held files.old) (λ m. IfOk result (IsRead (m (46 ∷ [], chain.now)))) }
    ensures untold { IfOk result (MayBeRead (F.counts files.old) (F.counts files.new)) }
    ensures same { F.held files.new ≡ F.held files.old }
    ensures counts { NoneFell (F.counts files.old) (F.counts files.new) }
    ensures files { IsErrOf result Stop.Files → Rose (F.counts files.old).faults (F.counts files.new).faults }
    ensures report { IsErrOf result Stop.Report → ⊥ }
{
    let text = match files.read(alloc, ".", chain, MOST_CHAIN_BYTES) {
        Ok(text) => text,
        Err(FileFault::Failed) => return Err(Stop::Files),
        Err(FileFault::Absent) => return Ok(Reading::Line(line_of(alloc, b"chain: absent")?)),
        Err(FileFault::Long) => return Ok(Reading::Line(line_of(alloc, b"chain: too long")?)),
        Err(FileFault::Memory) => return Err(Stop::Memory),
    };
    reading_of(alloc, &text)
}
