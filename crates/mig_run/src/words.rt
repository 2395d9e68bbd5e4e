//! The words of the command line.
ghost use Rattle.std.specs.Prelude.{◌≡◌, ◌≤◌, IfSome, option_map, map, string_bytes};
ghost use Rattle.mig_model.specs.Version.{last_version};
ghost use Rattle.mig_run.specs.Command.{number_of_word, asked_at, asked};
ghost use Rattle.mig_run.specs.View.{asked_by, IsBounded};

use mig_model::LAST_VERSION;

/// The folder that saves are read from, and the one that they are written to.
#[derive(Clone, Copy)]
pub struct Folders<'a> {
    pub from: &'a str,
    pub to: &'a str,
}

/// What the words of `lift` ask for.
#[derive(Clone, Copy)]
pub struct LiftRequest<'a> {
    pub chain: &'a str,
    pub folders: Folders<'a>,
    pub target: u32,
}

/// What words ask for.
#[derive(Clone, Copy)]
pub enum Request<'a> {
    Lift(LiftRequest<'a>),
    /// To check the chain in this file.
    Check(&'a str),
}

// A plain decimal number.
#[tactic(auto, unfolding(crate::specs::Command::number_of_word))]
fn number(word: &[u8]) -> Option<u32>
    ensures value { result ≡ number_of_word word.now }
    ensures bound { IfSome result (λ n. n ≤ last_version) }
{
    let [first, after @ ..] = word else {
        return None;
    };
    if *first == b'0' {
        return if after.is_empty() { Some(0) } else { None };
    }
    let mut n = 0u32;
    let mut rest = word;
    while let [b, after @ ..] = rest {
        if !(48 <= *b && *b <= 57) {
            return None;
        }
        let next = 10 * u64::from(n) + u64::from(*b - 48);
        if next > u64::from(LAST_VERSION) {
            return None;
        }
        n = next as u32;
        rest = after;
    }
    Some(n)
}

/// What `lift CHAIN FROM TO TARGET` asks for, behind the command.
fn lift_request<'a>(chain: &'a str, from: &'a str, to: &'a str, target: &str) -> Option<Request<'a>>
    ensures asked { option_map asked_by result
        ≡ asked_at chain.now from.now to.now (number_of_word target.now) }
    ensures bound { IfSome result IsBounded }
{
    let target = number(target.as_bytes())?;
    Some(Request::Lift(LiftRequest {
        chain,
        folders: Folders { from, to },
        target,
    }))
}

/// What the words ask for. The commands are `lift CHAIN FROM TO TARGET` and `check CHAIN`.
pub fn request_of<'a>(words: &'a [String]) -> Option<Request<'a>>
    ensures asked { option_map asked_by result ≡ asked (map string_bytes words.now) }
    ensures bound { IfSome result IsBounded }
{
    match words {
        [command, chain, from, to, target] if command.as_str() == "lift" => {
            lift_request(chain.as_str(), from.as_str(), to.as_str(), target.as_str())
        }
        [command, chain] if command.as_str() == "check" => Some(Request::Check(chain.as_str())),
        _ => None,
    }
}
