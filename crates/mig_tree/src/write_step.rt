//! The text of one step of a place.
ghost use Rattle.std.specs.Prelude.{◌≡◌, OnOk, ◌++◌};
ghost use Rattle.mig_tree.specs.Place.{step_of, step_text};

use crate::{Memory, Step, spell};
use std::alloc::Global;

pub fn write_step(alloc: Global, out: &mut Vec<u8>, step: &Step) -> Result<(), Memory>
    ensures { OnOk result (out.new.items ≡ out.old.items ++ step_text (step_of step.now)) }
{
    out.push(b'/')?;
    match step {
        Step::Named(name) => {
            let text = spell(alloc, name.bytes())?;
            out.extend_from_slice(&text)?;
        }
        Step::Index(index) => {
            let text = index.to_string(alloc)?;
            out.extend_from_slice(text.as_bytes())?;
        }
    }
    Ok(())
}
