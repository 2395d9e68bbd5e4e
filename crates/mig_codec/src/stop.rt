//! What stops a reader, seen from further and further outside.
ghost use Rattle.std.specs.Prelude.{◌≡◌, ◌∷◌, [], Option, Some, option_map};
ghost use Rattle.mig_model.specs.Place.{Place, named};
ghost use Rattle.mig_codec.specs.declared.stop.Stop.TheVariants as stops;
ghost use Rattle.mig_tree.specs.Place.{step_of};
ghost use Rattle.mig_codec.specs.Reading.{StopsAt};

use mig_tree::{Memory, Name, Step};
use std::alloc::{AllocError, AllocFailed, Global};

/// Why reading stopped: at a wrong place, whose steps stand here innermost first, or for want of memory.
#[derive(Drop)]
pub enum Stop {
    Wrong(Vec<Step>),
    Memory,
}

impl<T: Drop> From<AllocFailed<T>> for Stop {
    ghost from_gives = { λ _ e. e ≡ stops.Memory };

    fn from(_refused: AllocFailed<T>) -> Stop {
        Stop::Memory
    }
}

impl From<AllocError> for Stop {
    ghost from_gives = { λ _ e. e ≡ stops.Memory };

    fn from(_refused: AllocError) -> Stop {
        Stop::Memory
    }
}

impl From<Memory> for Stop {
    ghost from_gives = { λ _ e. e ≡ stops.Memory };

    fn from(_refused: Memory) -> Stop {
        Stop::Memory
    }
}

/// The tree in hand is wrong.
pub fn stop_here(alloc: Global) -> Stop
    ensures { StopsAt result (Some []) }
{
    Stop::Wrong(Vec::new(alloc))
}

/// What stopped in a part of a tree, seen from the tree.
pub fn below(step: Step, stop: Stop) -> Stop
    ensures { (o : Option Place) → StopsAt stop o → StopsAt result (option_map (λ p. step_of step ∷ p) o) }
{
    match stop {
        Stop::Wrong(mut steps) => match steps.push(step) {
            Ok(()) => Stop::Wrong(steps),
            Err(_refused) => Stop::Memory,
        },
        Stop::Memory => Stop::Memory,
    }
}

/// What stopped under a name of a map, seen from the map.
pub fn below_name(alloc: Global, name: &[u8], stop: Stop) -> Stop
    ensures { (o : Option Place) → StopsAt stop o → StopsAt result (option_map (λ p. named name.now ∷ p) o) }
{
    match Name::new(alloc, name) {
        Ok(name) => below(Step::Named(name), stop),
        Err(Memory) => Stop::Memory,
    }
}

/// The tree under the name is wrong.
pub fn stop_at(alloc: Global, name: &[u8]) -> Stop
    ensures { StopsAt result (Some (named name.now ∷ [])) }
{
    below_name(alloc, name, stop_here(alloc))
}
