//! Places in trees, and their texts.
ghost use Rattle.std.specs.Prelude.{◌≡◌, IfOk};

use crate::write_step::write_step;
use crate::{Memory, Name};
use std::alloc::Global;
use std::marker::Model;

/// One step of a place: under a name of a map, or at an index of a list, counted from 0.
#[derive(Debug, Drop)]
pub enum Step {
    Named(Name),
    Index(usize),
}

/// A way from the root of a tree, which contracts see as a plain place.
#[derive(Debug)]
pub struct Place {
    steps: Vec<Step>,
}

impl Drop for Place {
    fn drop(self) {
        let Place { steps } = self;
        drop(steps);
    }
}

impl Model for Place {
    ghost use Rattle.mig_model.specs.Code.{coded_place};
    ghost use Rattle.mig_model.specs.Place as model;
    ghost use Rattle.mig_tree.specs.Place.{place_of};

    ghost Value = { model.Place };

    ghost coded = { coded_place };

    ghost view = { λ a. place_of a.steps.items };
}

impl Place {
    ghost use Rattle.mig_tree.specs.Place.{place_of, place_text};

    /// The place with these steps.
    pub fn new(steps: Vec<Step>) -> Place
        ensures { result ≡ place_of steps.items }
    {
        Place { steps }
    }

    /// The steps, outermost first.
    pub fn as_slice(&self) -> &[Step]
        ensures { place_of result.now ≡ self.now }
    {
        self.steps.as_slice()
    }

    /// Gives the steps up.
    pub fn into_vec(self) -> Vec<Step>
        ensures { place_of result.items ≡ self }
    {
        let Place { steps } = self;
        steps
    }

    /// The place as text: `/` and then each name, spelled, or index in decimal. The empty place is `/`.
    pub fn text(&self, alloc: Global) -> Result<Vec<u8>, Memory>
        ensures { IfOk result (λ out. out.items ≡ place_text self.now) }
    {
        let mut out = Vec::new(alloc);
        let steps = self.as_slice();
        if steps.is_empty() {
            out.push(b'/')?;
            return Ok(out);
        }
        for step in steps {
            write_step(alloc, &mut out, step)?;
        }
        Ok(out)
    }
}
