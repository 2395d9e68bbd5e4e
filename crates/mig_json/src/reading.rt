//! Documents: the bytes of a save, parsed.
ghost use Rattle.std.specs.Prelude.{◌≡◌, Err, IfOk};
ghost use Rattle.mig_model.specs.Plain.{Plain};
ghost use Rattle.mig_model.specs.Kinds.{IsMap};
ghost use Rattle.mig_tree.specs.View.{plain_of};
ghost use Rattle.mig_json.specs.Save.{JsonSave};
ghost use Rattle.mig_json.specs.Kinds.{IsJson};

use crate::JsonError;
use crate::fitting::fits;
use crate::lending::lend;
use mig_model::MOST_SAVE_BYTES;
use mig_tree::{Memory, Tree};
use serde_json::Value;
use std::alloc::Global;
use std::marker::Model;

/// A JSON save that was read. It owns the names and the texts; contracts see its tree.
#[derive(Drop)]
pub struct Document {
    value: Value,
}

impl Model for Document {
    ghost use Rattle.std.specs.Prelude.{◌≡◌, Some, unwrap_or};
    ghost use Rattle.mig_model.specs.Plain.{Plain, null};
    ghost use Rattle.mig_model.specs.Code.{coded_plain};
    ghost use Rattle.mig_model.specs.Kinds.{IsMap};
    ghost use Rattle.serde_json.specs.View.{view as seen};
    ghost use Rattle.mig_json.specs.Save.{tree_of};

    ghost Value = { Plain };

    ghost coded = { coded_plain };

    ghost view = { λ a. unwrap_or (tree_of (seen a.value)) null };

    ghost invariant = { λ a. (tree_of (seen a.value) ≡ Some (unwrap_or (tree_of (seen a.value)) null))
        × IsMap (unwrap_or (tree_of (seen a.value)) null) };
}

/// The save that the bytes are. `Wrong` comes exactly where they are none.
pub fn parse(alloc: Global, bytes: &[u8]) -> Result<Document, JsonError>
    ensures found { IfOk result (λ d. JsonSave bytes.now d) }
    ensures wrong { result ≡ Err JsonError.Wrong → (t : Plain) → JsonSave bytes.now t → ⊥ }

    // A text is of one tree alone.
    ensures only { IfOk result (λ d. (t : Plain) → JsonSave bytes.now t → t ≡ d) }
{
    if bytes.len() > MOST_SAVE_BYTES {
        return Err(JsonError::Wrong);
    }
    let value = match Value::from_slice(alloc, bytes) {
        Ok(value) => value,
        Err(error) => {
            return if error.is_memory() {
                Err(JsonError::Memory)
            } else {
                Err(JsonError::Wrong)
            };
        }
    };
    if !value.is_object() || !fits(&value) {
        return Err(JsonError::Wrong);
    }
    Ok(Document { value })
}

impl Document {
    /// The tree, whose names and texts are slices of the document.
    pub fn tree<'a>(&'a self, alloc: Global) -> Result<Tree<'a>, Memory>
        ensures tree { IfOk result (λ t. plain_of t ≡ self.now) }
        ensures map { IfOk result (λ t. IsMap (plain_of t)) }
        ensures json { IfOk result (λ t. IsJson (plain_of t)) }
    {
        match lend(alloc, &self.value) {
            Ok(tree) => Ok(tree),
            Err(JsonError::Memory) => Err(Memory),
            Err(JsonError::Wrong) => unreachable!(),
        }
    }
}
