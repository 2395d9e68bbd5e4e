//! The version of a save's tree: its number, and the tree without it.

ghost use Rattle.std.specs.Prelude.{◌≡◌, Result, Ok, Err};
ghost use Rattle.mig_model.specs.Kinds.{IsMap};
ghost use Rattle.mig_model.specs.Version.{strip};
ghost use Rattle.mig_tree.specs.View.{plain_of};
ghost use Rattle.mig_lift.specs.Lift.{number_in, version_of};

use crate::VersionKind;
use mig_model::{Form, LAST_VERSION};
use mig_rule::Chain;
use mig_schema::VersionPath;
use mig_tree::Tree;

/// The number of a version that the tree stands for.
fn number_in(form: Form, tree: &Tree) -> Result<u32, VersionKind>
    ensures { result ≡ number_in form (plain_of tree.now) }
{
    let number = match (form, tree) {
        (Form::Nbt, Tree::Int(number)) => i64::from(*number),
        (Form::Json, Tree::Whole(number)) => *number,
        _ => return Err(VersionKind::Wrong),
    };
    if number < 0 || number > i64::from(LAST_VERSION) {
        return Err(VersionKind::Wrong);
    }
    Ok(number as u32)
}

/// The version of a save's tree: that at the chain's version path, or else the `missing` number.
pub fn version_of(chain: &Chain, tree: &Tree) -> Result<u32, VersionKind>
    ensures { result ≡ version_of chain.now (plain_of tree.now) }
{
    match chain.version_path().get(tree) {
        Some(number) => number_in(chain.form(), number),
        None => chain.missing().ok_or(VersionKind::Absent),
    }
}

/// Takes the version out and lets its tree go.
pub fn strip_version(path: &VersionPath, tree: &mut Tree)
    requires { IsMap (plain_of tree.old) }
    ensures map { IsMap (plain_of tree.new) }
    ensures rest { plain_of tree.new ≡ strip path.now (plain_of tree.old) }
{
    let version = path.strip(tree);
    drop(version);
}
