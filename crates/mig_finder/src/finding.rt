//! The call that finds the places of a name.
ghost use Rattle.std.specs.Prelude.{◌≡◌, ◌<◌, [], Err, length, IfOk};
ghost use Rattle.mig_template.specs.View.{template_of};
ghost use Rattle.mig_finder.specs.Places.{places};
ghost use Rattle.mig_finder.specs.View.{places_of};
ghost use Rattle.mig_finder.specs.declared.fault.FindFault.TheVariants as faults;

use crate::FindFault;
use crate::places::places_in;
use mig_optic::AnyOptic;
use mig_template::Template;
use mig_tree::Name;
use std::alloc::Global;

/// A place of a name: the optic that leads to it, and the template there.
#[derive(Debug, Drop)]
pub struct Found {
    pub optic: AnyOptic,
    pub focus: Template,
}

/// The places of the name in the template: common fields come in the order of their names, then cases in the order of
/// their literals with their fields in order, and the left side of a sum before the right. Nothing inside a place is
/// looked at. The order is this project's own.
///
/// `NoneThere` comes exactly where there is none.
pub fn find(alloc: Global, template: &Template, name: &Name) -> Result<Vec<Found>, FindFault>
    ensures places { IfOk result (λ found. places_of found.items ≡ places name.now (template_of template.now)) }
    ensures some { IfOk result (λ found. 0 < length found.items) }
    ensures none { result ≡ Err faults.NoneThere → places name.now (template_of template.now) ≡ [] }
{
    let found = places_in(alloc, template, name)?;
    if found.is_empty() {
        return Err(FindFault::NoneThere);
    }
    Ok(found)
}
