//! The case of a record that a literal names.
ghost use Rattle.std.specs.Prelude.{◌≡◌, length, map, option_map};
ghost use Rattle.std.specs.List.Sorted.{IsSearchInRange};
ghost use Rattle.std.specs.Map.{lookup};
ghost use Rattle.std.specs.BTreeMap.{is_at};
ghost use Rattle.std_collections.specs.Layout.BTreeMap.{seek};
ghost use Rattle.mig_model.specs.Names.{by_bytes, Ascends};
ghost use Rattle.mig_model.specs.Record.{found_case};
ghost use Rattle.mig_template.specs.View.{case_of};

use crate::{Case, Fields, Record};
use mig_model::place_by_key;

/// Where the case of the literal is, or where it would go.
fn place(cases: &[Case], literal: &[u8]) -> Result<usize, usize>
    requires { Ascends (map case_of cases.now) }
    ensures bound { IsSearchInRange result (length cases.now) }
    ensures place { result ≡ seek (by_bytes literal.now) (map case_of cases.now) }
{
    place_by_key(cases, literal)
}

/// The fields of the case with this literal, among cases that ascend.
fn find_case<'r>(cases: &'r [Case], literal: &[u8]) -> Option<&'r Fields>
    requires { Ascends (map case_of cases.now) }
    ensures { option_map (λ fs. fs.now) result ≡ lookup (is_at (by_bytes literal.now)) (map case_of cases.now) }
{
    match place(cases, literal) {
        Ok(at) => Some(&cases[at].fields),
        Err(_) => None,
    }
}

impl Record {
    /// The fields of the case with this literal. It takes log n comparisons.
    pub fn case(&self, literal: &[u8]) -> Option<&Fields>
        ensures { option_map (λ fs. fs.now) result ≡ found_case literal.now self.now.choice }
    {
        self.keeps();
        match self.choice() {
            Some(choice) => find_case(choice.cases(), literal),
            None => None,
        }
    }
}
