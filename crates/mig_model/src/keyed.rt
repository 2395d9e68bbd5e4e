//! Lists of what has a name: sorting by it, the test that it ascends, and the search for it, once for all such lists.
ghost use Rattle.std.specs.Prelude.{◌≡◌, ◌↔◌, ℕ, List, length, IsTrue, IsPermutation};
ghost use Rattle.std.specs.List.Sorted.{IsSortedByKey, IsSearchInRange, IsBinarySearchResult};
ghost use Rattle.mig_model.specs.Names.{AscendBy, by_bytes};

use std::cmp::Ordering;

/// What has a name, or another text, as its key in a list. Keys are ordered by their bytes, as unsigned numbers.
pub trait Keyed {
    ghost key: { Self → List ℕ };

    /// The bytes of the key.
    fn key(&self) -> &[u8]
        ensures { result.now ≡ key self.now };
}

/// Sorts by key, in the list's place.
pub fn sort_by_key<T: Keyed>(list: &mut Vec<T>)
    ensures permutation { IsPermutation list.old.items list.new.items }
    ensures sorted { IsSortedByKey T.key by_bytes list.new.items }
{
    list.sort_unstable_by(|one, other| one.key().cmp(other.key()));
}

/// Whether each key stands before the next.
pub fn ascends<T: Keyed>(list: &[T]) -> bool
    ensures { IsTrue result ↔ AscendBy T.key list.now }
{
    for at in 1..list.len() {
        if list[at - 1].key().cmp(list[at].key()) != Ordering::Less {
            return false;
        }
    }
    true
}

/// Where the key is, or where it would go, in a list that ascends by key. It takes log n comparisons.
pub fn place_by_key<T: Keyed>(list: &[T], key: &[u8]) -> Result<usize, usize>
    ensures bound { IsSearchInRange result (length list.now) }
    ensures place { IsBinarySearchResult (λ x. by_bytes (T.key x) key.now) list.now result }
{
    list.binary_search_by(|one| one.key().cmp(key))
}
