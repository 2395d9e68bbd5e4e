//! Tables of texts: what stands for each.
ghost use Rattle.std.specs.Prelude.{◌≡◌, IfOk, IfSome, option_map};
ghost use Rattle.mig_model.specs.Leaf.{looked_up};
ghost use Rattle.mig_model.specs.Names.{Ascends, under};
ghost use Rattle.mig_model.specs.Record.{IsOrderOf};

use mig_model::{ascends, place_by_key, sort_by_key};
use mig_tree::{Memory, Name};
use std::alloc::Global;
use std::marker::Model;

/// Pairs of a text and what stands for it, in the order in which they were written. Of pairs with equal texts the first counts.
#[derive(Debug)]
pub struct Table {
    pairs: Vec<(Name, Name)>,
    // Equal pairs in the order of their texts, for the search; none where two texts are equal, which no chain text has.
    sorted: Option<Vec<(Name, Name)>>,
}

impl Drop for Table {
    fn drop(self) {
        let Table { pairs, sorted } = self;
        drop(pairs);
        drop(sorted);
    }
}

impl Model for Table {
    ghost use Rattle.std.specs.Prelude.{ℕ, List, IfSome};
    ghost use Rattle.mig_model.specs.Record.{IsOrderOf};

    ghost Value = { List (List ℕ × List ℕ) };

    ghost view = { λ a. a.pairs.items };

    ghost invariant = { λ a. IfSome a.sorted (λ list. IsOrderOf a.pairs.items list.items) };
}

/// Equal pairs.
pub fn copy_pairs(alloc: Global, pairs: &[(Name, Name)]) -> Result<Vec<(Name, Name)>, Memory>
    ensures { IfOk result (λ v. v.items ≡ pairs.now) }
{
    let mut list = Vec::with_capacity(alloc, pairs.len())?;
    for pair in pairs {
        let left = pair.0.copy(alloc)?;
        let right = pair.1.copy(alloc)?;
        list.push((left, right))?;
    }
    Ok(list)
}

/// The pairs in the order of their texts, where no two texts are equal.
fn in_order(mut pairs: Vec<(Name, Name)>) -> Option<Vec<(Name, Name)>>
    ensures { IfSome result (λ list. IsOrderOf pairs.items list.items) }
{
    sort_by_key(&mut pairs);
    if !ascends(&pairs) {
        drop(pairs);
        return None;
    }
    Some(pairs)
}

/// The right side of the first pair whose left side is the text.
fn first<'a>(pairs: &'a [(Name, Name)], text: &[u8]) -> Option<&'a [u8]>
    ensures { option_map (λ s. s.now) result ≡ looked_up pairs.now text.now }
{
    let pair = pairs.iter().find(|pair| pair.0.bytes() == text)?;
    Some(pair.1.bytes())
}

/// The right side of the pair whose left side is the text, in pairs that ascend by their left sides.
fn searched<'a>(sorted: &'a [(Name, Name)], text: &[u8]) -> Option<&'a [u8]>
    requires { Ascends sorted.now }
    ensures { option_map (λ s. s.now) result ≡ under text.now sorted.now }
{
    match place_by_key(sorted, text) {
        Ok(at) => Some(sorted[at].1.bytes()),
        Err(_) => None,
    }
}

impl Table {
    /// These pairs. It copies and sorts them for the search.
    pub fn new(alloc: Global, pairs: Vec<(Name, Name)>) -> Result<Table, Memory>
        ensures { IfOk result (λ t. t ≡ pairs.items) }
    {
        let sorted = in_order(copy_pairs(alloc, &pairs)?);
        Ok(Table { pairs, sorted })
    }

    /// The pairs, as they were written.
    pub fn as_slice(&self) -> &[(Name, Name)]
        ensures { result.now ≡ self.now }
    {
        self.pairs.as_slice()
    }

    /// Gives the pairs up.
    pub fn into_vec(self) -> Vec<(Name, Name)>
        ensures { result.items ≡ self }
    {
        let Table { pairs, sorted } = self;
        drop(sorted);
        pairs
    }

    /// What stands for the text. It takes log n comparisons, where no two texts of the table are equal.
    pub fn get(&self, text: &[u8]) -> Option<&[u8]>
        ensures { option_map (λ s. s.now) result ≡ looked_up self.now text.now }
    {
        match &self.sorted {
            Some(sorted) => searched(sorted, text),
            None => first(&self.pairs, text),
        }
    }

    /// An equal table.
    pub fn copy(&self, alloc: Global) -> Result<Table, Memory>
        ensures { IfOk result (λ t. t ≡ self.now) }
    {
        let pairs = copy_pairs(alloc, &self.pairs)?;
        Table::new(alloc, pairs)
    }
}
