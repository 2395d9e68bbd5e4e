//! The eleven leaf functions.
ghost use Rattle.std.specs.Prelude.{◌≡◌, IfOk, IsTrue, is_some, Some};
ghost use Rattle.mig_tree.specs.View.{plain_of};
ghost use Rattle.mig_model.specs.Kinds.{kind_of};
ghost use Rattle.mig_model.specs.Const.{const_kind, const_tree};
ghost use Rattle.mig_model.specs.Leaf.{is_whole_number, to_text, shown, read_or, leaf_out, leaf_value};
ghost use Rattle.mig_leaf.specs.View.{const_of, leaf_fn_of};

use crate::number::{clamped, decimal, has_range, is_whole_number, number_of, spelled};
use crate::text::{lowered, prefixed, stripped, text_of, translated};
use crate::{Const, Table};
use mig_tree::{Kind, Memory, Name, Text, Tree};
use std::alloc::Global;

/// A function on leaves. The rules are this project's own.
#[derive(Debug)]
pub enum LeafFn {
    /// The constant, in place of any leaf.
    Const(Const),
    /// A whole number plus this one, clamped to its kind.
    Plus(i64),
    /// A whole number times this one, clamped to its kind.
    Times(i64),
    /// A whole number clamped to what lies from the first to the second.
    Clamp(i64, i64),
    /// A whole number as one of another kind, to which it is clamped.
    To(Kind),
    /// A whole number in plain decimal, `true` or `false`, or a text as it is.
    ToText,
    /// The whole number that a text spells in plain decimal, where it is of the constant's kind; else the constant.
    OfText(Const),
    /// The right side of the first pair whose left side is the text; else the text.
    Table(Table),
    /// This and then the text, where that has at most 65,535 bytes; else the text.
    Prefix(Name),
    /// The text without this at its front; else the text.
    Strip(Name),
    /// The text with ASCII's lower-case letters for its upper-case ones.
    Lower,
}

// Written by hand, since a derived one is done in place: what lets two functions go would have a branch for each pair of variants to prove.
impl Drop for LeafFn {
    fn drop(self) {
        match self {
            LeafFn::Const(constant) | LeafFn::OfText(constant) => drop(constant),
            LeafFn::Table(table) => drop(table),
            LeafFn::Prefix(text) | LeafFn::Strip(text) => drop(text),
            LeafFn::Plus(_)
            | LeafFn::Times(_)
            | LeafFn::Clamp(_, _)
            | LeafFn::To(_)
            | LeafFn::ToText
            | LeafFn::Lower => {}
        }
    }
}

/// Whether leaves of the kind can be written as texts.
fn is_shown(kind: Kind) -> bool
    ensures { result ≡ is_some (leaf_out to_text kind) }
{
    is_whole_number(kind) || matches!(kind, Kind::Bool | Kind::Text)
}

/// The constant in place of the tree.
fn in_place_of<'a>(alloc: Global, tree: Tree<'a>, constant: &Const) -> Result<Tree<'a>, Memory>
    ensures { IfOk result (λ t. plain_of t ≡ const_tree (const_of constant.now)) }
{
    drop(tree);
    constant.tree(alloc)
}

/// The number in plain decimal, the truth value, or the text as it is.
fn shown<'a>(alloc: Global, tree: Tree<'a>) -> Result<Text<'a>, Memory>
    requires { IsTrue (is_some (leaf_out to_text (kind_of (plain_of tree)))) }
    ensures { IfOk result (λ text. text ≡ shown (plain_of tree.entry)) }
{
    match tree {
        Tree::Text(text) => Ok(text),
        Tree::Bool(true) => Ok(Text::lent(b"true")),
        Tree::Bool(false) => Ok(Text::lent(b"false")),
        number => decimal(alloc, number_of(number)),
    }
}

/// The number that the text spells as a tree of the constant's kind; else the constant.
fn read_or<'a>(alloc: Global, constant: &Const, text: Text<'a>) -> Result<Tree<'a>, Memory>
    requires { IsTrue (is_whole_number (const_kind (const_of constant.now))) }
    ensures { IfOk result (λ t. plain_of t ≡ read_or (const_of constant.now) text.entry) }
{
    let kind = constant.kind();
    match spelled(kind, text.bytes()) {
        Some(number) => Ok(clamped(kind, number)),
        None => constant.tree(alloc),
    }
}

impl LeafFn {
    /// The kind that the function makes of a leaf of this kind, where it fits.
    pub fn fits(&self, kind: Kind) -> Option<Kind>
        ensures { result ≡ leaf_out (leaf_fn_of self.now) kind }
    {
        let is_number = is_whole_number(kind);
        let is_text = matches!(kind, Kind::Text);
        match self {
            LeafFn::Const(constant) => kind.is_leaf().then_some(constant.kind()),
            LeafFn::Plus(_) | LeafFn::Times(_) => is_number.then_some(kind),
            LeafFn::Clamp(low, high) => has_range(kind, *low, *high).then_some(kind),
            LeafFn::To(to) => (is_number && is_whole_number(*to)).then_some(*to),
            LeafFn::ToText => is_shown(kind).then_some(Kind::Text),
            LeafFn::OfText(constant) => {
                let out = constant.kind();
                (is_text && is_whole_number(out)).then_some(out)
            }
            LeafFn::Table(_) | LeafFn::Prefix(_) | LeafFn::Strip(_) | LeafFn::Lower => {
                is_text.then_some(Kind::Text)
            }
        }
    }

    /// What becomes of a leaf that the function fits.
    ///
    /// A text that stays is handed back; what is new is the tree's own. A text is found in a table in log n.
    pub fn apply<'a>(&self, alloc: Global, tree: Tree<'a>) -> Result<Tree<'a>, Memory>
        requires { IsTrue (is_some (leaf_out (leaf_fn_of self.now) (kind_of (plain_of tree)))) }
        ensures value { IfOk result (λ t. plain_of t ≡ leaf_value (leaf_fn_of self.now) (plain_of tree.entry)) }
        ensures kind { IfOk result (λ t. leaf_out (leaf_fn_of self.now) (kind_of (plain_of tree.entry))
            ≡ Some (kind_of (plain_of t))) }
    {
        let kind = tree.kind();
        match self {
            LeafFn::Const(constant) => Ok(in_place_of(alloc, tree, constant)?),
            LeafFn::Plus(addend) => Ok(clamped(kind, number_of(tree).saturating_add(*addend))),
            LeafFn::Times(factor) => Ok(clamped(kind, number_of(tree).saturating_mul(*factor))),
            LeafFn::Clamp(low, high) => Ok(clamped(kind, number_of(tree).clamp(*low, *high))),
            LeafFn::To(to) => Ok(clamped(*to, number_of(tree))),
            LeafFn::ToText => Ok(Tree::Text(shown(alloc, tree)?)),
            LeafFn::OfText(constant) => Ok(read_or(alloc, constant, text_of(tree))?),
            LeafFn::Table(table) => Ok(Tree::Text(translated(alloc, table, text_of(tree))?)),
            LeafFn::Prefix(prefix) => Ok(Tree::Text(prefixed(alloc, prefix, text_of(tree))?)),
            LeafFn::Strip(prefix) => Ok(Tree::Text(stripped(alloc, prefix, text_of(tree))?)),
            LeafFn::Lower => Ok(Tree::Text(lowered(alloc, text_of(tree))?)),
        }
    }

    /// An equal function.
    pub fn copy(&self, alloc: Global) -> Result<LeafFn, Memory>
        ensures { IfOk result (λ f. leaf_fn_of f ≡ leaf_fn_of self.now) }
    {
        Ok(match self {
            LeafFn::Const(constant) => LeafFn::Const(constant.copy(alloc)?),
            LeafFn::Plus(addend) => LeafFn::Plus(*addend),
            LeafFn::Times(factor) => LeafFn::Times(*factor),
            LeafFn::Clamp(low, high) => LeafFn::Clamp(*low, *high),
            LeafFn::To(kind) => LeafFn::To(*kind),
            LeafFn::ToText => LeafFn::ToText,
            LeafFn::OfText(constant) => LeafFn::OfText(constant.copy(alloc)?),
            LeafFn::Table(table) => LeafFn::Table(table.copy(alloc)?),
            LeafFn::Prefix(prefix) => LeafFn::Prefix(prefix.copy(alloc)?),
            LeafFn::Strip(prefix) => LeafFn::Strip(prefix.copy(alloc)?),
            LeafFn::Lower => LeafFn::Lower,
        })
    }
}
