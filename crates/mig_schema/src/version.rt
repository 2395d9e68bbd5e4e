//! The names that lead to a save's version: the version is read, taken out and put in by them.

ghost use Rattle.std.specs.Prelude.{◌≡◌, ◌↔◌, ◌≤◌, ◌<◌, ◌∷◌, length, map, option_map, IsTrue, IsSome, is_some, IfSome, IfNone, IfOk, OnOk, OnErr, true};
ghost use Rattle.mig_model.specs.Family.{last_name};
ghost use Rattle.mig_model.specs.Kinds.{put_in};
ghost use Rattle.mig_model.specs.Names.{under, put};
ghost use Rattle.mig_model.specs.Version.{last_version, spot, on_spot, version_in, strip, put_version};
ghost use Rattle.mig_tree.specs.View.{plain_of};
ghost use Rattle.mig_schema.specs.Version.{IsVersionPath, version_tree};

use crate::{Form, Memory, Name};
use mig_tree::{Entries, Text, Tree};
use std::alloc::Global;
use std::marker::Model;

/// One to three names that lead from a save's root to its version. Contracts see the list of the names.
#[derive(Debug)]
pub struct VersionPath {
    names: Vec<Name>,
}

impl Drop for VersionPath {
    fn drop(self) {
        let VersionPath { names } = self;
        drop(names);
    }
}

impl Model for VersionPath {
    ghost use Rattle.std.specs.Prelude.{ℕ, List};
    ghost use Rattle.mig_schema.specs.Code.{coded_path};
    ghost use Rattle.mig_schema.specs.Version.{IsVersionPath};

    ghost Value = { List (List ℕ) };

    ghost coded = { coded_path };

    ghost view = { λ a. a.names.items };

    ghost invariant = { λ a. IsVersionPath a.names.items };
}

impl VersionPath {
    /// The path of these names, and `None` exactly where there aren't one to three. It takes no memory.
    pub fn new(names: Vec<Name>) -> Option<VersionPath>
        ensures path { IfSome result (λ p. p ≡ names.items) }
        ensures some { IfSome result IsVersionPath }
        ensures none { IfNone result (IsVersionPath names.items → ⊥) }
    {
        if names.is_empty() || names.len() > 3 {
            None
        } else {
            Some(VersionPath { names })
        }
    }

    /// The names, from the root on.
    pub fn names(&self) -> &[Name]
        ensures names { result.now ≡ self.now }
        ensures keep { IsVersionPath self.now }
    {
        self.names.as_slice()
    }

    /// The last name.
    pub fn last(&self) -> &Name
        ensures { result.now ≡ last_name self.now }
    {
        &self.names[self.names.len() - 1]
    }

    /// The tree under the last name, where the names lead to one. It takes no memory.
    pub fn get<'t, 'a>(&self, tree: &'t Tree<'a>) -> Option<&'t Tree<'a>>
        ensures { option_map (λ t. plain_of t.now) result ≡ version_in self.now (plain_of tree.now) }
    {
        reached(self.names(), tree)
    }

    /// Whether the names but the last lead to a map, into which a version can be put. It takes no memory.
    pub fn has_spot(&self, tree: &Tree) -> bool
        ensures { result ≡ is_some (spot self.now (plain_of tree.now)) }
    {
        leads_to_map(self.names(), tree)
    }

    /// Takes the last name out, and answers its tree. It takes no memory.
    pub fn strip<'a>(&self, tree: &mut Tree<'a>) -> Option<Tree<'a>>
        ensures version { option_map plain_of result ≡ version_in self.now (plain_of tree.old) }
        ensures rest { plain_of tree.new ≡ strip self.now (plain_of tree.old) }
    {
        take_out(self.names(), tree)
    }

    /// Puts the version under the last name, in place of an earlier one. An `Err` changes nothing.
    pub fn put<'a>(
        &self,
        alloc: Global,
        tree: &mut Tree<'a>,
        form: Form,
        version: u32,
    ) -> Result<(), Memory>
        requires spot { IsSome (spot self.now (plain_of tree.old)) }
        requires version { version ≤ last_version }
        ensures ok { OnOk result (plain_of tree.new
            ≡ put_version self.now (version_tree form version) (plain_of tree.old)) }
        ensures err { OnErr result (plain_of tree.new ≡ plain_of tree.old) }
    {
        let name = Text::copied(alloc, self.last().bytes())?;
        put_under(self.names(), tree, name, tree_of(form, version))
    }

    /// An equal path.
    pub fn copy(&self, alloc: Global) -> Result<VersionPath, Memory>
        ensures { IfOk result (λ p. p ≡ self.now) }
    {
        let mut names = Vec::new(alloc);
        for name in self.names() {
            names.push(name.copy(alloc)?)?;
        }
        Ok(VersionPath { names })
    }

    /// Whether the two have the same names.
    pub fn same(&self, other: &VersionPath) -> bool
        ensures { IsTrue result ↔ (self.now ≡ other.now) }
    {
        self.names() == other.names()
    }
}

/// The tree of a version: an `Int` in NBT, a `Whole` in JSON.
fn tree_of<'a>(form: Form, version: u32) -> Tree<'a>
    requires { version ≤ last_version }
    ensures { plain_of result ≡ version_tree form version }
{
    match form {
        Form::Nbt => Tree::Int(version as i32),
        Form::Json => Tree::Whole(version as i64),
    }
}

/// The tree that the names lead to. It goes down once for each name.
fn reached<'t, 'a>(names: &[Name], tree: &'t Tree<'a>) -> Option<&'t Tree<'a>>
    requires { 0 < length names.now }
    ensures { option_map (λ t. plain_of t.now) result ≡ version_in names.now (plain_of tree.now) }
{
    let (name, rest) = names.split_first()?;
    match tree.get(name.bytes()) {
        Some(inner) if rest.is_empty() => Some(inner),
        Some(inner) => reached(rest, inner),
        None => None,
    }
}

/// Whether the names but the last lead to a map. It goes down once for each of them.
fn leads_to_map(names: &[Name], tree: &Tree) -> bool
    requires { 0 < length names.now }
    ensures { result ≡ is_some (spot names.now (plain_of tree.now)) }
{
    let Some((name, rest)) = names.split_first() else {
        return false;
    };
    if rest.is_empty() {
        return matches!(tree, Tree::Map(_));
    }
    match tree.get(name.bytes()) {
        Some(inner) => leads_to_map(rest, inner),
        None => false,
    }
}

/// Puts the tree back under the name from which one was taken.
fn put_back<'a>(entries: &mut Entries<'a>, name: &[u8], tree: Tree<'a>)
    requires { is_some (under name.now entries.old) ≡ true }
    ensures { entries.new ≡ put name.now (plain_of tree.entry) entries.old }
{
    let before = entries.swap(name, tree);
    drop(before);
}

/// Takes out what the names lead to. It goes down once for each name.
fn take_out<'a>(names: &[Name], tree: &mut Tree<'a>) -> Option<Tree<'a>>
    requires { 0 < length names.now }
    ensures version { option_map plain_of result ≡ version_in names.now (plain_of tree.old) }
    ensures rest { plain_of tree.new ≡ strip names.now (plain_of tree.old) }
{
    let (first, rest) = names.split_first()?;
    let name = first.bytes();
    let Tree::Map(entries) = tree else {
        return None;
    };
    if rest.is_empty() {
        return entries.remove(name);
    }
    let _pairs = entries.as_slice();
    let Some(mut inner) = entries.swap(name, Tree::Null) else {
        return None;
    };
    let taken = take_out(rest, &mut inner);
    put_back(entries, name, inner);
    taken
}

/// Puts the pair into the map that the names but the last lead to. It goes down once for each of them.
fn put_under<'a>(
    names: &[Name],
    tree: &mut Tree<'a>,
    last: Text<'a>,
    version: Tree<'a>,
) -> Result<(), Memory>
    requires some { 0 < length names.now }
    requires spot { IsSome (spot names.now (plain_of tree.old)) }
    ensures ok { OnOk result (plain_of tree.new
        ≡ on_spot (put_in last.entry (plain_of version.entry)) names.now (plain_of tree.old)) }
    ensures err { OnErr result (plain_of tree.new ≡ plain_of tree.old) }
{
    let (first, rest) = names.split_first().unwrap();
    let name = first.bytes();
    if rest.is_empty() {
        return tree.put(last, version);
    }
    let Tree::Map(entries) = tree else {
        unreachable!()
    };
    let _pairs = entries.as_slice();
    let mut inner = entries.swap(name, Tree::Null).unwrap();
    let result = put_under(rest, &mut inner, last, version);
    put_back(entries, name, inner);
    result
}
