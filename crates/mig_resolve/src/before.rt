//! What is known of the declarations before one, and what may be wrong with one by its place among the others.
ghost use Rattle.std.specs.Prelude.{◌≡◌, ◌+◌, ℤ, [], ◌∷◌, List, IfOk, map};
ghost use Rattle.mig_syntax.specs.TemplateSyntax.{TemplateSyntax};
ghost use Rattle.mig_syntax.specs.DeclSyntax as syntax;
ghost use Rattle.mig_syntax.specs.DeclSyntax.{DeclSyntax, FixSyntax};
ghost use Rattle.mig_syntax.specs.DeclView.{decl_of};
ghost use Rattle.mig_resolve.specs.Before.{IsBefore, IsOther};
ghost use Rattle.mig_resolve.specs.Text.{is_form, is_version, is_schema, is_own_schema, is_root, is_part, is_fix, ends_schema, has_root, nearest_version};
ghost use Rattle.mig_resolve.specs.Faults.{is_version_number, is_above, is_number, form_is_misplaced, version_is_misplaced, schema_is_misplaced, is_one_too_many, version_is_wrong, number_is_wrong};

use crate::sorts::{
    ends_schema, is_fix, is_form, is_own_schema, is_part, is_root, is_schema, is_version,
};
use crate::type_names::TypeNames;
use mig_model::LAST_VERSION;
use mig_syntax::Decl;
use mig_tree::{Memory, Name};
use std::alloc::Global;

const MOST_SCHEMAS: usize = 1024;

const MOST_FIXES: usize = 4096;

/// What is known of the declarations before one.
#[derive(Debug, Drop)]
pub struct Before {
    /// How many there are.
    pub count: usize,
    /// How many of them are schemas.
    pub schemas: usize,
    /// How many of them are fixes.
    pub fixes: usize,
    /// Whether the nearest schema or fix is a schema with a family of its own.
    pub is_under_own: bool,
    /// Whether a root stands under the nearest schema.
    pub has_root: bool,
    /// The version of the nearest schema.
    pub version: Option<i128>,
    /// The names of the types under the nearest schema.
    pub types: TypeNames,
}

/// One more than the number, which no memory holds where it fits no word.
fn one_more(number: usize) -> Result<usize, Memory>
    ensures { IfOk result (λ n. n ≡ number + 1) }
{
    number.checked_add(1).ok_or(Memory)
}

/// Whether the number is from 0 to the last version.
fn is_version_number(number: i128) -> bool
    ensures { result ≡ is_version_number number }
{
    number >= 0 && number <= LAST_VERSION as i128
}

/// Whether there is no version before, or it is below this one.
fn is_above(before: Option<i128>, version: i128) -> bool
    ensures { result ≡ is_above before version }
{
    match before {
        Some(before) => before < version,
        None => true,
    }
}

/// Whether the number is that version.
fn is_number(version: Option<i128>, number: i128) -> bool
    ensures { result ≡ is_number version number }
{
    match version {
        Some(version) => version == number,
        None => false,
    }
}

/// Whether a root stands among these, with no schema and no fix before it.
pub fn has_root(later: &[Decl]) -> bool
    ensures { result ≡ has_root (map decl_of later.now) }
{
    for decl in later {
        if ends_schema(decl) {
            return false;
        }
        if is_root(decl) {
            return true;
        }
    }
    false
}

/// The version of the first schema among these.
pub fn nearest_version(later: &[Decl]) -> Option<i128>
    ensures { result ≡ nearest_version (map decl_of later.now) }
{
    for decl in later {
        if let Decl::Schema(version, _) = decl {
            return Some(*version);
        }
    }
    None
}

/// Whether the declaration is a fix whose number isn't the version of the next schema.
pub fn number_is_wrong(decl: &Decl, next: Option<i128>) -> bool
    ensures { (later : List DeclSyntax) → next ≡ nearest_version later → result ≡ number_is_wrong (decl_of decl.now) later }
{
    match decl {
        Decl::Fix(number, _) => !is_number(next, *number),
        Decl::Form(_)
        | Decl::Version(_, _)
        | Decl::Schema(_, _)
        | Decl::Named(_, _)
        | Decl::Root(_) => false,
    }
}

impl Before {
    /// Nothing before.
    pub fn new(alloc: Global) -> Before
        ensures { IsBefore result [] }
    {
        Before {
            count: 0,
            schemas: 0,
            fixes: 0,
            is_under_own: false,
            has_root: false,
            version: None,
            types: TypeNames::new(alloc),
        }
    }

    /// Whether it is the first declaration and no `form`, or another one and a `form`.
    pub fn form_is_misplaced(&self, decl: &Decl) -> bool
        ensures { (before : List DeclSyntax) → IsBefore self.now before →
            result ≡ form_is_misplaced before (decl_of decl.now) }
    {
        if self.count == 0 {
            !is_form(decl)
        } else {
            is_form(decl)
        }
    }

    /// Whether it is the second declaration and no `version`, or another one and a `version`.
    pub fn version_is_misplaced(&self, decl: &Decl) -> bool
        ensures { (before : List DeclSyntax) → IsBefore self.now before →
            result ≡ version_is_misplaced before (decl_of decl.now) }
    {
        if self.count == 1 {
            !is_version(decl)
        } else {
            is_version(decl)
        }
    }

    /// Whether a schema, a type or a root stands in the wrong place.
    pub fn schema_is_misplaced(&self, decl: &Decl, later: &[Decl]) -> bool
        ensures { (before : List DeclSyntax) → IsBefore self.now before →
            result ≡ schema_is_misplaced before (decl_of decl.now) (map decl_of later.now) }
    {
        (self.count == 2 && !is_own_schema(decl))
            || (is_part(decl) && !self.is_under_own)
            || (is_root(decl) && self.has_root)
            || (is_own_schema(decl) && !has_root(later))
    }

    /// Whether it is one schema or one fix more than a text may have.
    pub fn is_one_too_many(&self, decl: &Decl) -> bool
        ensures { (before : List DeclSyntax) → IsBefore self.now before →
            result ≡ is_one_too_many before (decl_of decl.now) }
    {
        (is_schema(decl) && self.schemas == MOST_SCHEMAS)
            || (is_fix(decl) && self.fixes == MOST_FIXES)
    }

    /// Whether a schema's version is out of range or not above that of the schema before, or the `missing` number is out of range.
    pub fn version_is_wrong(&self, decl: &Decl) -> bool
        ensures { (before : List DeclSyntax) → IsBefore self.now before →
            result ≡ version_is_wrong before (decl_of decl.now) }
    {
        match decl {
            Decl::Schema(version, _) => {
                !is_version_number(*version) || !is_above(self.version, *version)
            }
            Decl::Version(_, Some(number)) => !is_version_number(*number),
            Decl::Version(_, None)
            | Decl::Form(_)
            | Decl::Named(_, _)
            | Decl::Root(_)
            | Decl::Fix(_, _) => false,
        }
    }

    /// What is known behind a schema of that version.
    fn behind_schema(self, alloc: Global, version: i128, follows: bool) -> Result<Before, Memory>
        ensures { (before : List DeclSyntax) → IsBefore self before →
            IfOk result (λ b. IsBefore b (syntax.schema version follows ∷ before)) }
    {
        let count = one_more(self.count)?;
        let schemas = one_more(self.schemas)?;
        Ok(Before {
            count,
            schemas,
            fixes: self.fixes,
            is_under_own: !follows,
            has_root: false,
            version: Some(version),
            types: TypeNames::new(alloc),
        })
    }

    /// What is known behind a fix.
    fn behind_fix(self, alloc: Global) -> Result<Before, Memory>
        ensures { (before : List DeclSyntax) (number : ℤ) (fix : FixSyntax) → IsBefore self before →
            IfOk result (λ b. IsBefore b (syntax.fix number fix ∷ before)) }
    {
        let count = one_more(self.count)?;
        let fixes = one_more(self.fixes)?;
        Ok(Before {
            count,
            schemas: self.schemas,
            fixes,
            is_under_own: false,
            has_root: false,
            version: self.version,
            types: TypeNames::new(alloc),
        })
    }

    /// What is known behind a type of that name.
    fn behind_type(self, name: Name) -> Result<Before, Memory>
        ensures { (before : List DeclSyntax) (template : TemplateSyntax) → IsBefore self before →
            IfOk result (λ b. IsBefore b (syntax.named name template ∷ before)) }
    {
        let mut next = self;
        next.count = one_more(next.count)?;
        next.types.add(name)?;
        Ok(next)
    }

    /// What is known behind a declaration that is no schema, no type and no fix.
    fn behind_other(self, root: bool) -> Result<Before, Memory>
        ensures { (before : List DeclSyntax) (decl : DeclSyntax) → IsBefore self before → root ≡ is_root decl →
            IsOther decl → IfOk result (λ b. IsBefore b (decl ∷ before)) }
    {
        let mut next = self;
        next.count = one_more(next.count)?;
        next.has_root = root || next.has_root;
        Ok(next)
    }

    /// What is known behind the declaration.
    pub fn behind(self, alloc: Global, decl: &Decl) -> Result<Before, Memory>
        ensures { (before : List DeclSyntax) → IsBefore self before →
            IfOk result (λ b. IsBefore b (decl_of decl.now ∷ before)) }
    {
        match decl {
            Decl::Schema(version, follows) => self.behind_schema(alloc, *version, *follows),
            Decl::Fix(_, _) => self.behind_fix(alloc),
            Decl::Named(name, _) => self.behind_type(name.copy(alloc)?),
            Decl::Root(_) => self.behind_other(true),
            Decl::Form(_) | Decl::Version(_, _) => self.behind_other(false),
        }
    }
}
