//! What sort of declaration one is.
ghost use Rattle.std.specs.Prelude.{◌≡◌};
ghost use Rattle.mig_syntax.specs.DeclView.{decl_of};
ghost use Rattle.mig_resolve.specs.Text.{is_form, is_version, is_schema, is_own_schema, is_root, is_part, is_fix, ends_schema};

use mig_syntax::Decl;

/// Whether it is a `form`.
pub fn is_form(decl: &Decl) -> bool
    ensures { result ≡ is_form (decl_of decl.now) }
{
    match decl {
        Decl::Form(_) => true,
        Decl::Version(_, _)
        | Decl::Schema(_, _)
        | Decl::Named(_, _)
        | Decl::Root(_)
        | Decl::Fix(_, _) => false,
    }
}

/// Whether it is a `version`.
pub fn is_version(decl: &Decl) -> bool
    ensures { result ≡ is_version (decl_of decl.now) }
{
    match decl {
        Decl::Version(_, _) => true,
        Decl::Form(_) | Decl::Schema(_, _) | Decl::Named(_, _) | Decl::Root(_) | Decl::Fix(_, _) =>
            false,
    }
}

/// Whether it is a `schema`.
pub fn is_schema(decl: &Decl) -> bool
    ensures { result ≡ is_schema (decl_of decl.now) }
{
    match decl {
        Decl::Schema(_, _) => true,
        Decl::Form(_) | Decl::Version(_, _) | Decl::Named(_, _) | Decl::Root(_) | Decl::Fix(_, _) =>
            false,
    }
}

/// Whether it is a `root`.
pub fn is_root(decl: &Decl) -> bool
    ensures { result ≡ is_root (decl_of decl.now) }
{
    match decl {
        Decl::Root(_) => true,
        Decl::Form(_)
        | Decl::Version(_, _)
        | Decl::Schema(_, _)
        | Decl::Named(_, _)
        | Decl::Fix(_, _) => false,
    }
}

/// Whether it is a `type` or a `root`, which have to stand under a schema.
pub fn is_part(decl: &Decl) -> bool
    ensures { result ≡ is_part (decl_of decl.now) }
{
    match decl {
        Decl::Named(_, _) | Decl::Root(_) => true,
        Decl::Form(_) | Decl::Version(_, _) | Decl::Schema(_, _) | Decl::Fix(_, _) => false,
    }
}

/// Whether it is a `fix`.
pub fn is_fix(decl: &Decl) -> bool
    ensures { result ≡ is_fix (decl_of decl.now) }
{
    match decl {
        Decl::Fix(_, _) => true,
        Decl::Form(_)
        | Decl::Version(_, _)
        | Decl::Schema(_, _)
        | Decl::Named(_, _)
        | Decl::Root(_) => false,
    }
}

/// Whether it is a `schema` or a `fix`, which end what stands under the schema before.
pub fn ends_schema(decl: &Decl) -> bool
    ensures { result ≡ ends_schema (decl_of decl.now) }
{
    match decl {
        Decl::Schema(_, _) | Decl::Fix(_, _) => true,
        Decl::Form(_) | Decl::Version(_, _) | Decl::Named(_, _) | Decl::Root(_) => false,
    }
}

/// Whether it is a schema with a family of its own.
pub fn is_own_schema(decl: &Decl) -> bool
    ensures { result ≡ is_own_schema (decl_of decl.now) }
{
    match decl {
        Decl::Schema(_, follows) => !*follows,
        Decl::Form(_) | Decl::Version(_, _) | Decl::Named(_, _) | Decl::Root(_) | Decl::Fix(_, _) =>
            false,
    }
}
