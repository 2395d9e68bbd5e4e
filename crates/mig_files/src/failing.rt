//! The numbers of the calls that are to fail.
ghost use Rattle.std.specs.Prelude.{◌≡◌};
ghost use Rattle.mig_files.specs.Numbered.{is_listed};

// Whether this call is among them.
pub(crate) fn lists(failing: &[u64], call: u64) -> bool
    ensures { result ≡ is_listed failing.now call }
{
    failing.iter().any(|listed| *listed == call)
}
