//! Why a test of a certificate stopped.

ghost use Rattle.std.specs.Prelude.{◌≡◌};
ghost use Rattle.cover_certificates.specs.declared.fault.Fault.TheVariants.{Memory};

use crate::expected::Expected;
use std::alloc::{AllocError, AllocFailed};

/// Why a test of a certificate stopped before its end.
#[derive(Clone, Copy, Debug, PartialEq, Eq)]
pub(crate) enum Fault {
    /// The last line that was read is wrong.
    Wrong(Expected),
    /// Memory ran out.
    Memory,
}

impl From<AllocError> for Fault {
    ghost from_gives = { λ _ e. e ≡ Memory };

    fn from(_e: AllocError) -> Fault {
        Fault::Memory
    }
}

impl<T: Drop> From<AllocFailed<T>> for Fault {
    ghost from_gives = { λ _ e. e ≡ Memory };

    fn from(_e: AllocFailed<T>) -> Fault {
        Fault::Memory
    }
}
