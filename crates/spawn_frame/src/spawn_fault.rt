//! Why a unit isn't split.

ghost use Rattle.std.specs.Prelude.{◌≡◌};
ghost use Rattle.spawn_frame.specs.declared.spawn_fault.SpawnFault.TheVariants.{Memory};

use std::alloc::{AllocError, AllocFailed};

/// Why a unit isn't split.
#[derive(Clone, Copy, Debug, PartialEq, Eq)]
pub enum SpawnFault {
    /// The site may not name so many children more.
    NamesSpent,
    /// Memory ran out.
    Memory,
}

impl From<AllocError> for SpawnFault {
    ghost from_gives = { λ _ e. e ≡ Memory };

    fn from(_e: AllocError) -> SpawnFault {
        SpawnFault::Memory
    }
}

impl<T: Drop> From<AllocFailed<T>> for SpawnFault {
    ghost from_gives = { λ _ e. e ≡ Memory };

    fn from(_e: AllocFailed<T>) -> SpawnFault {
        SpawnFault::Memory
    }
}
