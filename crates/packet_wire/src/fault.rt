//! Why bytes are no packet.

ghost use Rattle.std.specs.Prelude.{◌≡◌};
ghost use Rattle.packet_wire.specs.declared.fault.WireFault.TheVariants.{Memory};

use std::alloc::{AllocError, AllocFailed};

/// Why bytes are no packet: the first fault from left to right. `Memory` says nothing of the bytes.
#[derive(Clone, Copy, Debug, PartialEq, Eq)]
pub enum WireFault {
    /// The bytes end before a field does.
    Short,
    /// The first two bytes are not `43 4e`.
    Magic,
    /// The version is not 1 or 2.
    Version,
    /// The number of the kind is not 1 to 10 in version 1, or not 4 in version 2.
    Kind,
    /// The value of another field is not allowed, or the two sites don't go with the kind, which is tested behind the
    /// header.
    Field,
    /// Bytes stand after the last field.
    Trailing,
    /// Memory ran out.
    Memory,
}

impl From<AllocError> for WireFault {
    ghost from_gives = { λ _ e. e ≡ Memory };

    fn from(_e: AllocError) -> WireFault {
        WireFault::Memory
    }
}

impl<T: Drop> From<AllocFailed<T>> for WireFault {
    ghost from_gives = { λ _ e. e ≡ Memory };

    fn from(_e: AllocFailed<T>) -> WireFault {
        WireFault::Memory
    }
}
