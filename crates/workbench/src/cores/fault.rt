use node_core::ActFault;
use std::alloc::{AllocError, AllocFailed};

/// Why a count stopped.
#[derive(Clone, Copy, Debug, PartialEq, Eq)]
pub enum BenchFault {
    /// Memory ran out.
    Memory,
    /// A core refused an event.
    Act(ActFault),
    /// A core put out no packet where one was due, or one without a spelling; or a unit isn't as it was to be.
    Unexpected,
    /// The clock told no time.
    Clock,
}

impl From<AllocError> for BenchFault {
    fn from(_: AllocError) -> BenchFault {
        BenchFault::Memory
    }
}

impl<T: Drop> From<AllocFailed<T>> for BenchFault {
    fn from(_: AllocFailed<T>) -> BenchFault {
        BenchFault::Memory
    }
}

impl From<ActFault> for BenchFault {
    fn from(fault: ActFault) -> BenchFault {
        BenchFault::Act(fault)
    }
}
