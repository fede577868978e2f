use std::alloc::{AllocError, AllocFailed};
use std::io;

/// Why a trial stopped.
#[derive(Clone, Copy, Debug, PartialEq, Eq)]
pub enum TrialFault {
    /// Memory ran out.
    Memory,
    /// The text could not be written.
    Write,
    /// A site of the run has no book, or a book is not as those of a run are.
    Unexpected,
}

impl From<AllocError> for TrialFault {
    fn from(_: AllocError) -> TrialFault {
        TrialFault::Memory
    }
}

impl<T: Drop> From<AllocFailed<T>> for TrialFault {
    fn from(_: AllocFailed<T>) -> TrialFault {
        TrialFault::Memory
    }
}

impl From<io::Error> for TrialFault {
    fn from(_: io::Error) -> TrialFault {
        TrialFault::Write
    }
}
