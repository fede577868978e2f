//! Why an engine stops, with what a message names.

ghost use Rattle.std.specs.Prelude.{◌≡◌};
ghost use Rattle.search_engines.specs.Failures.{plain_fault};
ghost use Rattle.search_engines.specs.declared.failure.Failure.TheVariants.{Other};

use crate::fault::EngineFault;
use dlx_reader::{ReadFault, UnknownName};

/// Which of the inputs can't be read.
#[derive(Clone, Copy, Debug, PartialEq, Eq)]
pub enum Unread {
    /// The problem file.
    File,
    /// The answer file, which `check` alone has.
    Answer,
}

/// Why an engine stopped without an answer. It says all that an `EngineFault` does, which it turns into, and what a
/// message names beside.
#[derive(Debug, Drop)]
pub enum Failure {
    /// A read failed, of this input.
    Unread(Unread),
    /// The problem file is refused, since no item has this name.
    UnknownItem(UnknownName),
    /// Any other fault.
    Other(EngineFault),
}

impl From<EngineFault> for Failure {
    ghost from_gives = { λ fault failure. failure ≡ Other fault };

    fn from(fault: EngineFault) -> Failure {
        Failure::Other(fault)
    }
}

impl From<Failure> for EngineFault {
    ghost from_gives = { λ failure fault. fault ≡ plain_fault failure };

    fn from(failure: Failure) -> EngineFault {
        match failure {
            Failure::Unread(_) => EngineFault::Read,
            Failure::UnknownItem(unknown) => {
                EngineFault::File(ReadFault::UnknownItem(unknown.line))
            }
            Failure::Other(fault) => fault,
        }
    }
}
