ghost use Rattle.std.specs.Prelude.{◌≡◌};
ghost use Rattle.dlx_reader.specs.declared.answer_fault.AnswerFault.TheVariants.{Memory};

use std::alloc::{AllocError, AllocFailed};

/// Why a text is no answer for a problem. They are tested in this order.
#[derive(Clone, Copy, Debug, PartialEq, Eq)]
pub enum AnswerFault {
    /// The first line that isn't blank is neither `none` nor `cover` with one to five decimal digits, or there is no
    /// such line.
    BadHead,
    /// The number of further lines that aren't blank is not the one that the first says: that of `cover`, or 0 after
    /// `none`.
    WrongCount,
    /// The words of this line, counted from 1 over all lines, are no option's names, or each such option is that of an
    /// earlier line.
    UnknownOption(usize),
    /// Memory ran out.
    Memory,
}

impl From<AllocError> for AnswerFault {
    ghost from_gives = { λ _ fault. fault ≡ Memory };

    fn from(_error: AllocError) -> AnswerFault {
        AnswerFault::Memory
    }
}

impl<T: Drop> From<AllocFailed<T>> for AnswerFault {
    ghost from_gives = { λ _ fault. fault ≡ Memory };

    fn from(_error: AllocFailed<T>) -> AnswerFault {
        AnswerFault::Memory
    }
}
