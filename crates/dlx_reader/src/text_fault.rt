//! Why a text is refused, with the name that a message quotes.

ghost use Rattle.std.specs.Prelude.{◌≡◌};
ghost use Rattle.dlx_reader.specs.Unknown.{plain};
ghost use Rattle.dlx_reader.specs.declared.fault.ReadFault.TheVariants.{Memory};
ghost use Rattle.dlx_reader.specs.declared.text_fault.TextFault.TheVariants.{Other};

use crate::fault::ReadFault;
use crate::short_name::ShortName;
use std::alloc::{AllocError, AllocFailed};

/// A name in an option that no item has.
#[derive(Clone, Copy, Debug)]
pub struct UnknownName {
    /// The number of its line, counted from 1 among all lines of the text.
    pub line: usize,
    /// The name, without a colour.
    pub name: ShortName,
}

/// Why a text has no problem. It says all that a `ReadFault` does, which it turns into, and which name no item has.
#[derive(Clone, Copy, Debug)]
pub enum TextFault {
    /// A word of an option names no item.
    UnknownItem(UnknownName),
    /// Any other fault.
    Other(ReadFault),
}

impl From<ReadFault> for TextFault {
    ghost from_gives = { λ fault e. e ≡ Other fault };

    fn from(fault: ReadFault) -> TextFault {
        TextFault::Other(fault)
    }
}

impl From<AllocError> for TextFault {
    ghost from_gives = { λ _ e. e ≡ Other Memory };

    fn from(_e: AllocError) -> TextFault {
        TextFault::Other(ReadFault::Memory)
    }
}

impl<T: Drop> From<AllocFailed<T>> for TextFault {
    ghost from_gives = { λ _ e. e ≡ Other Memory };

    fn from(_e: AllocFailed<T>) -> TextFault {
        TextFault::Other(ReadFault::Memory)
    }
}

impl From<TextFault> for ReadFault {
    ghost from_gives = { λ fault e. e ≡ plain fault };

    fn from(fault: TextFault) -> ReadFault {
        match fault {
            TextFault::UnknownItem(unknown) => ReadFault::UnknownItem(unknown.line),
            TextFault::Other(fault) => fault,
        }
    }
}
