//! Why an event is refused.

ghost use Rattle.std.specs.Prelude.{◌≡◌};
ghost use Rattle.node_core.specs.declared.act_fault.ActFault.TheVariants.{Memory};

use std::alloc::{AllocError, AllocFailed};

/// Why an event is refused. Whatever the fault is, the site stays as it was and no packet is put out.
#[derive(Clone, Copy, Debug, PartialEq, Eq)]
pub enum ActFault {
    /// The finding is of a job that the site doesn't wait for: the unit isn't worked on here at
    /// that attempt and with that prefix.
    StaleJob,
    /// The unit to be finished isn't split.
    NotOpen,
    /// The frame to be finished isn't settled.
    NotSettled,
    /// The child to be redone isn't out.
    NotOut,
    /// The packet is for another site or from a node that there isn't, or the victim is the site's
    /// own node or one that there isn't, or the registry is asked for what only nodes do.
    OtherSite,
    /// The node takes part no more.
    Over,
    /// The names for new children, or the attempts of a child to be redone, are used up.
    NamesSpent,
    /// Memory ran out.
    Memory,
    /// The cover that would enter doesn't count right. Only the registry says so.
    BadCover,
    /// The list that a packet gives isn't a prefix. Only nodes say so.
    BadPrefix,
}

impl From<AllocError> for ActFault {
    ghost from_gives = { λ _ e. e ≡ Memory };

    fn from(_e: AllocError) -> ActFault {
        ActFault::Memory
    }
}

impl<T: Drop> From<AllocFailed<T>> for ActFault {
    ghost from_gives = { λ _ e. e ≡ Memory };

    fn from(_e: AllocFailed<T>) -> ActFault {
        ActFault::Memory
    }
}
