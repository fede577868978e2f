//! The report of a site. Ends of several starts are put together by least, sum and greatest, so their order doesn't
//! matter.

use crate::end_cause::EndCause;

/// How a site of a run ended, over all its starts. The greatest numbers stay.
#[derive(Clone, Copy, Debug, PartialEq, Eq)]
pub struct SiteEnd {
    /// Why its threads ended: the first of all causes in the order of that type.
    pub cause: EndCause,
    /// How many parcels were lost: the outbox was full, or the link didn't send them.
    pub losses: u64,
    /// How many datagrams came that weren't heard: those of strangers, mostly, and what is no packet.
    pub dropped: u64,
    /// How many calls of its link failed.
    pub failures: u64,
    /// How many turns that one of its threads took which took the most.
    pub turns: u64,
    /// In some start a thread of each kind has begun while the site was to go on. Else the site took part in no search.
    pub is_manned: bool,
}

impl SiteEnd {
    /// The end of these starts and of a later one.
    pub fn with(self, later: SiteEnd) -> SiteEnd {
        SiteEnd {
            cause: self.cause.min(later.cause),
            losses: self.losses.saturating_add(later.losses),
            dropped: self.dropped.saturating_add(later.dropped),
            failures: self.failures.saturating_add(later.failures),
            turns: self.turns.max(later.turns),
            is_manned: self.is_manned || later.is_manned,
        }
    }

    /// Whether the others can't go on without the site of this node: the registry, and a node that took part and has
    /// not heard that the search is over, or whose memory ran out.
    pub fn ends_run(&self, node: u8) -> bool {
        match self.cause {
            EndCause::Over => node == 0,
            EndCause::Memory => true,
            EndCause::BookFull
            | EndCause::BooksFull
            | EndCause::Faults
            | EndCause::Silence
            | EndCause::Time
            | EndCause::Turns
            | EndCause::Stopped => {
                // (a node that lacked threads has taken no work, so the others lose nothing with it)
                node == 0 || self.is_manned
            }
        }
    }

    /// There was no start: with any other end it is that end.
    pub const NONE: SiteEnd = SiteEnd {
        cause: EndCause::Stopped,
        losses: 0,
        dropped: 0,
        failures: 0,
        turns: 0,
        is_manned: false,
    };

    /// There was no memory for the site to start, or to close.
    pub const STARVED: SiteEnd = SiteEnd {
        cause: EndCause::Memory,
        ..SiteEnd::NONE
    };
}
