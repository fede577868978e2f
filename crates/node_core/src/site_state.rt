//! What nodes and the registry have in common: the ledger and one flag, which is raised once and stays. That is the
//! whole view of a site, and a step is a relation between two of them; what else a core has only serves to compute it.

ghost use Rattle.std.specs.Prelude.{◌≡◌, ◌<◌, ◌^◌};
ghost use Rattle.spawn_frame.specs.Tables.{outs_of};

use packet_wire::{Body, Packet};
use spawn_frame::Site;
use std::alloc::Global;
use std::marker::Model;
use steal_return::Ledger;

/// All that a site knows: its ledger, and whether the search is over.
#[derive(Drop)]
pub struct SiteState {
    pub(crate) ledger: Ledger,
    pub(crate) over: bool,
    pub(crate) alloc: Global,
}

impl Model for SiteState {
    ghost use Rattle.node_core.specs.SiteView.{View};

    ghost Value = { View };

    ghost view = { λ s. record { ledger = s.ledger; over = s.over } };
}

impl SiteState {
    ghost use Rattle.node_core.specs.SiteView.{opening_view};

    /// What a site knows that begins with this ledger.
    pub fn new(alloc: Global, ledger: Ledger) -> SiteState
        ensures { result ≡ opening_view ledger }
    {
        SiteState {
            ledger,
            over: false,
            alloc,
        }
    }

    /// The site.
    pub fn site(&self) -> Site
        ensures { result ≡ self.now.site }
    {
        self.ledger.table().site()
    }

    /// Whether the search is over.
    pub fn is_over(&self) -> bool
        ensures { result ≡ self.now.over }
    {
        self.over
    }

    /// Its units, and what it knows of the others.
    pub fn ledger(&self) -> &Ledger
        ensures { result.now ≡ self.now.ledger }
    {
        &self.ledger
    }

    /// Where its memory comes from.
    pub fn allocator(&self) -> Global {
        self.alloc
    }

    /// A packet of this site.
    pub fn packet_to(&self, to: Site, body: Body) -> Packet
        ensures { result ≡ record { from = self.now.site; to = to; body = body } }
    {
        let from = self.site();
        Packet { from, to, body }
    }

    /// How many own children are out: an abort has no more thieves to tell.
    #[tactic(auto, using(crate::proofs::Outs::outs_few))]
    pub(crate) fn out_count(&self) -> usize
        ensures count { result ≡ outs_of self.now.own }
        ensures few { result < 2 ^ 32 }
    {
        let table = self.ledger.table();
        // (for its range: as many names at most as numbers of four bytes)
        let _issued = table.issued();
        table.outs()
    }
}
