//! Books of sites at which events happen once more.

ghost use Rattle.std.specs.Prelude.{◌≡◌, ◌≤◌, IfOk};
ghost use Rattle.run_book.specs.Sites.{opening_of, IsRun, MayBeginIn};
ghost use Rattle.spawn_frame.specs.declared.site.TheConstants.{LAST_NODE};

use crate::audits::fault::TrialFault;
use crate::audits::player::Player;
use node_core::{Core, Event, NodeCore};
use root_registry::Registry;
use run_book::{
    Book, BookFault, CellName, CellParts, ReceiptToken, Run, Seat, SiteCell,
    cores_step_as_their_sites, sites_begin,
};
use spawn_frame::Site;
use std::alloc::Global;
use std::marker::Brand;
use std::sync::Wait;

/// How many entries a book has at most.
const ENTRIES: u64 = 1_000_000;

/// How many children a node names at most.
const NAMES: u32 = 1_000_000;

/// A player's event at a cell: the token of its receipt; none where the core refuses it, or where it may not be handed
/// to one.
fn happens<J: Run, C: Core + Drop, N: CellName, R: Wait>(
    rt: &R,
    player: &mut Player<'_, J>,
    cell: &SiteCell<J, C, N>,
    seat: &mut Seat<N>,
    event: Event,
) -> Result<Option<ReceiptToken<N>>, TrialFault> {
    let Some(fit) = player.fit(event)? else {
        return Ok(None);
    };
    match cell.act_at(rt, seat, fit) {
        Ok(receipt) => {
            let (receipt_token, _entry) = receipt.into_parts();
            Ok(Some(receipt_token))
        }
        Err((_event, BookFault::Memory)) => Err(TrialFault::Memory),
        Err((_event, _fault)) => Ok(None),
    }
}

/// The book of a cell that is handed these events, one after the other. Those that the core refuses aren't entered.
fn played<J: Run, C: Core + Drop, N: CellName, R: Wait>(
    rt: &R,
    alloc: Global,
    player: &mut Player<'_, J>,
    cell: SiteCell<J, C, N>,
    events: Vec<Event>,
) -> Result<Book<J>, TrialFault> {
    let mut seats = Vec::with_capacity(alloc, 1)?;
    let mut tokens = Vec::with_capacity(alloc, events.len())?;
    let mut seat = cell.seat(rt)?;
    for event in events {
        if let Some(receipt_token) = happens(rt, player, &cell, &mut seat, event)? {
            tokens.push(receipt_token)?;
        }
    }
    seats.push(seat)?;
    cell.settle(seats, tokens).or(Err(TrialFault::Unexpected))
}

/// The registry's book of these events, from its beginning.
fn root_played<J: Run, N: CellName, R: Wait>(
    rt: &R,
    alloc: Global,
    player: &mut Player<'_, J>,
    cell_parts: CellParts,
    core: Registry,
    events: Vec<Event>,
) -> Result<Book<J>, TrialFault>
    requires here { cell_parts ≡ record { table = N.table; name = N.name } }
    requires parts { N.parts ≡ 18446744073709551615 }
    requires run { IsRun J.run }
    requires begins { MayBeginIn J.run N.site N.limit }
    requires registry { N.site.node ≡ 0 }
    requires core { core ≡ record { problem = J.run.problem; view = opening_of J.run N.site N.limit } }
{
    cores_step_as_their_sites();
    let cell: SiteCell<J, Registry, N> = SiteCell::new(cell_parts, core, ENTRIES);
    played(rt, alloc, player, cell, events)
}

/// A node's book of these events, from its beginning.
fn node_played<J: Run, N: CellName, R: Wait>(
    rt: &R,
    alloc: Global,
    player: &mut Player<'_, J>,
    cell_parts: CellParts,
    core: NodeCore,
    events: Vec<Event>,
) -> Result<Book<J>, TrialFault>
    requires here { cell_parts ≡ record { table = N.table; name = N.name } }
    requires parts { N.parts ≡ 18446744073709551615 }
    requires run { IsRun J.run }
    requires begins { MayBeginIn J.run N.site N.limit }
    requires node { 1 ≤ N.site.node }
    requires core { core ≡ record { problem = J.run.problem; view = opening_of J.run N.site N.limit } }
{
    cores_step_as_their_sites();
    let cell: SiteCell<J, NodeCore, N> = SiteCell::new(cell_parts, core, ENTRIES);
    played(rt, alloc, player, cell, events)
}

/// The book of a site at which these events happen from its beginning, in a run of so many nodes. Events that the site
/// refuses don't happen.
pub fn play<J: Run, R: Wait>(
    rt: &R,
    alloc: Global,
    player: &mut Player<'_, J>,
    nodes: u8,
    site: Site,
    events: Vec<Event>,
) -> Result<Book<J>, TrialFault>
    requires nodes { nodes ≡ J.run.nodes }
    requires some { 1 ≤ nodes }
    requires most { nodes ≤ LAST_NODE }
{
    sites_begin();
    let problem = player.problem();
    problem.recall_rules();
    let cell_parts = CellParts::new(alloc)?;
    if site.node == 0 {
        let core = Registry::start(alloc, problem, nodes)?;
        return root_played::<J, Brand, R>(rt, alloc, player, cell_parts, core, events);
    }
    if site.node > nodes || site.incarnation == 0 {
        return Err(TrialFault::Unexpected);
    }
    let core = NodeCore::start(alloc, problem, site, nodes, NAMES)?;
    node_played::<J, Brand, R>(rt, alloc, player, cell_parts, core, events)
}
