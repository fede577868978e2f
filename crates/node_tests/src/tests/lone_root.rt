//! The registry by itself.
//!
//! Of the bugs of `udp_node` that are kept outside the gate, `the_end_is_announced_again` finds `the_end_is_said_once`.

ghost use Rattle.std.specs.Prelude.{◌≡◌};
ghost use Rattle.run_book.specs.Sites.{opening_of, IsRun, MayBeginIn};

use super::lone::{HERE, REGISTRY, Script, ScriptLink, agains, delivered};
use super::runs::{BARE, COVERED};
use super::timings::SOON_SILENT;
use cover_problem::Problem;
use dlx_reader::read_problem;
use packet_wire::{Body, Packet};
use root_registry::Registry;
use run_book::{CellName, CellParts, Run, SiteCell, cores_step_as_their_sites};
use spawn_frame::ChildResult;
use std::alloc::Global;
use std::marker::Brand;
use std::sync::Wait;
use std::test::Fail;
use std::thread::Threads;
use std::time::Clock;
use udp_node::{Plan, run_root};

/// Two nodes, which are not there, and so few turns that the registry soon ends.
const PLAN: Plan = Plan {
    workers: 3,
    nodes: 2,
    fuel: 1,
    seed: 1,
    turns: 100,
    timing: SOON_SILENT,
    entries: 1_000,
    book_bytes: 1_000_000_000,
    restarts: 0,
    limit: None,
};

/// What the registry came to.
#[derive(Clone, Copy, Debug, PartialEq, Eq)]
struct Ended {
    /// How many seats came back.
    seats: usize,
    /// In how many entries of its book a packet is delivered.
    delivered: usize,
    /// In how many it says again what may be lost.
    agains: usize,
}

/// Runs the registry at a cell, and closes that.
fn play<J: Run + Send + Sync, N: CellName + Send + Sync, R: Threads + Wait + Clock + Sync>(
    rt: &R,
    alloc: Global,
    cell_parts: CellParts,
    core: Registry,
    problem: &Problem,
    link: ScriptLink,
) -> Option<Ended>
    requires here { cell_parts ≡ record { table = N.table; name = N.name } }
    requires parts { N.parts ≡ 18446744073709551615 }
    requires run { IsRun J.run }
    requires begins { MayBeginIn J.run N.site N.limit }
    requires registry { N.site.node ≡ 0 }
    requires core { core ≡ record { problem = J.run.problem; view = opening_of J.run N.site N.limit } }
    requires problem { problem.now ≡ J.run.problem }
{
    cores_step_as_their_sites();
    let cell: SiteCell<J, Registry, N> = SiteCell::new(cell_parts, core, PLAN.entries);
    let end = run_root(rt, alloc, &cell, problem, link, PLAN);
    let (seats, tokens) = end.into_lists(alloc).ok()?;
    let many = seats.len();
    let book = cell.settle(seats, tokens).ok()?;
    Some(Ended {
        seats: many,
        delivered: delivered(book.entries()),
        agains: agains(book.entries()),
    })
}

/// What the registry comes to in a run of this problem.
fn run_at<R: Threads + Wait + Clock + Sync>(
    rt: &R,
    alloc: Global,
    problem: &Problem,
    script: Script,
) -> Result<Option<Ended>, Fail> {
    problem.recall_rules();
    let link = ScriptLink::new(alloc, script)?;
    let cell_parts = CellParts::new(alloc)?;
    let core = Registry::start(alloc, problem, PLAN.nodes)?;
    let ended = play::<Brand, Brand, _>(rt, alloc, cell_parts, core, problem, link);
    Ok(ended)
}

#[test]
fn the_registry_hears_a_node_and_gives_its_seat_back(rt: HostRuntime) -> Result<(), Fail> {
    let alloc = rt.alloc();
    let mut script = Script::new(alloc);
    for body in [Body::Hello, Body::Steal] {
        script.add(
            alloc,
            &Packet {
                from: HERE,
                to: REGISTRY,
                body,
            },
        )?;
    }
    let read = read_problem(alloc, COVERED.0.as_bytes())?;
    let ended = run_at(&rt, alloc, &read.problem, script)?;
    let Some(ended) = ended else {
        return Err(Fail::new("memory ran out"));
    };
    // (the plan's workers are a node's: the registry has the one thread that receives)
    assert_eq!(rt; (ended.seats, ended.delivered), (1, 2));
    Ok(())
}

/// A node steals the root and returns that it has no cover: the search is over, and the registry announces it twenty
/// times more, since the first announcement may be lost.
#[test]
fn the_end_is_announced_again(rt: HostRuntime) -> Result<(), Fail> {
    let alloc = rt.alloc();
    let mut script = Script::new(alloc);
    let (serial, attempt, result) = (0, 1, ChildResult::Empty);
    let empty = Body::Return {
        serial,
        attempt,
        result,
    };
    for body in [Body::Steal, empty] {
        let (from, to) = (HERE, REGISTRY);
        let packet = Packet { from, to, body };
        if packet_wire::is_well_formed(&packet) {
            script.add(alloc, &packet)?;
        }
    }
    let read = read_problem(alloc, BARE.0.as_bytes())?;
    let ended = run_at(&rt, alloc, &read.problem, script)?;
    let expected = Ended {
        seats: 1,
        delivered: 2,
        agains: 20,
    };
    assert_eq!(rt; ended, Some(expected));
    Ok(())
}
