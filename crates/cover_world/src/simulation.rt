//! A world that goes on by chance until an answer is published, and how it is brought to one.

ghost use Rattle.std.specs.Prelude.{◌≡◌, ◌<◌, ◌≤◌, is_some, length, slice_get, IfOk, OnOk};
ghost use Rattle.cover_world.specs.Courses.{HoldsThroughout};
ghost use Rattle.cover_world.specs.Draws.{node_count};
ghost use Rattle.cover_world.specs.Safety.{published};
ghost use Rattle.cover_world.specs.Simulation.{deliver_last, left_after, next_incarnation, simulation, AllGreet, AsksForWork, Closes, Draws, Ends, Greets, Searches, Simulated, SearchesJob, Tries, Turns};
ghost use Rattle.cover_world.specs.Views.{here_job, looked_up};
ghost use Rattle.cover_world.specs.Worlds.{Run};

use crate::laws::safe_over_every_run;
use crate::world::World;
use crate::world_event::WorldEvent;
use rand_pcg::Pcg32;
use std::alloc::AllocError;

/// Lets a world go on by chance: draws events, so many at most, until an answer is published; each is tried, and passed
/// over where it is refused. So many restarts are drawn at most. Where nothing is published then, every node restarts
/// and greets the registry, and the first one asks it for work and searches that with the greatest fuel.
///
/// The only error is out of memory; the world then stands where it was met, at the end of a run from where it began.
#[tactic(auto, using(crate::proofs::Reached::goes_on))]
pub fn simulate(
    world: &mut World,
    rng: &mut Pcg32,
    fuel: u64,
    turns: u32,
    restarts: u32,
) -> Result<(), AllocError>
    ensures problem { world.new.problem ≡ world.old.problem }
    ensures simulated { OnOk result (Simulated world.old.problem fuel turns
        (simulation world.old.world rng.old restarts) world.new.world) }
    ensures run { Run world.old.problem world.old.world world.new.world }
    ensures holds { HoldsThroughout world.old.problem world.old.world world.new.world }
{
    safe_over_every_run();
    play(world, rng, fuel, turns, restarts)?;
    bring_to_an_end(world)
}

/// Whether an answer is published.
fn is_answered(world: &World) -> bool
    ensures { result ≡ is_some (published world.now.problem world.now.world) }
{
    world.published().is_some()
}

/// So many turns, of which those change nothing that come once an answer is published; answers the restarts that are
/// left.
#[tactic(auto, using(crate::proofs::Reached::goes_on))]
fn play(
    world: &mut World,
    rng: &mut Pcg32,
    fuel: u64,
    turns: u32,
    restarts: u32,
) -> Result<u32, AllocError>
    ensures problem { world.new.problem ≡ world.old.problem }
    ensures run { Run world.old.problem world.old.world world.new.world }
    ensures turns { IfOk result (λ left. Turns world.old.problem fuel turns
        (simulation world.old.world rng.old restarts) (simulation world.new.world rng.new left)) }
{
    let mut left = restarts;
    for _turn in 0..turns {
        if is_answered(world) {
            return Ok(left);
        }
        left = draw(world, rng, fuel, left)?;
    }
    Ok(left)
}

/// The closing phase, where no answer is published.
#[tactic(auto, using(crate::proofs::Reached::same_run))]
fn bring_to_an_end(world: &mut World) -> Result<(), AllocError>
    ensures problem { world.new.problem ≡ world.old.problem }
    ensures run { Run world.old.problem world.old.world world.new.world }
    ensures ends { OnOk result (Ends world.old.problem world.old.world world.new.world) }
{
    if is_answered(world) {
        return Ok(());
    }
    close(world)
}

/// Draws an event and tries it; answers the restarts that are left.
fn draw(world: &mut World, rng: &mut Pcg32, fuel: u64, restarts: u32) -> Result<u32, AllocError>
    ensures problem { world.new.problem ≡ world.old.problem }
    ensures run { Run world.old.problem world.old.world world.new.world }
    ensures draws { IfOk result (λ left. Draws world.old.problem fuel
        (simulation world.old.world rng.old restarts) (simulation world.new.world rng.new left)) }
{
    let event = world.draw_event(rng, fuel, restarts);
    try_event(world, event)?;
    // (a restart is counted when it is drawn, even if it is refused)
    Ok(left_after(restarts, event))
}

/// The restarts that are left once this event was drawn.
fn left_after(restarts: u32, event: WorldEvent) -> u32
    ensures { result ≡ left_after restarts event }
{
    match event {
        WorldEvent::Restart(_, _) => restarts.saturating_sub(1),
        _ => restarts,
    }
}

/// Lets an event happen, or passes it over where it is refused; the only error is out of memory.
#[tactic(auto, using(crate::proofs::Simulating::passed_nodes, crate::proofs::Reached::passed_run, crate::proofs::Reached::same_run))]
fn try_event(world: &mut World, event: WorldEvent) -> Result<(), AllocError>
    ensures problem { world.new.problem ≡ world.old.problem }
    ensures run { Run world.old.problem world.old.world world.new.world }
    ensures nodes { length world.new.world.sites ≡ length world.old.world.sites }
    ensures tries { OnOk result (Tries world.old.problem world.old.world event world.new.world) }
{
    match world.pass(event) {
        Ok(_) => Ok(()),
        Err(_) => Err(AllocError),
    }
}

/// The packet that was sent last is delivered.
fn deliver_last(world: &mut World) -> Result<(), AllocError>
    ensures problem { world.new.problem ≡ world.old.problem }
    ensures run { Run world.old.problem world.old.world world.new.world }
    ensures nodes { length world.new.world.sites ≡ length world.old.world.sites }
    ensures tries { OnOk result
        (Tries world.old.problem world.old.world (deliver_last world.old.world) world.new.world) }
{
    // (where nothing was sent there is no packet 0 either, so the event is passed over)
    try_event(world, WorldEvent::Deliver(world.sent().saturating_sub(1)))
}

/// All nodes restart and greet; then the first one asks for work and searches it.
#[tactic(auto, using(crate::proofs::Reached::goes_on))]
fn close(world: &mut World) -> Result<(), AllocError>
    ensures problem { world.new.problem ≡ world.old.problem }
    ensures run { Run world.old.problem world.old.world world.new.world }
    ensures closes { OnOk result (Closes world.old.problem world.old.world world.new.world) }
{
    // (so that a root that is out is redone, whoever has it, and node 1 has all its names and no other work)
    all_greet(world)?;
    ask_for_work(world)?;
    search(world)
}

/// Every node restarts and greets, one after another.
#[tactic(auto, using(crate::proofs::Reached::goes_on))]
fn all_greet(world: &mut World) -> Result<(), AllocError>
    ensures problem { world.new.problem ≡ world.old.problem }
    ensures run { Run world.old.problem world.old.world world.new.world }
    ensures greet { OnOk result
        (AllGreet world.old.problem (node_count world.old.world) world.old.world world.new.world) }
{
    for place in 0..world.nodes() {
        greet(world, place + 1)?;
    }
    Ok(())
}

/// A node restarts and greets, and is heard.
#[tactic(auto, using(crate::proofs::Reached::goes_on))]
fn greet(world: &mut World, node: u8) -> Result<(), AllocError>
    requires { node < length world.old.world.sites }
    ensures problem { world.new.problem ≡ world.old.problem }
    ensures run { Run world.old.problem world.old.world world.new.world }
    ensures nodes { length world.new.world.sites ≡ length world.old.world.sites }
    ensures greets { OnOk result (Greets world.old.problem node world.old.world world.new.world) }
{
    try_event(
        world,
        WorldEvent::Restart(node, next_incarnation(world, node)),
    )?;
    try_event(world, WorldEvent::Greet(node))?;
    deliver_last(world)
}

/// The incarnation after a node's present one, or the last.
fn next_incarnation(world: &World, node: u8) -> u32
    requires { node < length world.now.world.sites }
    ensures { result ≡ next_incarnation (slice_get world.now.world.sites node) }
{
    world.incarnation(node).saturating_add(1)
}

/// The first node asks the registry for work, and both are heard.
#[tactic(auto, using(crate::proofs::Reached::goes_on))]
fn ask_for_work(world: &mut World) -> Result<(), AllocError>
    ensures problem { world.new.problem ≡ world.old.problem }
    ensures run { Run world.old.problem world.old.world world.new.world }
    ensures asks { OnOk result (AsksForWork world.old.problem world.old.world world.new.world) }
{
    try_event(world, WorldEvent::Ask(1, 0))?;
    // (the Steal at the registry, then the Give that answers it)
    deliver_last(world)?;
    deliver_last(world)
}

/// The first node takes up a job and searches it, and what it says last is heard.
#[tactic(auto, using(crate::proofs::Reached::goes_on))]
fn search(world: &mut World) -> Result<(), AllocError>
    ensures problem { world.new.problem ≡ world.old.problem }
    ensures run { Run world.old.problem world.old.world world.new.world }
    ensures searches { OnOk result (Searches world.old.problem world.old.world world.new.world) }
{
    try_event(world, WorldEvent::Take(1))?;
    search_job(world)?;
    deliver_last(world)
}

/// The job of the first node is searched with the greatest fuel, if it has one.
#[tactic(auto, using(crate::proofs::Reached::same_run))]
fn search_job(world: &mut World) -> Result<(), AllocError>
    ensures problem { world.new.problem ≡ world.old.problem }
    ensures run { Run world.old.problem world.old.world world.new.world }
    ensures searches { OnOk result (SearchesJob world.old.problem
        (looked_up here_job (slice_get world.old.world.sites 1)) world.old.world world.new.world) }
{
    match world.here(1) {
        Some(job) => try_event(world, WorldEvent::Post(1, job, u64::MAX)),
        None => Ok(()),
    }
}
