//! A simulated search, told event by event.

ghost use Rattle.std.specs.Prelude.{◌<◌, ◌≤◌, length};
ghost use Rattle.spawn_frame.specs.declared.site.TheConstants.{LAST_NODE};

use crate::worlds::texts::{BodyText, OptionsText, SiteText, StatusText, UnitText};
use cover_problem::{Answer, Problem};
use cover_world::{World, WorldEvent, WorldFault};
use node_core::Reply;
use rand_core::SeedableRng;
use rand_pcg::Pcg32;
use spawn_frame::Unit;
use std::alloc::{AllocError, Global};
use std::io::{self, Write};

/// How a search is simulated: by how many nodes, from 1 to 16, from which seed, with how many visits a search, and with
/// how many restarts and turns at most.
#[derive(Clone, Copy, Debug, PartialEq, Eq)]
pub struct Plan {
    pub nodes: u8,
    pub seed: u64,
    pub fuel: u64,
    pub restarts: u32,
    pub turns: u32,
}

/// A world whose events are told, with the packets that have come to a site.
#[derive(Drop)]
struct Story<'a> {
    world: World<'a>,
    arrived: Vec<bool>,
}

/// Tells the events of a search until an answer is published, or so many turns are over: those that are refused or
/// change nothing are left out, and so are packets of which there is nothing new to tell. In the end it prints which
/// packets never came to a site.
pub fn tell<W: Write>(alloc: Global, problem: &Problem, plan: Plan, out: &mut W) -> io::Result<()>
    requires some { 1 ≤ plan.nodes }
    requires most { plan.nodes ≤ LAST_NODE }
{
    let world = World::start(alloc, problem, plan.nodes)?;
    let arrived = Vec::new(alloc);
    Story { world, arrived }.tell_turns(plan, out)
}

/// How a search went.
#[derive(Clone, Copy, Debug, PartialEq, Eq)]
pub struct Measured {
    /// How many events were drawn.
    pub turns: u32,
    /// How many packets were sent.
    pub packets: usize,
    /// Whether an answer was published.
    pub is_published: bool,
}

/// Lets a search go on until an answer is published, or so many turns are over, and measures it.
pub fn measure(alloc: Global, problem: &Problem, plan: Plan) -> io::Result<Measured>
    requires some { 1 ≤ plan.nodes }
    requires most { plan.nodes ≤ LAST_NODE }
{
    measure_turns(&mut World::start(alloc, problem, plan.nodes)?, plan)
}

/// Lets a search go on so, and measures it.
fn measure_turns(world: &mut World<'_>, plan: Plan) -> io::Result<Measured> {
    let mut rng = Pcg32::seed_from_u64(plan.seed);
    let mut restarts = plan.restarts;
    let mut turns = 0;
    for turn in 0..plan.turns {
        if world.published().is_some() {
            break;
        }
        let event = world.draw_event(&mut rng, plan.fuel, restarts);
        if matches!(event, WorldEvent::Restart(..)) {
            restarts = restarts.saturating_sub(1);
        }
        if world.step(event) == Err(WorldFault::Memory) {
            return Err(io::Error::from(io::ErrorKind::OutOfMemory));
        }
        turns = turn + 1;
    }
    Ok(Measured {
        turns,
        packets: world.sent(),
        is_published: world.published().is_some(),
    })
}

impl Story<'_> {
    /// Tells the turns of the search, and its end.
    fn tell_turns<W: Write>(&mut self, plan: Plan, out: &mut W) -> io::Result<()> {
        let mut rng = Pcg32::seed_from_u64(plan.seed);
        let mut restarts = plan.restarts;
        for turn in 0..plan.turns {
            if self.world.published().is_some() {
                break;
            }
            let event = self.world.draw_event(&mut rng, plan.fuel, restarts);
            if matches!(event, WorldEvent::Restart(..)) {
                restarts = restarts.saturating_sub(1);
            }
            self.tell_event(turn, event, out)?;
        }
        self.tell_end(out)
    }

    /// Tells an event and what it comes to, unless it is refused or nothing comes of it.
    fn tell_event<W: Write>(
        &mut self,
        turn: u32,
        event: WorldEvent,
        out: &mut W,
    ) -> io::Result<()> {
        let before = self.world.sent();
        match self.world.step(event) {
            Ok(Reply::Idle | Reply::Ignored) | Ok(Reply::Ripe(_)) => Ok(()),
            Ok(reply) => {
                write!(out, "{turn:>5}  ")?;
                self.tell_what(event, out)?;
                tell_reply(&reply, out)?;
                self.tell_packets(before, out)?;
                self.note_arrival(event)?;
                Ok(())
            }
            Err(WorldFault::Memory) => Err(io::Error::from(io::ErrorKind::OutOfMemory)),
            Err(_) => Ok(()),
        }
    }

    /// Tells what happened.
    fn tell_what<W: Write>(&self, event: WorldEvent, out: &mut W) -> io::Result<()> {
        match event {
            WorldEvent::Take(node) => write!(out, "node {node} takes up work"),
            WorldEvent::Post(node, job, _) => {
                write!(out, "node {node} has searched {}", UnitText(job.unit))?;
                self.tell_status(node, job.unit, out)
            }
            WorldEvent::Finish(node, unit) => {
                write!(out, "node {node} finishes {}", UnitText(unit))?;
                self.tell_status(node, unit, out)
            }
            WorldEvent::Ask(node, victim) => write!(out, "node {node} asks node {victim} for work"),
            WorldEvent::Redo(node, serial) => {
                write!(
                    out,
                    "node {node} gives up waiting for {}",
                    UnitText(Unit::Own(serial))
                )
            }
            WorldEvent::Again(node) => write!(out, "node {node} says again what may be lost"),
            WorldEvent::Greet(node) => write!(out, "node {node} greets the registry"),
            WorldEvent::Deliver(place) => self.tell_arrival(place, out),
            WorldEvent::Restart(node, incarnation) => {
                write!(out, "node {node} restarts: incarnation {incarnation}")
            }
        }
    }

    /// Tells how far a unit is.
    fn tell_status<W: Write>(&self, node: u8, unit: Unit, out: &mut W) -> io::Result<()> {
        match self.world.unit(node, unit) {
            Some(view) => write!(out, ": {}", StatusText(view.status)),
            None => Ok(()),
        }
    }

    /// Tells which packet came to which site.
    fn tell_arrival<W: Write>(&self, place: usize, out: &mut W) -> io::Result<()> {
        if place >= self.world.sent() {
            return Ok(());
        }
        let packet = self.world.packet(place);
        let again = self.arrived.get(place).is_some_and(|arrived| *arrived);
        let how = if again { "comes again" } else { "comes" };
        let to = SiteText(packet.to);
        write!(out, "p{place} {how} to {to}: {}", BodyText(&packet.body))
    }

    /// Tells the packets that were sent from this one on.
    fn tell_packets<W: Write>(&self, from: usize, out: &mut W) -> io::Result<()> {
        for place in from..self.world.sent() {
            let packet = self.world.packet(place);
            let to = SiteText(packet.to);
            writeln!(
                out,
                "             p{place} to {to}: {}",
                BodyText(&packet.body)
            )?;
        }
        Ok(())
    }

    /// Keeps that a packet has come to a site.
    fn note_arrival(&mut self, event: WorldEvent) -> Result<(), AllocError> {
        for _ in self.arrived.len()..self.world.sent() {
            self.arrived.push(false)?;
        }
        if let WorldEvent::Deliver(place) = event
            && place < self.arrived.len()
        {
            self.arrived[place] = true;
        }
        Ok(())
    }

    /// Tells the answer, and which packets never came to a site.
    fn tell_end<W: Write>(&self, out: &mut W) -> io::Result<()> {
        match self.world.published() {
            Some(Answer::Cover(options)) => writeln!(
                out,
                "published: cover {}",
                OptionsText(options)
            )?,
            Some(Answer::NoCover) => writeln!(out, "published: none")?,
            None => writeln!(out, "nothing is published in these turns")?,
        }
        write!(out, "never arrived:")?;
        for (place, arrived) in self.arrived.iter().enumerate() {
            if !*arrived {
                write!(out, " p{place}")?;
            }
        }
        writeln!(out)
    }
}

/// Ends the line of an event with what its site answers.
fn tell_reply<W: Write>(reply: &Reply, out: &mut W) -> io::Result<()> {
    match reply {
        Reply::Taken(job, prefix) => {
            writeln!(
                out,
                ": {}, prefix {}",
                UnitText(job.unit),
                OptionsText(prefix)
            )
        }
        _ => writeln!(out),
    }
}
