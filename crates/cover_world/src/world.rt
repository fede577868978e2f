//! The model of a run: all sites, and a network that is an adversary. As models in TLA+ often have it, the packets ever
//! sent are kept and only become more. To deliver one leaves it there; so loss, repetition and reordering need no
//! events of their own, and every network is some choice of deliveries.
//!
//! It runs in one thread and has no clock, so each run can be made again from its list of events. The real cores act in
//! it, not models of them: what is proved of `step` is proved of the code that threads call.

ghost use Rattle.std.specs.Prelude.{◌≡◌, ◌<◌, ◌≤◌, length, option_map, slice_get, suc, IfErr, IfOk, MatchOption, None, OnErr, Some};
ghost use Rattle.cover_problem.specs.Problem.{IsProblem};
ghost use Rattle.cover_world.specs.Courses.{opening_core, HoldsThroughout, Makes, MayPass, Stepped, StopsAt, TakesAll};
ghost use Rattle.cover_world.specs.Moves.{move_refusal, world_refusal, AnswerMayTell, AnswerTells, EventTells, IsSiteView};
ghost use Rattle.cover_world.specs.Plays.{entry_in};
ghost use Rattle.cover_world.specs.Safety.{published};
ghost use Rattle.cover_world.specs.Views.{first_out, here_job, looked_up};
ghost use Rattle.cover_world.specs.Worlds.{Acts, Restarts, WasSent};
ghost use Rattle.node_core.specs.Formed.{AllFormed};
ghost use Rattle.node_core.specs.Refusal.{IsFit};
ghost use Rattle.node_core.specs.SiteView.{View};
ghost use Rattle.spawn_frame.specs.Picks.{ripe_unit};
ghost use Rattle.spawn_frame.specs.Tables.{IsSeen};
ghost use Rattle.spawn_frame.specs.declared.site.TheConstants.{LAST_NODE};

use crate::laws::{safe_over_every_run, the_world_acts_unless_it_refuses};
use crate::lookups::{first_out, here_job};
use crate::sites::Sites;
use crate::world_event::WorldEvent;
use crate::world_fault::{Starved, WorldFault};
use brancher::Searcher;
use cover_problem::{Answer, Problem};
use node_core::{Event, Reply};
use packet_wire::Packet;
use spawn_frame::{Job, Unit, UnitView};
use std::alloc::{AllocError, Global};
use std::marker::Model;

/// The registry and the nodes of a search as one thing that runs: the cores of their sites, and all packets that were
/// ever sent. Each node may name 1,000,000 children in each of its incarnations.
///
/// Losses, repeats and other orders of the packets are its caller's choice: a packet that was sent may be delivered at
/// any time, any number of times, or never.
#[derive(Drop)]
pub struct World<'a> {
    sites: Sites<'a>,
    searcher: Searcher<'a>,
    sent: Vec<Packet>,
    alloc: Global,
}

impl<'a> Model for World<'a> {
    ghost use Rattle.cover_world.specs.Cores.{IsWorld};
    ghost use Rattle.cover_world.specs.Courses.{WorldCore};

    ghost Value = { WorldCore };

    ghost view = { λ w. record {
      problem = w.sites.problem;
      world = record {
        sites = w.sites.sites;
        sent = w.sent.items;
      };
    } };

    ghost invariant = { λ w. IsWorld w.sites.problem w.searcher.problem w.sent.items };
}

impl<'a> World<'a> {
    /// The registry and 1 to 16 nodes, all in their first incarnation, and nothing sent. The only error is out of
    /// memory.
    pub fn start(alloc: Global, problem: &'a Problem, nodes: u8) -> Result<World<'a>, AllocError>
        requires some { 1 ≤ nodes }
        requires most { nodes ≤ LAST_NODE }
        ensures { IfOk result (λ world. world ≡ opening_core problem.now nodes) }
    {
        let sites = Sites::start(alloc, problem, nodes)?;
        Ok(World {
            sites,
            searcher: Searcher::new(alloc, problem)?,
            sent: Vec::new(alloc),
            alloc,
        })
    }

    /// Lets one event happen, and answers what its site does; a node that restarts answers `Moved`.
    ///
    /// The first of these that holds is the fault: `NoSuchPacket`, where no packet of that number was sent;
    /// `NoSuchNode`, where the node that acts or restarts isn't there; `OldIncarnation`, where the registry would
    /// restart, or a node under an incarnation that isn't above its present one; `Core`, where the site refuses the
    /// event. A job that isn't the site's is refused before anything is searched for. `Memory` comes only where memory
    /// ran out, and where no other fault is due; only for the search of a job and for the copy of a packet memory is
    /// taken before the rest is tested. A fault changes nothing.
    pub fn step(&mut self, event: WorldEvent) -> Result<Reply, WorldFault>
        ensures problem { self.new.problem ≡ self.old.problem }
        ensures step { IfOk result (λ reply.
            Stepped self.old.problem self.old.world event reply self.new.world) }
        ensures refusal { EventTells event result
            (world_refusal self.old.problem self.old.world event) }
        ensures err { OnErr result (self.new ≡ self.old) }
        ensures holds { HoldsThroughout self.old.problem self.old.world self.new.world }
    {
        // (the theorem, called for its clause; it does nothing at run time)
        safe_over_every_run();
        self.happen(event)
    }

    /// Lets one event happen.
    fn happen(&mut self, event: WorldEvent) -> Result<Reply, WorldFault>
        ensures problem { self.new.problem ≡ self.old.problem }
        ensures step { IfOk result (λ reply.
            Stepped self.old.problem self.old.world event reply self.new.world) }
        ensures refusal { EventTells event result
            (world_refusal self.old.problem self.old.world event) }
        ensures err { OnErr result (self.new ≡ self.old) }
    {
        match event {
            WorldEvent::Take(node) => self.act(node, Event::Take),
            WorldEvent::Post(node, job, fuel) => self.post(node, job, fuel),
            WorldEvent::Finish(node, unit) => self.act(node, Event::Finish(unit)),
            WorldEvent::Ask(node, victim) => self.act(node, Event::Ask(victim)),
            WorldEvent::Redo(node, serial) => self.act(node, Event::Redo(serial)),
            WorldEvent::Again(node) => self.act(node, Event::Again),
            WorldEvent::Greet(node) => self.act(node, Event::Greet),
            WorldEvent::Deliver(place) => self.deliver(place),
            WorldEvent::Restart(node, incarnation) => self.restart(node, incarnation),
        }
    }

    /// Lets the events happen in order, and answers how many of them were steps; each that is refused is passed over.
    ///
    /// If memory runs out, the only error, it stops before that event: the events before it were taken.
    pub fn run(&mut self, events: &[WorldEvent]) -> Result<usize, Starved>
        ensures problem { self.new.problem ≡ self.old.problem }
        ensures taken { IfOk result (λ done.
            TakesAll self.old.problem self.old.world events.now done self.new.world) }
        ensures starved { IfErr result (λ starved.
            StopsAt self.old.problem self.old.world events.now starved self.new.world) }
        ensures holds { HoldsThroughout self.old.problem self.old.world self.new.world }
    {
        safe_over_every_run();
        self.go_through(events)
    }

    /// Lets the events happen in order.
    fn go_through(&mut self, events: &[WorldEvent]) -> Result<usize, Starved>
        ensures problem { self.new.problem ≡ self.old.problem }
        ensures taken { IfOk result (λ done.
            TakesAll self.old.problem self.old.world events.now done self.new.world) }
        ensures starved { IfErr result (λ starved.
            StopsAt self.old.problem self.old.world events.now starved self.new.world) }
    {
        let mut done = 0;
        for at in 0..events.len() {
            let event = events[at];
            match self.pass(event) {
                Ok(took) => done += usize::from(took),
                Err(_) => return Err(Starved { at, done }),
            }
        }
        Ok(done)
    }

    /// Lets one event happen, or passes it over where it is refused: whether it was a step. The only error is out of
    /// memory.
    #[tactic(auto, using(crate::proofs::WorldSteps::event_may_tell))]
    pub(crate) fn pass(&mut self, event: WorldEvent) -> Result<bool, WorldFault>
        ensures problem { self.new.problem ≡ self.old.problem }
        ensures passes { IfOk result (λ took.
            MayPass self.old.problem self.old.world event took self.new.world) }
        ensures err { OnErr result (self.new ≡ self.old) }
    {
        the_world_acts_unless_it_refuses();
        match self.happen(event) {
            Ok(_) => Ok(true),
            Err(WorldFault::Memory) => Err(WorldFault::Memory),
            Err(_) => Ok(false),
        }
    }

    /// How many nodes there are beside the registry.
    pub fn nodes(&self) -> u8
        ensures count { suc result ≡ length self.now.world.sites }
        ensures some { 1 ≤ result }
        ensures most { result ≤ LAST_NODE }
    {
        self.sites.nodes()
    }

    /// What is published: the root's result once it is done, a cover with its options in the order of the file, or that
    /// there is none.
    pub fn published(&self) -> Option<&Answer>
        ensures { option_map (λ answer. answer.now) result
            ≡ published self.now.problem self.now.world }
    {
        self.sites.published()
    }

    /// How many packets were ever sent. Each of them has a spelling.
    pub fn sent(&self) -> usize
        ensures sent { result ≡ length self.now.world.sent }
        ensures formed { AllFormed self.now.world.sent }
    {
        self.sent.len()
    }

    /// The packet of this number, of all that were ever sent, from 0.
    pub fn packet(&self, place: usize) -> &Packet
        requires { place < length self.now.world.sent }
        ensures { slice_get self.now.world.sent place ≡ Some result.now }
    {
        &self.sent[place]
    }

    /// The present incarnation of a node, or of the registry at 0. The other clauses say what is true of each world.
    #[tactic(auto, using(crate::proofs::SiteCores::site_view))]
    pub fn incarnation(&self, node: u8) -> u32
        requires { node < length self.now.world.sites }
        ensures incarnation { option_map (λ view. view.site.incarnation)
            (slice_get self.now.world.sites node) ≡ Some result }
        ensures lawful { IsProblem self.now.problem }
        ensures site { (view : View) → slice_get self.now.world.sites node ≡ Some view
            → IsSiteView node view }
    {
        match self.sites.state(node) {
            Some(state) => state.site().incarnation,
            None => unreachable!(),
        }
    }

    /// The attempt and status of a unit at a node; none where it isn't there.
    pub fn unit(&self, node: u8, unit: Unit) -> Option<UnitView<'_>>
        ensures { MatchOption result (entry_in self.now.world node unit ≡ None)
            (λ view. IsSeen (entry_in self.now.world node unit) view.attempt view.status.now) }
    {
        self.sites.state(node)?.ledger().table().unit(unit)
    }

    /// The job of the least unit that a worker of the node has: own children by serial, then guests in order.
    pub fn here(&self, node: u8) -> Option<Job>
        ensures { result ≡ looked_up here_job (slice_get self.now.world.sites node) }
    {
        here_job(self.sites.state(node)?.ledger().table())
    }

    /// The settled frame of a node that is finished next, which a Take would tell; also of a node that is over.
    pub fn ripe(&self, node: u8) -> Option<Unit>
        ensures { result ≡ looked_up ripe_unit (slice_get self.now.world.sites node) }
    {
        self.sites.state(node)?.ledger().table().ripe()
    }

    /// That own child of a node which has the least serial of those that are out.
    pub fn out(&self, node: u8) -> Option<u32>
        ensures { result ≡ looked_up (λ table. first_out table.own)
            (slice_get self.now.world.sites node) }
    {
        first_out(self.sites.state(node)?.ledger().table())
    }

    /// A site has an event.
    fn act(&mut self, node: u8, event: Event) -> Result<Reply, WorldFault>
        requires fit { IsFit self.old.problem event }
        requires sent { WasSent self.old.world.sent event }
        ensures problem { self.new.problem ≡ self.old.problem }
        ensures makes { IfOk result (λ reply.
            Makes self.old.problem self.old.world (Acts node event) reply self.new.world) }
        ensures refusal { AnswerTells result
            (move_refusal self.old.problem self.old.world (Acts node event)) }
        ensures err { OnErr result (self.new ≡ self.old) }
    {
        self.sites.act(node, event, &mut self.sent)
    }

    /// A worker of a node has searched the prefix of a job: the world searches it.
    #[tactic(auto, using(crate::proofs::WorldSteps::may_tell))]
    fn post(&mut self, node: u8, job: Job, fuel: u64) -> Result<Reply, WorldFault>
        ensures problem { self.new.problem ≡ self.old.problem }
        ensures step { IfOk result (λ reply.
            Stepped self.old.problem self.old.world
            (WorldEvent.Post node job fuel) reply self.new.world) }
        ensures refusal { AnswerMayTell result
            (world_refusal self.old.problem self.old.world (WorldEvent.Post node job fuel)) }
        ensures err { OnErr result (self.new ≡ self.old) }
    {
        let prefix = self.sites.job_prefix(node, job)?;
        // (with no fuel a prefix that covers all items would count as spent, and be split into no children)
        match self.searcher.find(prefix, fuel.max(1)) {
            Ok(finding) => self.act(node, Event::Post(job, finding)),
            Err(_) => Err(WorldFault::Memory),
        }
    }

    /// A packet that was sent comes to the present site of its node.
    fn deliver(&mut self, place: usize) -> Result<Reply, WorldFault>
        ensures problem { self.new.problem ≡ self.old.problem }
        ensures step { IfOk result (λ reply.
            Stepped self.old.problem self.old.world
            (WorldEvent.Deliver place) reply self.new.world) }
        ensures refusal { AnswerMayTell result
            (world_refusal self.old.problem self.old.world (WorldEvent.Deliver place)) }
        ensures err { OnErr result (self.new ≡ self.old) }
    {
        let Some(packet) = self.sent.get(place) else {
            return Err(WorldFault::NoSuchPacket);
        };
        // (a copy: the packet stays, to be delivered once more)
        let packet = packet.copy()?;
        self.act(packet.to.node, Event::Deliver(packet))
    }

    /// A node restarts.
    fn restart(&mut self, node: u8, incarnation: u32) -> Result<Reply, WorldFault>
        ensures problem { self.new.problem ≡ self.old.problem }
        ensures step { IfOk result (λ reply.
            Stepped self.old.problem self.old.world
            (WorldEvent.Restart node incarnation) reply self.new.world) }
        ensures refusal { AnswerTells result
            (world_refusal self.old.problem self.old.world (WorldEvent.Restart node incarnation)) }
        ensures err { OnErr result (self.new ≡ self.old) }
    {
        self.sites.restart(node, incarnation)?;
        Ok(Reply::Moved)
    }
}
