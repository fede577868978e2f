//! The cores of the sites of a world.

ghost use Rattle.std.specs.Prelude.{◌≡◌, ◌<◌, ◌≤◌, length, option_map, replicate, slice_get, suc, IfErr, IfOk, IfSome, OnErr, OnOk};
ghost use Rattle.cover_world.specs.Cores.{has_job, opening_cores, opening_sites, ActsAt, Appends, BeginsAnew, IsSearchable, NoneIsTaken};
ghost use Rattle.cover_world.specs.Moves.{acting_refusal, names_limit, restart_refusal, world_answer, AnswerTells};
ghost use Rattle.cover_world.specs.Safety.{published_at};
ghost use Rattle.node_core.specs.Formed.{IsFormed};
ghost use Rattle.node_core.specs.Refusal.{IsFit};
ghost use Rattle.spawn_frame.specs.declared.site.TheConstants.{LAST_NODE};

use crate::world_fault::WorldFault;
use cover_problem::{Answer, Problem};
use node_core::{ActFault, Core, Event, NodeCore, Reply, SiteState};
use packet_wire::Packet;
use root_registry::Registry;
use spawn_frame::{Job, Site, Table};
use std::alloc::{AllocError, Global};
use std::marker::Model;

/// How many children each node may name, as many as in a run by threads (`udp_node`). Chosen, not measured.
pub const NAMES_LIMIT: u32 = 1_000_000;

/// The cores of the sites of a world: the registry's, and one for each node in its present incarnation.
#[derive(Drop)]
pub struct Sites<'a> {
    registry: Registry<'a>,
    nodes: Vec<NodeCore<'a>>,
    problem: &'a Problem,
    alloc: Global,
}

impl<'a> Model for Sites<'a> {
    ghost use Rattle.cover_world.specs.Cores.{views_of, AreSites, SitesCore};

    ghost Value = { SitesCore };

    ghost view = { λ s. record {
      problem = s.problem.now;
      sites = views_of s.registry s.nodes.items;
    } };

    ghost invariant = { λ s. AreSites s.problem.now s.registry s.nodes.items };
}

impl<'a> Sites<'a> {
    /// The registry and so many nodes, all of which begin.
    pub fn start(alloc: Global, problem: &'a Problem, nodes: u8) -> Result<Sites<'a>, AllocError>
        requires some { 1 ≤ nodes }
        requires most { nodes ≤ LAST_NODE }
        ensures { IfOk result (λ sites.
            sites ≡ opening_sites problem.now nodes (replicate nodes names_limit)) }
    {
        let registry = Registry::start(alloc, problem, nodes)?;
        Ok(Sites {
            registry,
            nodes: first_nodes(alloc, problem, nodes)?,
            problem,
            alloc,
        })
    }

    /// How many nodes there are beside the registry.
    pub fn nodes(&self) -> u8
        ensures count { suc result ≡ length self.now.sites }
        ensures some { 1 ≤ result }
        ensures most { result ≤ LAST_NODE }
    {
        self.nodes.len() as u8
    }

    /// What the registry publishes.
    pub fn published(&self) -> Option<&Answer>
        ensures { option_map (λ answer. answer.now) result
            ≡ published_at self.now.problem (slice_get self.now.sites 0) }
    {
        self.registry.published()
    }

    /// All that the site of a node knows; none where there is no such node.
    pub fn state(&self, node: u8) -> Option<&SiteState>
        ensures state { option_map (λ s. s.now) result ≡ slice_get self.now.sites node }
        ensures node { IfSome result (λ s. s.now.site.node ≡ node) }
        ensures formed { IfSome result (λ s. IsFormed self.now.problem s.now) }
    {
        if node == 0 {
            return Some(self.registry.state());
        }
        let core = self.nodes.get(node as usize - 1)?;
        Some(core.state())
    }

    /// One event of the site of a node, whose packets are appended to the list.
    pub fn act(
        &mut self,
        node: u8,
        event: Event,
        out: &mut Vec<Packet>,
    ) -> Result<Reply, WorldFault>
        requires fit { IsFit self.old.problem event }
        ensures problem { self.new.problem ≡ self.old.problem }
        ensures acts { IfOk result (λ reply. Appends out.old.items out.new.items (λ sent.
            ActsAt self.old.problem self.old.sites node event reply sent self.new.sites)) }
        ensures refusal { AnswerTells result
            (acting_refusal self.old.problem (slice_get self.old.sites node) node event) }
        ensures err { OnErr result (self.new ≡ self.old) }
        ensures list { OnErr result (out.new.items ≡ out.old.items) }
    {
        if node == 0 {
            return world_answer(self.registry.act(event, out));
        }
        let place = node as usize - 1;
        if place >= self.nodes.len() {
            return Err(WorldFault::NoSuchNode);
        }
        world_answer(self.nodes[place].act(event, out))
    }

    /// A node restarts under a greater incarnation.
    pub fn restart(&mut self, node: u8, incarnation: u32) -> Result<(), WorldFault>
        ensures problem { self.new.problem ≡ self.old.problem }
        ensures begins { OnOk result
            (BeginsAnew self.old.sites node incarnation names_limit self.new.sites) }
        ensures refusal { AnswerTells result
            (restart_refusal (slice_get self.old.sites node) node incarnation) }
        ensures err { OnErr result (self.new ≡ self.old) }
    {
        let Some(state) = self.state(node) else {
            return Err(WorldFault::NoSuchNode);
        };
        if node == 0 || incarnation <= state.site().incarnation {
            return Err(WorldFault::OldIncarnation);
        }
        let nodes = state.ledger().nodes();
        let site = Site { node, incarnation };
        let core = NodeCore::start(self.alloc, self.problem, site, nodes, NAMES_LIMIT)?;
        // (the earlier incarnation goes with all its units, as in a crash)
        self.nodes[node as usize - 1] = core;
        Ok(())
    }

    /// The prefix of a job that is the site's. Any other job is refused here, before anything is searched for.
    pub fn job_prefix(&self, node: u8, job: Job) -> Result<Vec<u16>, WorldFault>
        ensures ok { IfOk result (λ prefix.
            IsSearchable self.now.problem (slice_get self.now.sites node) job prefix.items) }
        ensures err { IfErr result (λ fault.
            NoneIsTaken self.now.problem (slice_get self.now.sites node) node job fault) }
    {
        let Some(state) = self.state(node) else {
            return Err(WorldFault::NoSuchNode);
        };
        // (as the site refuses a Post, and in the same order, since the search comes before its event)
        if node == 0 {
            return Err(WorldFault::Core(ActFault::OtherSite));
        }
        if state.is_over() {
            return Err(WorldFault::Core(ActFault::Over));
        }
        let table = state.ledger().table();
        if !is_at_work(table, job) {
            return Err(WorldFault::Core(ActFault::StaleJob));
        }
        let mut prefix = Vec::new(self.alloc);
        table.prefix_into(job.unit, &mut prefix)?;
        Ok(prefix)
    }
}

/// What a site answers, as an answer of the world.
fn world_answer(answer: Result<Reply, ActFault>) -> Result<Reply, WorldFault>
    ensures { result ≡ world_answer answer }
{
    match answer {
        Ok(reply) => Ok(reply),
        Err(fault) => Err(WorldFault::from(fault)),
    }
}

/// The nodes from 1 on, all of which begin.
fn first_nodes<'a>(
    alloc: Global,
    problem: &'a Problem,
    nodes: u8,
) -> Result<Vec<NodeCore<'a>>, AllocError>
    requires some { 1 ≤ nodes }
    requires most { nodes ≤ LAST_NODE }
    ensures { IfOk result (λ cores.
        cores.items ≡ opening_cores problem.now nodes 1 (replicate nodes names_limit)) }
{
    let mut cores = Vec::new(alloc);
    for place in 0..nodes {
        let site = Site {
            node: place + 1,
            incarnation: 1,
        };
        let core = NodeCore::start(alloc, problem, site, nodes, NAMES_LIMIT)?;
        cores.push(core)?;
    }
    Ok(cores)
}

/// Whether a worker of the site has the job's unit, at its attempt.
fn is_at_work(table: &Table, job: Job) -> bool
    ensures { result ≡ has_job table.now job }
{
    match table.unit(job.unit) {
        // (unlike in `has_job` no prefix is compared, since it is read from the unit itself)
        Some(view) => view.status.is_here() && view.attempt == job.attempt,
        None => false,
    }
}
