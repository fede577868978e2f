//! One site of a run, from its first incarnation to its books.

ghost use Rattle.std.specs.Prelude.{◌≡◌, ◌+◌, ◌≤◌, None, true, is_some, suc, vec_len, IfOk, IfSome};
ghost use Rattle.std.specs.Vec.{vec_capacity};
ghost use Rattle.node_core.specs.Requests.{registry};
ghost use Rattle.run_book.specs.Sites.{opening_of, IsRun, MayBeginIn, StepsAt};
ghost use Rattle.udp_node.specs.Incarnations.{are_incarnations};

use crate::context::Context;
use crate::incarnation_plan::plan_of_incarnation;
use crate::node::run_threads;
use crate::node_end::NodeEnd;
use node_core::{Core, NodeCore};
use root_registry::Registry;
use run_book::{Book, CellName, CellParts, Run, SiteCell, cores_step_as_their_sites, sites_begin};
use site_limits::{EndCause, Follower, Gate, Plan, SiteEnd};
use site_network::Link;
use spawn_frame::Site;
use std::alloc::{AllocError, Global};
use std::marker::Brand;
use std::sync::Wait;
use std::thread::Threads;
use std::time::Clock;

/// How many children a node may name in an incarnation: some 100 MB of them. Beyond that it splits no job, and searches
/// it with more fuel. Chosen, not measured.
const NAMES: u32 = 1_000_000;

/// What the sites of a run share.
#[derive(Drop)]
pub struct RunContext<'a, J: Run, H: Gate + Follower> {
    /// What the threads of all of them share.
    pub context: Context<'a, J, H>,
    /// How they work, and how many there are.
    pub plan: Plan,
    pub ghost is_run: { IsRun J.run },
    pub ghost nodes: { plan.nodes ≡ J.run.nodes },
}

impl<J: Run, H: Gate + Follower> RunContext<'_, J, H> {
    /// Ends the run with the site of this node, which ended so.
    fn end(&self, node: u8, end: &SiteEnd) {
        self.context.hooks.ended(node, end);
        self.context.ending.raise();
    }
}

/// A site of a run: its link before it runs, its books and how it ended afterwards.
#[derive(Drop)]
pub struct SiteRun<J: Run, L: Link> {
    pub node: u8,
    pub link: Option<L>,
    /// How often it restarts.
    pub restarts: u8,
    /// How many incarnations there were.
    pub incarnations: u32,
    /// The books of these, in their order, with room for one of each.
    pub books: Vec<Book<J>>,
    pub end: SiteEnd,
    pub ghost there: { node ≤ J.run.nodes },
    pub ghost once: { node ≡ 0 → restarts ≡ 0 },
    pub ghost fresh: { is_some link ≡ true → incarnations ≡ 0 },
    pub ghost own: { are_incarnations node 1 (suc incarnations) books.items ≡ true },
    pub ghost few: { vec_len books ≤ incarnations },
    pub ghost room: { restarts + 1 ≤ vec_capacity books },
}

impl<J: Run, L: Link> SiteRun<J, L> {
    /// The site of a node before it runs; node 1 restarts so many times. The only error is out of memory.
    pub fn new(alloc: Global, node: u8, restarts: u8, link: L) -> Result<SiteRun<J, L>, AllocError>
        requires { node ≤ J.run.nodes }
        ensures { IfOk result (λ site. site.node ≡ node) }
    {
        let restarts = if node == 1 { restarts } else { 0 };
        Ok(SiteRun {
            node,
            link: Some(link),
            restarts,
            incarnations: 0,
            books: Vec::with_capacity(alloc, usize::from(restarts) + 1)?,
            end: SiteEnd::NONE,
        })
    }

    /// Runs all incarnations of the site to their ends, once, one after the other. A node waits until the registry's
    /// threads have begun, so that the registry gets its own where few can be started. The run ends if the others can't
    /// go on without the site afterwards, or no node is left.
    pub fn run<H: Gate + Follower + Sync, R: Threads + Wait + Clock + Sync>(
        &mut self,
        rt: &R,
        run_context: &RunContext<'_, J, H>,
    )
    where
        J: Send + Sync,
        L: Send,
        ensures { self.new.node ≡ self.old.node }
    {
        if self.node != 0 && !run_context.context.ending.await_registry(rt) {
            self.end.cause = run_context.context.ending.cause(rt);
            run_context.end(self.node, &self.end);
            return;
        }
        // (the site is behind a reference, so its link is taken out for the threads to own)
        if let Some(link) = self.link.take() {
            self.run_incarnations(rt, run_context, link);
        }
        // (the registry isn't counted: without a node there is nobody who could return the root's result)
        let is_last = self.node != 0 && run_context.context.ending.leave();
        if is_last || self.end.ends_run(self.node) {
            run_context.end(self.node, &self.end);
        }
    }

    /// Runs all incarnations of the site to their ends. Its link stays open over all of them: the last has
    /// it, the others a twin of it.
    fn run_incarnations<H: Gate + Follower + Sync, R: Threads + Wait + Clock + Sync>(
        &mut self,
        rt: &R,
        run_context: &RunContext<'_, J, H>,
        link: L,
    )
    where
        J: Send + Sync,
        L: Send,
        requires taken { self.old.link ≡ None }
        requires none { self.old.incarnations ≡ 0 }
        ensures { self.new.node ≡ self.old.node }
    {
        for _incarnation in 0..self.restarts {
            // (handed on as it is: a twin that was refused ends this incarnation as one without memory)
            let twin = link.twin();
            self.run_next(rt, run_context, twin);
        }
        self.run_next(rt, run_context, Ok(link));
    }

    /// Runs the next incarnation to its end, over this link, unless there is no memory for it.
    fn run_next<H: Gate + Follower + Sync, R: Threads + Wait + Clock + Sync>(
        &mut self,
        rt: &R,
        run_context: &RunContext<'_, J, H>,
        link: Result<L, AllocError>,
    )
    where
        J: Send + Sync,
        L: Send,
        requires taken { self.old.link ≡ None }
        requires left { self.old.incarnations ≤ self.old.restarts }
        ensures taken { self.new.link ≡ None }
        ensures node { self.new.node ≡ self.old.node }
        ensures restarts { self.new.restarts ≡ self.old.restarts }
        ensures incarnations { self.new.incarnations ≡ self.old.incarnations + 1 }
    {
        let is_over = self.end.cause == EndCause::Over;
        let plan = plan_of_incarnation(run_context.plan, self.restarts, is_over);
        self.incarnations += 1;
        let site = Site {
            node: self.node,
            incarnation: self.incarnations,
        };
        let (book, end) = run_site(rt, run_context, site, plan, link);
        if let Some(book) = book {
            self.books.push_reserved(book);
        }
        self.end = self.end.with(end);
    }

    /// Returns the books of its incarnations, in their order, and how it ended.
    pub fn into_end(self) -> (Vec<Book<J>>, SiteEnd)
        ensures { are_incarnations self.node 1 (suc self.incarnations) result.0.items ≡ true }
    {
        let SiteRun {
            node: _,
            link: _,
            restarts: _,
            incarnations: _,
            books,
            end,
        } = self;
        (books, end)
    }
}

/// Runs an incarnation of a site to its end. There is no book if there was no memory for it.
fn run_site<
    J: Run + Send + Sync,
    L: Link + Send,
    H: Gate + Follower + Sync,
    R: Threads + Wait + Clock + Sync,
>(
    rt: &R,
    run_context: &RunContext<'_, J, H>,
    site: Site,
    plan: Plan,
    link: Result<L, AllocError>,
) -> (Option<Book<J>>, SiteEnd)
    requires there { site.node ≤ run_context.now.plan.nodes }
    requires some { 1 ≤ site.incarnation }
    requires registry { site.node ≡ 0 → site.incarnation ≡ 1 }
    requires plan { plan.nodes ≡ run_context.now.plan.nodes }
    ensures { IfSome result.0 (λ book. book.site ≡ site) }
{
    let ran = if site.node == 0 {
        start_registry(rt, run_context, plan, link)
    } else {
        start_node(rt, run_context, site, plan, link)
    };
    match ran {
        Ok(ended) => ended,
        Err(AllocError) => (None, SiteEnd::STARVED),
    }
}

/// Starts the registry, which has no workers, and runs it to its end. The only error is out of memory at the start.
fn start_registry<
    J: Run + Send + Sync,
    L: Link + Send,
    H: Gate + Follower + Sync,
    R: Threads + Wait + Clock + Sync,
>(
    rt: &R,
    run_context: &RunContext<'_, J, H>,
    plan: Plan,
    link: Result<L, AllocError>,
) -> Result<(Option<Book<J>>, SiteEnd), AllocError>
    ensures { IfOk result (λ ended. IfSome ended.0 (λ book. book.site ≡ registry)) }
{
    sites_begin();
    cores_step_as_their_sites();
    let link = link?;
    let plan = Plan { workers: 0, ..plan };
    let (alloc, tables) = (run_context.context.alloc, run_context.context.tables);
    let cell_parts = CellParts::new(alloc)?;
    let core = Registry::start(alloc, tables.problem(), run_context.plan.nodes)?;
    // (a type names the cell, by which seats and receipts are tied to it: here Brand gets the names of these parts)
    Ok(run_core::<J, Registry, Brand, L, H, R>(rt, run_context, plan, cell_parts, core, link))
}

/// Starts the site of a node, and runs it to its end. The only error is out of memory at the start.
fn start_node<
    J: Run + Send + Sync,
    L: Link + Send,
    H: Gate + Follower + Sync,
    R: Threads + Wait + Clock + Sync,
>(
    rt: &R,
    run_context: &RunContext<'_, J, H>,
    site: Site,
    plan: Plan,
    link: Result<L, AllocError>,
) -> Result<(Option<Book<J>>, SiteEnd), AllocError>
    requires some { 1 ≤ site.node }
    requires most { site.node ≤ run_context.now.plan.nodes }
    requires incarnation { 1 ≤ site.incarnation }
    ensures { IfOk result (λ ended. IfSome ended.0 (λ book. book.site ≡ site)) }
{
    sites_begin();
    cores_step_as_their_sites();
    let link = link?;
    let (alloc, tables) = (run_context.context.alloc, run_context.context.tables);
    let cell_parts = CellParts::new(alloc)?;
    let nodes = run_context.plan.nodes;
    let core = NodeCore::start(alloc, tables.problem(), site, nodes, NAMES)?;
    Ok(run_core::<J, NodeCore, Brand, L, H, R>(rt, run_context, plan, cell_parts, core, link))
}

/// Runs a site whose core begins to its end.
fn run_core<
    J: Run + Send + Sync,
    C: Core + Drop + Send,
    N: CellName + Send + Sync,
    L: Link + Send,
    H: Gate + Follower + Sync,
    R: Threads + Wait + Clock + Sync,
>(
    rt: &R,
    run_context: &RunContext<'_, J, H>,
    plan: Plan,
    cell_parts: CellParts,
    core: C,
    link: L,
) -> (Option<Book<J>>, SiteEnd)
    requires here { cell_parts ≡ record { table = N.table; name = N.name } }
    requires parts { N.parts ≡ 18446744073709551615 }
    requires begins { MayBeginIn J.run N.site N.limit }
    requires steps { StepsAt N.site.node C.step }
    requires problem { C.problem core ≡ J.run.problem }
    requires view { C.view core ≡ opening_of J.run N.site N.limit }
    ensures { IfSome result.0 (λ book. book.site ≡ N.site) }
{
    let cell: SiteCell<J, C, N> = SiteCell::new(cell_parts, core, plan.entries);
    let end = run_threads(rt, &run_context.context, &cell, plan, link);
    closed(run_context.context.alloc, cell, end)
}

/// Closes the cell of a site whose threads ended. There is no book where there was no memory to hand in all that it
/// asks for, or some thread's seat is missing because the site had no memory to start its threads.
fn closed<J: Run, C: Core + Drop, N: CellName>(
    alloc: Global,
    cell: SiteCell<J, C, N>,
    end: NodeEnd<N>,
) -> (Option<Book<J>>, SiteEnd)
    ensures { IfSome result.0 (λ book. book.site ≡ N.site) }
{
    let ended = end.end;
    let Ok((seats, tokens)) = end.into_lists(alloc) else {
        let cause = EndCause::Memory;
        return (None, SiteEnd { cause, ..ended });
    };
    match cell.settle(seats, tokens) {
        Ok(book) => (Some(book), ended),
        Err(_missing) => (None, ended),
    }
}
