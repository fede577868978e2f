//! A whole run: all its sites at once.

ghost use Rattle.std.specs.Prelude.{◌≡◌, ◌+◌, ◌<◌, ◌≤◌, ◌++◌, [], true, vec_len, IfOk};
ghost use Rattle.std.specs.List.{All};
ghost use Rattle.run_book.specs.Books.{are_distinct, IsBook};
ghost use Rattle.run_book.specs.Runs.{IsRunEnd};
ghost use Rattle.run_book.specs.Sites.{IsRun};
ghost use Rattle.udp_node.specs.Numbers.{AreNumbered};
ghost use Rattle.spawn_frame.specs.declared.site.TheConstants.{LAST_NODE};

use crate::context::Context;
use crate::site_run::{RunContext, SiteRun};
use brancher::Tables;
use cover_problem::{Answer, Problem};
use run_book::{Book, Run, published};
use site_limits::{BookBytes, Ending, Follower, Gate, Plan, SiteEnd};
use site_network::Link;
use std::alloc::{AllocError, Global};
use std::marker::PhantomData;
use std::sync::Wait;
use std::thread::{self, Threads};
use std::time::Clock;

/// How a run ended.
#[derive(Drop)]
pub struct RunEnd<J: Run> {
    /// What the registry published, by its book; nothing where it published nothing, or its book is not there.
    pub answer: Option<Answer>,
    /// The books of the sites that closed, the registry's first and the nodes' in their order; of a node that
    /// restarted, one of each incarnation.
    pub books: Vec<Book<J>>,
    /// How each site ended, the registry first and the nodes in their order.
    pub sites: Vec<SiteEnd>,
}

/// Runs a search over these links, one for each site and the registry's first, each site on threads of its own, until
/// all have ended; then closes each site's cell.
///
/// Node 1 restarts as often as the plan has it, each time with an empty table and the next incarnation, whatever it
/// held. Its turns are shared evenly among its incarnations, and in all but the last an empty receive is a turn. Its
/// link stays open over all of them. Once the search is over at an incarnation, the later ones give up at their first
/// receive without a packet.
///
/// A limited run ends soon after so much time has passed since the call, as each site looks at the clock before it
/// receives. What the registry published by then is the answer.
///
/// The books of all sites are bounded together, in bytes, and each by itself, in entries. Where a bound is met, that
/// site ends.
///
/// All sites end where one has failed: with any cause but that the search is over, once a thread of each kind has begun
/// there. A site that had no memory to start or to close has no book.
///
/// # Errors
///
/// The only error is out of memory for the run itself: for its tables and the list of its sites before any has started,
/// or for the answer at the end.
pub fn run_sites<
    J: Run + Send + Sync,
    L: Link + Send,
    H: Gate + Follower + Sync,
    R: Threads + Wait + Clock + Sync,
>(
    rt: &R,
    alloc: Global,
    problem: &Problem,
    plan: Plan,
    links: Vec<L>,
    hooks: &H,
) -> Result<RunEnd<J>, AllocError>
    requires problem { problem.now ≡ J.run.problem }
    requires nodes { plan.nodes ≡ J.run.nodes }
    requires some { 1 ≤ plan.nodes }
    requires most { plan.nodes ≤ LAST_NODE }
    requires links { vec_len links ≡ plan.nodes + 1 }
    ensures { IfOk result (λ end. IsRunEnd J.run end.answer end.books.items) }
{
    let ending = Ending::within(rt, plan.limit, plan.nodes);
    let book_bytes = BookBytes::new(plan.book_bytes);
    // (the name of a run promises a lawful problem, which only a look inside shows to the prover)
    problem.recall_rules();
    let tables = Tables::build(alloc, problem)?;
    let context = Context {
        tables: &tables,
        hooks,
        ending: &ending,
        books: &book_bytes,
        alloc,
        run: PhantomData,
    };
    let run_context = RunContext { context, plan };
    // (room for all before any site starts, so that no book is lost at the end)
    let books = Vec::with_capacity(alloc, links.len() + usize::from(plan.restarts))?;
    let sites = Vec::with_capacity(alloc, links.len())?;
    let mut runs = runs_for(alloc, plan.restarts, links)?;
    run_all(rt, &run_context, &mut runs);
    let (books, sites) = gathered(runs, books, sites)?;
    Ok(RunEnd {
        answer: published(alloc, problem, &books)?,
        books,
        sites,
    })
}

/// The sites before they run, each with its link; node 1 restarts so many times. The only error is out of memory.
fn runs_for<J: Run, L: Link>(
    alloc: Global,
    restarts: u8,
    links: Vec<L>,
) -> Result<Vec<SiteRun<J, L>>, AllocError>
    requires run { IsRun J.run }
    requires links { vec_len links ≡ J.run.nodes + 1 }
    ensures many { IfOk result (λ runs. vec_len runs ≡ vec_len links) }
    ensures numbered { IfOk result (λ runs. AreNumbered (λ site. site.node) runs.items) }
{
    let mut runs = Vec::with_capacity(alloc, links.len())?;
    for link in links {
        // (a run has 17 sites at most, so eight bits hold each number)
        let node = runs.len() as u8;
        let site = SiteRun::new(alloc, node, restarts, link)?;
        runs.push(site)?;
    }
    Ok(runs)
}

/// Runs all sites to their ends, at once.
fn run_all<
    J: Run + Send + Sync,
    L: Link + Send,
    H: Gate + Follower + Sync,
    R: Threads + Wait + Clock + Sync,
>(rt: &R, run_context: &RunContext<'_, J, H>, runs: &mut Vec<SiteRun<J, L>>)
    requires numbered { AreNumbered (λ site. site.node) runs.old.items }
    requires some { 0 < vec_len runs.old }
    ensures { AreNumbered (λ site. site.node) runs.new.items }
{
    let count = runs.len();
    thread::for_each_mut(
        rt,
        runs.as_mut_slice(),
        count,
        &|_, site| { site.run(rt, run_context) },
    );
}

/// The books of the sites that have some, and how each site ended. The only error is out of memory.
fn gathered<J: Run, L: Link>(
    runs: Vec<SiteRun<J, L>>,
    mut books: Vec<Book<J>>,
    mut sites: Vec<SiteEnd>,
) -> Result<(Vec<Book<J>>, Vec<SiteEnd>), AllocError>
    requires none { books.items ≡ [] }
    requires numbered { AreNumbered (λ site. site.node) runs.items }
    ensures books { IfOk result (λ all. All (IsBook J.run) all.0.items) }
    ensures distinct { IfOk result (λ all. are_distinct all.0.items ≡ true) }
{
    for site in runs {
        let (own, end) = site.into_end();
        sites.push(end)?;
        books = with_all(books, own)?;
    }
    Ok((books, sites))
}

/// The books with these after them. The only error is out of memory.
fn with_all<J: Run>(mut books: Vec<Book<J>>, own: Vec<Book<J>>) -> Result<Vec<Book<J>>, AllocError>
    requires { All (IsBook J.run) books.items }
    ensures more { IfOk result (λ more. more.items ≡ books.items ++ own.items) }
    ensures books { IfOk result (λ more. All (IsBook J.run) more.items) }
{
    for book in own {
        // (for what the getter says: that it is a book of the run)
        let _site = book.site();
        books.push(book)?;
    }
    Ok(books)
}
