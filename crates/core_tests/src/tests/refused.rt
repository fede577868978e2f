//! Where memory is refused in an event, the core and the lists are as they were, and the event comes to the same when
//! it is given again. Every row of the scripts of node and registry is played so, with one list and with two.
//!
//! Beside the core that is tried stands a twin, which is a row behind it. These tests refuse no memory themselves: it
//! has to be refused from outside, for which `trials/refuse_growth.c` is meant.

use super::lists::Lists;
use super::said::{Comes, FOUR_WAYS, LETTERS, Said, has_come};
use super::{node, registry};
use cover_problem::Problem;
use dlx_reader::read_problem;
use node_core::{ActFault, Reply};
use spawn_frame::Site;
use std::alloc::Global;
use std::process::Abort;

/// A core with all that a script needs.
pub trait Played {
    /// What happens there.
    type Does;

    /// The site of the core.
    fn site(&self) -> Site;

    /// Lets it happen.
    fn does<R: Abort>(
        &mut self,
        rt: &R,
        does: &Self::Does,
        lists: &mut Lists,
    ) -> Result<Reply, ActFault>;

    /// Whether both cores know the same, and have published the same.
    fn is_alike<R: Abort>(&self, rt: &R, other: &Self) -> bool;
}

/// What happens, what it comes to, and the packets that are put out, with their receivers.
type Row<D> = (D, Comes, &'static [(Site, Said)]);

/// Lets it happen at the core that is tried. Where memory is refused nothing has changed, and it happens again.
fn answer<S: Played, R: Abort>(
    rt: &R,
    alloc: Global,
    (tried, twin): (&mut S, &S),
    does: &S::Does,
    lists: &mut Lists,
) -> Result<Reply, ActFault> {
    let answer = tried.does(rt, does, lists);
    if answer == Err(ActFault::Memory) {
        assert!(rt;
            lists.have(rt, alloc, tried.site(), &[]),
            "the lists changed"
        );
        assert!(rt; tried.is_alike(rt, twin), "the core changed");
        return tried.does(rt, does, lists);
    }
    answer
}

/// Plays one row at the core that is tried, and then at its twin; whether all is as it says, and both are alike.
fn plays<S: Played, R: Abort>(
    rt: &R,
    alloc: Global,
    (tried, twin): (&mut S, &mut S),
    row: &Row<S::Does>,
    both: bool,
) -> bool {
    let mut lists = Lists::marked(rt, alloc, both);
    let answered = answer(rt, alloc, (tried, twin), &row.0, &mut lists);
    let mut unmarked = Lists::new(rt, alloc, both);
    let expected = twin.does(rt, &row.0, &mut unmarked);
    answered == expected
        && has_come(&answered, row.1)
        && lists.have(rt, alloc, tried.site(), row.2)
        && tried.is_alike(rt, twin)
}

/// Plays a script at a core and its twin.
fn play<S: Played, R: Abort>(
    rt: &R,
    alloc: Global,
    tried: &mut S,
    twin: &mut S,
    (rows, both): (&[Row<S::Does>], bool),
) {
    for (number, row) in rows.iter().enumerate() {
        let right = plays(rt, alloc, (tried, twin), row, both);
        assert!(rt; right, "row {number}, two lists {both}");
    }
}

/// Plays a script at a node with so many names, which searches this problem, with one list and with two.
fn play_at_node<R: Abort>(rt: &R, alloc: Global, text: &str, names_limit: u32, rows: &[node::Row]) {
    let read = read_problem(alloc, text.as_bytes()).expect(rt, "a problem");
    for both in [false, true] {
        play_at_nodes(rt, alloc, &read.problem, names_limit, (rows, both));
    }
}

/// Plays a script at a node with so many names and its twin.
fn play_at_nodes<R: Abort>(
    rt: &R,
    alloc: Global,
    problem: &Problem,
    names_limit: u32,
    script: (&[node::Row], bool),
) {
    let mut tried = node::Stage::new(rt, alloc, problem, names_limit);
    play_beside_node(rt, alloc, problem, names_limit, &mut tried, script);
}

/// Plays it at this node and its twin.
fn play_beside_node<'a, R: Abort>(
    rt: &R,
    alloc: Global,
    problem: &'a Problem,
    names_limit: u32,
    tried: &mut node::Stage<'a>,
    script: (&[node::Row], bool),
) {
    let mut twin = node::Stage::new(rt, alloc, problem, names_limit);
    play(rt, alloc, tried, &mut twin, script);
}

/// The same at a registry of two nodes.
fn play_at_registry<R: Abort>(rt: &R, alloc: Global, rows: &[registry::Row]) {
    let read = read_problem(alloc, LETTERS.as_bytes()).expect(rt, "a problem");
    for both in [false, true] {
        play_at_registries(rt, alloc, &read.problem, (rows, both));
    }
}

/// Plays a script at a registry and its twin.
fn play_at_registries<R: Abort>(
    rt: &R,
    alloc: Global,
    problem: &Problem,
    script: (&[registry::Row], bool),
) {
    let mut tried = registry::Stage::new(rt, alloc, problem);
    play_beside_registry(rt, alloc, problem, &mut tried, script);
}

/// Plays it at this registry and its twin.
fn play_beside_registry<'a, R: Abort>(
    rt: &R,
    alloc: Global,
    problem: &'a Problem,
    tried: &mut registry::Stage<'a>,
    script: (&[registry::Row], bool),
) {
    let mut twin = registry::Stage::new(rt, alloc, problem);
    play(rt, alloc, tried, &mut twin, script);
}

#[test]
fn refused_memory_at_a_node(rt: HostRuntime) {
    let alloc = rt.alloc();
    play_at_node(&rt, alloc, LETTERS, 1, &node::ONE_NAME);
    play_at_node(&rt, alloc, LETTERS, 2, &node::STOLEN);
    play_at_node(&rt, alloc, LETTERS, 2, &node::RUNS_ANEW);
    play_at_node(&rt, alloc, LETTERS, 2, &node::TOGETHER);
    play_at_node(&rt, alloc, FOUR_WAYS, 4, &node::SHARED);
    play_at_node(&rt, alloc, LETTERS, 2, &node::DROPPED);
    play_at_node(&rt, alloc, LETTERS, 1, &node::STALE);
    play_at_node(&rt, alloc, LETTERS, 1, &node::FIRST_FAULTS);
}

#[test]
fn refused_memory_at_the_registry(rt: HostRuntime) {
    let alloc = rt.alloc();
    play_at_registry(&rt, alloc, &registry::COVERED);
    play_at_registry(&rt, alloc, &registry::GIVEN_ANEW);
}
