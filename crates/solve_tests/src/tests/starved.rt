//! A site that has no memory to start.
//!
//! Of the bugs of `cover_engines` that are kept outside the gate, `a_site_without_memory_is_a_fault` finds
//! `want_of_memory_is_no_answer`.

ghost use Rattle.std.specs.Prelude.{◌≡◌, ◌+◌, ℕ, length, vec_len, IfOk, IfSome};
ghost use Rattle.site_network.specs.Links.{failed_once};

use super::{ROWS, settings};
use cover_engines::{links, solve_engine};
use cover_problem::Problem;
use dlx_reader::read_problem;
use run_book::Run;
use run_key::RunKey;
use run_settings::Settings;
use search_engines::EngineFault;
use std::alloc::{AllocError, Global};
use std::marker::Brand;
use std::net::Net;
use std::random::RandomSource;
use std::sync::Wait;
use std::test::Fail;
use std::thread::Threads;
use std::time::Clock;
use udp_node::{Link, LinkFault, Open, UdpLink};

/// A link for whose twin there is no memory: its site can't start.
#[derive(Drop)]
struct Single {
    inner: UdpLink,
}

impl Link for Single {
    ghost failed = { λ l. l.inner.failures };

    fn failures(&self) -> u64 {
        self.inner.failures()
    }

    fn send<R: Wait>(&mut self, rt: &R, to: u8, bytes: &[u8]) -> Result<(), LinkFault> {
        self.inner.send(rt, to, bytes)
    }

    fn receive<R: Wait>(&mut self, rt: &R, into: &mut [u8]) -> Result<Option<usize>, LinkFault> {
        self.inner.receive(rt, into)
    }

    fn twin(&self) -> Result<Single, AllocError> {
        Err(AllocError)
    }
}

/// The same links, without twins.
fn without_twins(alloc: Global, links: Vec<UdpLink>) -> Result<Vec<Single>, AllocError>
    ensures { IfOk result (λ all. vec_len all ≡ vec_len links) }
{
    let mut all = Vec::new(alloc);
    for inner in links {
        all.push(Single { inner })?;
    }
    Ok(all)
}

/// Whether a run of sites that can't start ends because memory ran out.
fn is_starved<J: Run + Send + Sync, R: Threads + Wait + Clock + Net + RandomSource + Sync>(
    rt: &R,
    alloc: Global,
    settings: &Settings<'_>,
    problem: &Problem,
) -> Result<bool, Fail>
    requires problem { problem.now ≡ J.run.problem }
    requires nodes { settings.now.nodes ≡ J.run.nodes }
{
    let links = without_twins(alloc, links(rt, alloc, settings.nodes, RunKey::draw(rt)?)?)?;
    let end = solve_engine::<J, _, _, R>(rt, alloc, settings, problem, links, &Open);
    Ok(matches!(end, Err(EngineFault::Memory)))
}

#[test]
fn a_site_without_memory_is_a_fault(rt: HostRuntime) -> Result<(), Fail> {
    let read = read_problem(rt.alloc(), ROWS[0].0.as_bytes())?;
    let settings = settings(1, 1_000_000, 0, false);
    let is_starved = is_starved::<Brand, _>(&rt, rt.alloc(), &settings, &read.problem)?;
    assert!(rt; is_starved);
    Ok(())
}
