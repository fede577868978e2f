//! Runs of one node in memory, and the links that they have.
//!
//! Of the bugs of `memory_run` that are kept outside the gate, `a_run_in_memory_answers` finds `no_answer_is_believed`,
//! and `a_link_that_is_cut_fails` finds `a_cut_link_goes_on`.

use super::{LETTERS, NO_COVER};
use cover_problem::Answer;
use dlx_reader::read_problem;
use memory_run::{WaitingLink, Wakers, run_in_memory};
use std::alloc::{AllocError, Global};
use std::sync::atomic::{AtomicBool, Ordering};
use std::sync::{Arc, Wait};
use std::test::Fail;
use std::thread::Threads;
use std::time::Clock;
use udp_node::{Link, LinkFault, MemoryLink, Wires};

/// What a run of two workers finds of a text's problem; it is over from the start, or goes on.
fn found<R: Threads + Wait + Clock + Sync>(
    rt: &R,
    alloc: Global,
    text: &str,
    is_over: bool,
) -> Result<Option<Answer>, Fail> {
    let over = AtomicBool::new(is_over);
    let read = read_problem(alloc, text.as_bytes())?;
    Ok(run_in_memory(rt, alloc, &read.problem, 2, &over)?)
}

#[test]
fn a_run_in_memory_answers(rt: HostRuntime) -> Result<(), Fail> {
    let cover = found(&rt, rt.alloc(), LETTERS, false)?;
    let is_right = match &cover {
        Some(Answer::Cover(options)) => options.as_slice() == [0, 3, 4].as_slice(),
        _ => false,
    };
    assert!(rt; is_right, "another answer than the one cover");
    let none = found(&rt, rt.alloc(), NO_COVER, false)?;
    assert!(rt;
        matches!(none, Some(Answer::NoCover)),
        "another answer than none"
    );
    Ok(())
}

#[test]
fn a_run_that_is_over_has_no_answer(rt: HostRuntime) -> Result<(), Fail> {
    for text in [LETTERS, NO_COVER] {
        assert!(rt; found(&rt, rt.alloc(), text, true)?.is_none());
    }
    Ok(())
}

/// The wires of two sites.
fn wires(alloc: Global) -> Result<Arc<Wires, Global>, AllocError> {
    Ok(Arc::new(alloc, Wires::new(alloc, 2)?)?)
}

/// Whether a receive brings these bytes.
fn brings<L: Link, R: Wait>(rt: &R, link: &mut L, bytes: &[u8]) -> bool {
    let mut buffer = [0; 8];
    match link.receive(rt, &mut buffer) {
        Ok(Some(count)) => &buffer[..count] == bytes,
        _ => false,
    }
}

#[test]
fn what_is_sent_in_memory_comes(rt: HostRuntime) -> Result<(), Fail> {
    let (wakers, over) = (Wakers::new(), AtomicBool::new(false));
    let wires = wires(rt.alloc())?;
    let mut node = WaitingLink::new(
        MemoryLink::new(Arc::try_clone(&wires)?, 1),
        1,
        &wakers,
        &over,
    );
    let mut registry = WaitingLink::new(MemoryLink::new(wires, 0), 0, &wakers, &over);
    let mut twin = registry.twin()?;
    assert!(rt; twin.send(&rt, 1, b"one").is_ok() && registry.send(&rt, 1, b"two").is_ok());
    assert!(rt; brings(&rt, &mut node, b"one") && brings(&rt, &mut node, b"two"));
    // (nothing more has come, also once its receives don't wait)
    let mut buffer = [0; 8];
    assert!(rt; node.receive(&rt, &mut buffer) == Ok(None));
    node.hasten();
    assert!(rt; node.receive(&rt, &mut buffer) == Ok(None));
    assert!(rt; node.send(&rt, 0, b"three").is_ok() && brings(&rt, &mut twin, b"three"));
    assert!(rt; node.send(&rt, 2, b"four") == Err(LinkFault) && node.failures() == 1);
    Ok(())
}

#[test]
fn a_link_that_is_cut_fails(rt: HostRuntime) -> Result<(), Fail> {
    let (wakers, over) = (Wakers::new(), AtomicBool::new(false));
    let mut node = WaitingLink::new(MemoryLink::new(wires(rt.alloc())?, 1), 1, &wakers, &over);
    assert!(rt; node.send(&rt, 1, b"one").is_ok());
    over.store(true, Ordering::SeqCst);
    let mut buffer = [0; 8];
    assert!(rt; node.receive(&rt, &mut buffer) == Err(LinkFault) && node.failures() == 1);
    assert!(rt; node.twin()?.failures() == 0);
    Ok(())
}
