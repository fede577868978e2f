//! What the workers of a node tell each other of the problem.
//!
//! Workers of one node share the same part of the tree, so each would meet an equal part as if nobody had searched it.
//! Each worker has its own table of kept states, since one that all share would need locks, which the search doesn't
//! take; so what is dear enough is said: a prefix below which there is no cover, if a search of it counts thousands of
//! visits. No packet is sent and no answer depends on it.

ghost use Rattle.std.specs.Prelude.{◌≡◌, None, true};
ghost use Rattle.cover_problem.specs.Prefix.{is_prefix};
ghost use Rattle.cover_problem.specs.Search.{first, visits};

use crate::barren_prefix::BarrenPrefix;
use cover_problem::Numbers;
use crossbeam_queue::ArrayQueue;
use run_book::Run;
use std::alloc::{AllocError, Global};
use std::marker::PhantomData;
use std::sync::Wait;

/// How many prefixes wait for a worker at most. What it is told beyond that it doesn't hear, and may have to search.
/// Chosen, not measured.
pub const INBOX: usize = 256;

/// Where the workers of a node tell each other below which prefixes there is no cover. Each has searched but a part of
/// the tree, and keeps what it found there: where another part is equal, the one that searches it is to know as well.
///
/// No answer depends on what is heard: it saves visits.
#[derive(Drop)]
pub struct Exchange<J: Run> {
    /// For each worker what it hasn't heard so far; none where there is only one.
    inboxes: Vec<ArrayQueue<BarrenPrefix<J>>>,
}

impl<J: Run> Exchange<J> {
    /// The exchange of so many workers; the only error is out of memory.
    pub fn new(alloc: Global, workers: u8) -> Result<Exchange<J>, AllocError> {
        let mut inboxes = Vec::new(alloc);
        if workers > 1 {
            for _ in 0..workers {
                inboxes.push(ArrayQueue::new(alloc, INBOX)?)?;
            }
        }
        Ok(Exchange { inboxes })
    }

    /// Tells all workers but one that there is no cover below a prefix, and how many visits a search of it takes. Those
    /// whose inbox is full, and all where memory runs out, don't hear it.
    pub fn tell<R: Wait>(&self, rt: &R, alloc: Global, from: u8, prefix: &[u16], count: u64)
        requires prefix { is_prefix J.run.problem prefix.now ≡ true }
        requires barren { first J.run.problem prefix.now ≡ None }
        requires count { visits J.run.problem prefix.now ≡ count }
    {
        for (number, inbox) in self.inboxes.iter().enumerate() {
            if number != usize::from(from) {
                if let Ok(copy) = Vec::from_slice(alloc, prefix) {
                    let barren_prefix = BarrenPrefix {
                        prefix: Numbers::from_vec(copy),
                        count,
                        run: PhantomData,
                    };
                    let _full = inbox.push(rt, barren_prefix);
                }
            }
        }
    }

    /// What the worker of this number is told next, where there is something.
    pub fn hear<R: Wait>(&self, rt: &R, number: u8) -> Option<BarrenPrefix<J>> {
        self.inboxes.get(usize::from(number))?.pop(rt)
    }
}
