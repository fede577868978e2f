//! What comes of a turn, in each thread that takes some.

use site_limits::{EndCause, Limits, Turn};
use std::sync::Wait;
use std::thread;
use std::time::{Clock, Duration};

/// How long a thread waits where memory ran out, in milliseconds. Chosen, not measured.
const SHORTAGE: u64 = 1;

/// Counts a turn, and waits a little if memory ran out, so that others may give some back. Returns the cause if the
/// thread ends by it.
pub fn note_turn<R: Wait + Clock>(rt: &R, limits: &mut Limits, turn: Turn) -> Option<EndCause> {
    if turn == Turn::Starved {
        thread::sleep(rt, Duration::from_millis(SHORTAGE));
    }
    limits.note(turn)
}
