//! The inlet of a search for one cover, after `inlet` of the Cilk 5.4 manual: what the children return is taken as it
//! comes, one by one, and the first success ends the frame (OR parallelism). What Cilk's `abort` does then is an event
//! of its own here, Finish.
//!
//! Two numbers are the whole state, so a result costs no walk over the children: how many haven't answered, and the
//! winner. Of covers that came before the frame was finished the least serial wins, whatever the order in which they
//! came.
//!
//! It knows nothing of time or place: whether a child was searched here or by a thief is the table's business.

ghost use Rattle.std.specs.Prelude.{◌≡◌, ◌+◌, ◌<◌, IsSome, None, true};
ghost use Rattle.spawn_frame.specs.Inlets.{hearing_of, heard_of, is_cover, new_hearing, IsNextWinner};

use crate::child_result::ChildResult;
use crate::heard::Heard;
use crate::inlet::Inlet;
use std::marker::Model;

/// The inlet of a frame that wants one cover: settled once a child has one, or all are empty.
///
/// The winner is the child of least serial that had a cover.
#[derive(Clone, Copy)]
pub struct FirstFound {
    left: u32,
    winner: Option<u32>,
}

impl Model for FirstFound {
    ghost use Rattle.spawn_frame.specs.Inlets.{FirstFound as FirstFoundValue};

    ghost Value = { FirstFoundValue };

    ghost view = { λ s. record { left = s.left; winner = s.winner } };

    ghost inverse = { λ h. record { left = h.left; winner = h.winner } };
}

impl FirstFound {
    /// The inlet of so many children, of which there is at least one.
    pub fn new(children: u32) -> FirstFound
        requires { 0 < children }
        ensures { result ≡ new_hearing children }
    {
        FirstFound {
            left: children,
            winner: None,
        }
    }
}

impl Inlet for FirstFound {
    ghost left_in = { λ h. h.left };

    ghost winner_in = { λ h. h.winner };

    ghost heard_in = { heard_of };

    fn take(&mut self, child: u32, child_result: &ChildResult) -> Heard
        requires { 0 < self.old.left }
        ensures exact { self.new ≡ hearing_of self.old child child_result.now }
        ensures heard { result ≡ heard_of self.new }
        ensures left { self.new.left + 1 ≡ self.old.left }
        ensures stays { heard_of self.old ≡ Heard.Settled → heard_of self.new ≡ Heard.Settled }
        ensures covered { is_cover child_result.now ≡ true → IsSome self.new.winner }
        ensures winner { IsNextWinner child child_result.now self.old.winner self.new.winner }
        ensures none_left { heard_of self.new ≡ Heard.Settled → self.new.winner ≡ None →
            self.new.left ≡ 0 }
    {
        self.left -= 1;
        if let ChildResult::Cover(_) = child_result {
            // (the least serial, not the first to come: so a frame's result depends on its children alone, not on the
            // order of packets)
            let least = match self.winner {
                Some(winner) => winner.min(child),
                None => child,
            };
            self.winner = Some(least);
        }
        self.heard()
    }

    fn heard(&self) -> Heard {
        if self.winner.is_some() || self.left == 0 {
            Heard::Settled
        } else {
            Heard::Open
        }
    }

    fn winner(&self) -> Option<u32> {
        self.winner
    }

    fn left(&self) -> u32 {
        self.left
    }
}
