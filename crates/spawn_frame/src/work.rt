//! What own children and guests have in common, so that each change of a unit is written, and proved, once.
//!
//! `path` is ghost data: contracts see each unit's prefix, while the program stores one option a child. `GhostPrefix`
//! says what ties the two.

ghost use Rattle.std.specs.Prelude.{◌≡◌, ◌+◌, ◌<◌, ◌^◌, ◌&&◌, ◌==◌, Some};
ghost use Rattle.spawn_frame.specs.Tables.{is_here};

use crate::child_result::ChildResult;
use crate::first_found::FirstFound;
use crate::ghost_prefix::GhostPrefix;
use crate::heard::Heard;
use crate::inlet::Inlet;
use crate::serials::Serials;
use crate::site::Attempt;
use crate::status::Status;
use crate::wanted::Wanted;

/// What a table keeps of a unit, own child or guest.
#[derive(Drop)]
pub struct Work {
    /// The options that are chosen, for proofs alone.
    pub path: GhostPrefix,
    /// The attempt at which its result counts: 1 at first, and one more at each redo.
    pub attempt: Attempt,
    /// How far it is.
    pub status: Status,
    /// What hears its children, once it was split.
    pub inlet: Option<FirstFound>,
    /// The serials of its children.
    pub children: Serials,
}

impl Work {
    ghost use Rattle.spawn_frame.specs.Units.{last_attempt};
    ghost use Rattle.spawn_frame.specs.Works.{frame_says, heard_work, is_wanted, new_work, redone_work, split_work, with_heard, HearsChildren};

    /// Work that nobody has taken up.
    pub fn new(path: GhostPrefix, attempt: Attempt) -> Work
        ensures { result ≡ new_work path.options attempt }
    {
        Work {
            path,
            attempt,
            status: Status::Ready,
            inlet: None,
            children: Serials { first: 0, end: 0 },
        }
    }

    /// Whether it is what is looked for.
    pub fn is_wanted(&self, wanted: Wanted) -> bool
        ensures { result ≡ is_wanted wanted self.now }
    {
        match wanted {
            Wanted::Ready => self.status.is_ready(),
            // (the inlet stays settled after the frame has got its result, so the status is asked, too)
            Wanted::Ripe => self.status.is_split() && self.heard() == Heard::Settled,
            Wanted::Here => self.status.is_here(),
            Wanted::Out => self.status.is_out(),
        }
    }

    /// Whether a worker of this site has it, at this attempt.
    pub fn is_here_at(&self, attempt: Attempt) -> bool
        ensures { result ≡ (is_here self.now.status && self.now.attempt == attempt) }
    {
        self.status.is_here() && self.attempt == attempt
    }

    /// What its inlet says; `Open` where it was never split.
    pub fn heard(&self) -> Heard
        ensures { result ≡ heard_work self.now.inlet }
    {
        match &self.inlet {
            Some(inlet) => inlet.heard(),
            None => Heard::Open,
        }
    }

    /// Makes it ready again, at the next attempt.
    pub fn redo(&mut self)
        requires { self.old.attempt < last_attempt }
        ensures { self.new ≡ redone_work self.old }
    {
        // (there is no inlet to reset: only a child that is out is redone, and it was never split)
        self.attempt += 1;
        self.status = Status::Ready;
    }

    /// Makes it a frame of so many children, whose serials begin at the first.
    pub fn split(&mut self, first: u32, count: u32)
        requires some { 0 < count }
        requires fits { first + count < 2 ^ 32 }
        ensures { self.new ≡ split_work first count self.old }
    {
        self.status = Status::Split;
        self.inlet = Some(FirstFound::new(count));
        self.children = Serials {
            first,
            end: first + count,
        };
    }

    /// Tells a frame the result of a child of it, and says whether the frame is settled now. What is no frame doesn't
    /// hear, and says `Open`.
    pub fn hear(&mut self, child: u32, child_result: &ChildResult) -> Heard
        requires { HearsChildren self.old }
        ensures hears { self.new ≡ with_heard child child_result.now self.old }
        ensures heard { result ≡ frame_says (Some self.new) }
    {
        if !self.status.is_split() {
            return Heard::Open;
        }
        match &mut self.inlet {
            Some(inlet) => inlet.take(child, child_result),
            None => unreachable!(),
        }
    }
}
