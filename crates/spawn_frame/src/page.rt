//! A page of own children.

ghost use Rattle.std.specs.Prelude.{◌≡◌, ◌+◌, ◌<◌, ◌++◌, ◌^◌, ◌∷◌, [], length, option_map, slice_get, IfOk, Some};
ghost use Rattle.spawn_frame.specs.Pages.{has_wanted};
ghost use Rattle.spawn_frame.specs.Units.{last_attempt};
ghost use Rattle.spawn_frame.specs.Works.{change_child, child_work, frame_says, redone_work, split_work, with_heard, with_work_status, HearsFrom};
ghost use Rattle.spawn_frame.specs.declared.child.Child.{Child as ChildValue};

use crate::child::Child;
use crate::child_result::ChildResult;
use crate::heard::Heard;
use crate::kinds::Kinds;
use crate::status::Status;
use crate::wanted::Wanted;
use std::alloc::{AllocError, Global};
use std::marker::Model;

/// How many children a page has, the last one excepted: 26 KB of them. A walk over a million children looks at 4,000
/// pages. Chosen, not measured.
pub const PAGE: usize = 256;

/// At most 256 own children that follow one another, and which kinds of them there are. It has room for all of them
/// from the beginning, so they never move.
#[derive(Drop)]
pub struct Page {
    children: Vec<Child>,
    kinds: Kinds,
}

impl Model for Page {
    ghost use Rattle.std.specs.Prelude.{◌≡◌, ◌≤◌, List, length, vec_capacity};
    ghost use Rattle.spawn_frame.specs.declared.child.Child.{Child as ChildValue};
    ghost use Rattle.spawn_frame.specs.Pages.{kinds_of, page_size};

    ghost Value = { List ChildValue };

    ghost view = { λ p. p.children.items };

    ghost invariant = { λ p. (p.kinds ≡ kinds_of p.children.items)
        × (length p.children.items ≤ page_size) × (page_size ≤ vec_capacity p.children) };
}

impl Page {
    /// A page without children; the only error is out of memory.
    pub fn new(alloc: Global) -> Result<Page, AllocError>
        ensures { IfOk result (λ page. page ≡ []) }
    {
        let mut children = Vec::new(alloc);
        children.reserve(PAGE)?;
        let kinds = Kinds::of(&children);
        Ok(Page { children, kinds })
    }

    /// Its children.
    pub fn as_slice(&self) -> &[Child]
        ensures { result.now ≡ self.now }
    {
        &self.children
    }

    /// Whether one of its children is wanted. It costs nothing.
    pub fn has(&self, wanted: Wanted) -> bool
        ensures { result ≡ has_wanted wanted self.now }
    {
        self.kinds.has(wanted)
    }

    /// Puts a child behind the others, for which there is room.
    pub fn push(&mut self, child: Child)
        requires { length self.old < 256 }
        ensures { self.new ≡ self.old ++ child ∷ [] }
    {
        // (a new child adds kinds and takes none away, so no pass is needed)
        self.kinds = self.kinds.with(&child);
        self.children.push_reserved(child);
    }

    /// Gives a child another status. It costs four passes at most, as each change does.
    pub fn set_status(&mut self, place: usize, status: Status)
        requires { place < length self.old }
        ensures { self.new ≡ change_child (with_work_status status) self.old place }
    {
        self.children[place].work.status = status;
        // (only a pass finds out whether another child is left of the kind that this one was)
        self.kinds = Kinds::of(&self.children);
    }

    /// Makes a child a frame of so many children, whose serials begin at the first.
    pub fn split(&mut self, place: usize, first: u32, count: u32)
        requires within { place < length self.old }
        requires some { 0 < count }
        requires fits { first + count < 2 ^ 32 }
        ensures { self.new ≡ change_child (split_work first count) self.old place }
    {
        self.children[place].work.split(first, count);
        self.kinds = Kinds::of(&self.children);
    }

    /// Tells a frame the result of a child of it, and says whether it is settled now; what is no frame says `Open`.
    pub fn hear(&mut self, place: usize, child: u32, child_result: &ChildResult) -> Heard
        requires within { place < length self.old }
        requires hears { HearsFrom (child_work (slice_get self.old place)) }
        ensures own { self.new ≡ change_child (with_heard child child_result.now) self.old place }
        ensures heard { result ≡ frame_says
            (option_map (with_heard child child_result.now) (child_work
            (slice_get self.old place))) }
    {
        let heard = self.children[place].work.hear(child, child_result);
        self.kinds = Kinds::of(&self.children);
        heard
    }

    /// Makes a child ready again, at the next attempt.
    pub fn redo(&mut self, place: usize)
        requires within { place < length self.old }
        requires attempt { (child : ChildValue) → slice_get self.old place ≡ Some child
            → child.work.attempt < last_attempt }
        ensures { self.new ≡ change_child redone_work self.old place }
    {
        self.children[place].work.redo();
        self.kinds = Kinds::of(&self.children);
    }
}
