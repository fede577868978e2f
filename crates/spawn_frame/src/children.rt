//! The own children of a site.

ghost use Rattle.std.specs.Prelude.{◌≡◌, ℕ, ◌+◌, ◌<◌, ◌++◌, ◌^◌, drop, [], length, map, option_map, slice_get, ◌∷◌, IfOk, IsOk, MatchOption, None, OnErr, OnOk, Some};
ghost use Rattle.std.specs.List.{count_by};
ghost use Rattle.spawn_frame.specs.Pages.{pages_for};
ghost use Rattle.spawn_frame.specs.Tables.{longer_prefixes};
ghost use Rattle.spawn_frame.specs.Works.{change_child, child_work, fresh_child, frame_says, is_wanted, last_wanted, redone_work, root_child, split_work, with_heard, with_work_status, HearsFrom};

use crate::building::new_root;
use crate::child::Child;
use crate::child_result::ChildResult;
use crate::ghost_prefix::GhostPrefix;
use crate::heard::Heard;
use crate::next::next_in_pages;
use crate::page::{PAGE, Page};
use crate::pages::{add_pages, count_in_pages, last_in_pages, push_children};
use crate::status::Status;
use crate::unit::Unit;
use crate::wanted::Wanted;
use std::alloc::{AllocError, Global};
use std::marker::Model;

/// The own children of a site, by serial, in pages of 256 that never move. Of each page it is kept which kinds of
/// children stand in it, so that no call looks at all of them.
#[derive(Drop)]
pub struct Children {
    pages: Vec<Page>,
    count: usize,
    alloc: Global,
}

impl Model for Children {
    ghost use Rattle.std.specs.Prelude.{List};
    ghost use Rattle.spawn_frame.specs.declared.child.Child.{Child as ChildValue};
    ghost use Rattle.spawn_frame.specs.Pages.{in_pages, IsPaged};

    ghost Value = { List ChildValue };

    ghost view = { λ c. in_pages c.pages.items };

    ghost invariant = { λ c. IsPaged c.pages.items c.count };
}

ghost use Rattle.spawn_frame.specs.Pages.{next_wanted};
ghost use Rattle.spawn_frame.specs.Units.{last_attempt};
ghost use Rattle.spawn_frame.specs.declared.child.Child.{Child as ChildValue};

impl Children {
    /// No children. It costs nothing.
    pub fn new(alloc: Global) -> Children
        ensures { result ≡ [] }
    {
        Children {
            pages: Vec::new(alloc),
            count: 0,
            alloc,
        }
    }

    /// The root alone; the only error is out of memory.
    pub fn with_root(alloc: Global) -> Result<Children, AllocError>
        ensures { IfOk result (λ children. children ≡ root_child ∷ []) }
    {
        let mut page = Page::new(alloc)?;
        page.push(new_root(alloc));
        let mut pages = Vec::new(alloc);
        pages.push(page)?;
        Ok(Children {
            pages,
            count: 1,
            alloc,
        })
    }

    /// The child of this serial, if it is there.
    pub fn get(&self, serial: u32) -> Option<&Child>
        ensures { MatchOption result (slice_get self.now serial ≡ None) (λ child.
            slice_get self.now serial ≡ Some child.now) }
    {
        let index = serial as usize;
        if index < self.count {
            // (each page is full before the next one has a child, so these two numbers find it)
            Some(&self.pages[index / PAGE].as_slice()[index % PAGE])
        } else {
            None
        }
    }

    /// How many there are.
    pub fn len(&self) -> usize
        ensures { result ≡ length self.now }
    {
        self.count
    }

    /// Puts the children of a unit behind those that are there: for each option one with this prefix and the option.
    /// The only error is out of memory, which changes no child. It takes memory for whole pages, before any change, and
    /// none where the last page has room.
    pub fn append(
        &mut self,
        unit: Unit,
        path: &GhostPrefix,
        options: &[u16],
    ) -> Result<(), AllocError>
        requires { length self.old + length options.now < 2 ^ 32 }
        ensures ok { OnOk result (self.new
            ≡ self.old ++ map (fresh_child unit) (longer_prefixes path.now.options options.now)) }
        ensures within { pages_for (length self.old + length options.now)
            ≡ pages_for (length self.old) → IsOk result }
        ensures err { OnErr result (self.new ≡ self.old) }
    {
        let end = (self.count + options.len()).div_ceil(PAGE);
        // (pages that were made before memory ran out stay: they have no child, and a later split fills them)
        add_pages(self.alloc, &mut self.pages, end)?;
        push_children(&mut self.pages, self.count, unit, path, options);
        self.count += options.len();
        Ok(())
    }

    /// The one of greatest serial that is wanted. It costs a look at each page, and a pass through one.
    pub fn last(&self, wanted: Wanted) -> Option<Unit>
        ensures { result ≡ last_wanted wanted 0 self.now }
    {
        last_in_pages(&self.pages, wanted)
    }

    /// The one of least serial from this one on that is wanted. It costs a look at each page behind, and passes through
    /// two at most.
    pub fn next(&self, wanted: Wanted, from: u32) -> Option<u32>
        ensures { result ≡ next_wanted wanted from (drop from self.now) }
    {
        if from as usize >= self.count {
            return None;
        }
        next_in_pages(&self.pages, wanted, from)
    }

    /// How many are wanted. It costs a look at each page, and passes through the pages that have such a child.
    pub fn count(&self, wanted: Wanted) -> usize
        ensures { result ≡ count_by (λ c. is_wanted wanted c.work) self.now }
    {
        count_in_pages(&self.pages, wanted)
    }

    /// Gives a child another status, if it is there. It costs four passes through its page at most, as each change
    /// does.
    pub fn set_status(&mut self, serial: u32, status: Status)
        ensures { self.new ≡ change_child (with_work_status status) self.old serial }
    {
        let index = serial as usize;
        if index < self.count {
            self.pages[index / PAGE].set_status(index % PAGE, status);
        }
    }

    /// Makes a child a frame of so many children, whose serials begin at the first, if it is there.
    pub fn split(&mut self, serial: u32, first: u32, count: u32)
        requires some { 0 < count }
        requires fits { first + count < 2 ^ 32 }
        ensures { self.new ≡ change_child (split_work first count) self.old serial }
    {
        let index = serial as usize;
        if index < self.count {
            self.pages[index / PAGE].split(index % PAGE, first, count);
        }
    }

    /// Tells a frame the result of a child of it, and says whether it is settled now; what is no frame says `Open`.
    pub fn hear(&mut self, serial: u32, child: u32, child_result: &ChildResult) -> Heard
        requires { HearsFrom (child_work (slice_get self.old serial)) }
        ensures own { self.new ≡ change_child (with_heard child child_result.now) self.old serial }
        ensures heard { result ≡ frame_says
            (option_map (with_heard child child_result.now) (child_work
            (slice_get self.old serial))) }
    {
        let index = serial as usize;
        if index >= self.count {
            return Heard::Open;
        }
        self.pages[index / PAGE].hear(index % PAGE, child, child_result)
    }

    /// Makes a child ready again, at the next attempt.
    pub fn redo(&mut self, serial: u32)
        requires within { serial < length self.old }
        requires attempt { (child : ChildValue) → slice_get self.old serial ≡ Some child
            → child.work.attempt < last_attempt }
        ensures { self.new ≡ change_child redone_work self.old serial }
    {
        let index = serial as usize;
        self.pages[index / PAGE].redo(index % PAGE);
    }
}
