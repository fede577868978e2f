//! What is learned from a conflict: the clause of its first unique implication point (Marques Silva and Sakallah,
//! "GRASP"), made shorter by the literals that follow from others of it (Sörensson and Biere, "Minimizing learned
//! clauses").

use crate::causes::write_row;
use crate::heap::Heap;
use crate::layout::Layout;
use crate::marks::{Mark, Marks};
use crate::packed::Packed;
use crate::store::Store;
use crate::tables::{at, put};
use crate::trail::{Cause, Trail};
use std::alloc::{AllocError, Global};

/// So many options are looked at for one literal at most, since minimization walks the implication graph and may go
/// far. Chosen, not measured.
const MOST_LOOKS: u32 = 2000;

/// The clause that is learned, and what it rests on.
#[derive(Drop)]
pub struct Analysis {
    marks: Marks,
    /// The clause; its first literal is the one that becomes true.
    learned: Vec<Packed>,
    /// The places on the trail of the literals whose causes were used.
    resolved: Vec<u16>,
    /// Literals of the cause that is looked at.
    row: Vec<Packed>,
    /// Options that are still to be looked at.
    work: Vec<u16>,
    /// Of each level the number of the clause that has a literal of it.
    stamps: Vec<u64>,
    stamp: u64,
    /// How many literals of the last level are still to be resolved.
    open: usize,
}

/// Returns the mark of an option whose literal is to be explained: what was settled before any decision needs no more.
fn mark_to_explain(trail: &Trail, option: u16) -> Mark {
    if trail.step(option).level == 0 {
        Mark::Settled
    } else {
        Mark::Seen
    }
}

impl Analysis {
    /// Room for clauses over so many options. The only error is out of memory.
    pub fn new(alloc: Global, options: usize) -> Result<Analysis, AllocError> {
        Ok(Analysis {
            marks: Marks::new(alloc, options)?,
            learned: Vec::new(alloc),
            resolved: Vec::new(alloc),
            row: Vec::new(alloc),
            work: Vec::new(alloc),
            stamps: vec![in alloc; 0; options.wrapping_add(1)]?,
            stamp: 0,
            open: 0,
        })
    }

    /// Returns the clause that was learned.
    pub fn learned(&self) -> &[Packed] {
        &self.learned
    }

    /// Returns the places of the literals whose causes are its hints, in the order of the trail.
    pub fn resolved(&self) -> &[u16] {
        &self.resolved
    }

    /// Returns the options that it looked at.
    pub fn touched(&self) -> &[u16] {
        self.marks.touched()
    }

    /// Returns whether the clause rests on what was settled of an option before any decision.
    pub fn rests_on(&self, option: u16) -> bool {
        self.marks.mark(option) == Mark::Settled
    }

    /// Forgets the last clause.
    fn clear(&mut self) {
        self.marks.clear();
        self.learned.clear();
        self.resolved.clear();
        self.open = 0;
    }

    /// Takes in the literals of the row: those of the last level are to be resolved, the others stand in the clause.
    fn collect(&mut self, trail: &Trail, heap: &mut Heap) -> Result<(), AllocError> {
        let last = trail.level();
        for literal in &self.row {
            let option = literal.option();
            if self.marks.mark(option) != Mark::Unseen {
                continue;
            }
            let level = trail.step(option).level;
            if level == 0 {
                self.marks.set(option, Mark::Settled)?;
                continue;
            }
            self.marks.set(option, Mark::Seen)?;
            heap.bump(option);
            if level == last {
                self.open = self.open.wrapping_add(1);
            } else {
                self.learned.push(*literal)?;
            }
        }
        Ok(())
    }

    /// Notes that the cause of an option is a hint.
    fn note(&mut self, trail: &Trail, option: u16) -> Result<(), AllocError> {
        self.resolved.push(trail.step(option).position)?;
        Ok(())
    }

    /// Resolves the literals of the last level, the latest first, until one is left: the first unique implication
    /// point. Returns it.
    fn resolve(
        &mut self,
        layout: &Layout,
        trail: &Trail,
        store: &mut Store,
        heap: &mut Heap,
    ) -> Result<Packed, AllocError> {
        let last = trail.level();
        for literal in trail.literals().iter().rev() {
            let option = literal.option();
            let step = trail.step(option);
            if self.marks.mark(option) != Mark::Seen || step.level != last {
                continue;
            }
            self.open = self.open.wrapping_sub(1);
            if self.open == 0 {
                return Ok(*literal);
            }
            if let Cause::Clause(number) = step.cause {
                store.touch(number);
            }
            self.note(trail, option)?;
            write_row(layout, store, step.cause, *literal, &mut self.row)?;
            self.collect(trail, heap)?;
        }
        Ok(Packed::NONE)
    }

    /// Finds the clause that a conflict teaches. The only error is out of memory.
    pub fn analyse(
        &mut self,
        layout: &Layout,
        trail: &Trail,
        store: &mut Store,
        heap: &mut Heap,
        falsified: Cause,
    ) -> Result<(), AllocError> {
        self.clear();
        self.learned.push(Packed::NONE)?;
        write_row(layout, store, falsified, Packed::NONE, &mut self.row)?;
        self.collect(trail, heap)?;
        let point = self.resolve(layout, trail, store, heap)?;
        put(&mut self.learned, 0, point.negated());
        self.stamp_levels(trail);
        self.minimise(layout, trail, store)?;
        self.note_redundant(trail)?;
        self.resolved.as_mut_slice().sort_unstable();
        self.put_latest_second(trail);
        Ok(())
    }

    /// Adds options to a list, each of them once. The only error is out of memory.
    pub fn collect_given(&mut self, given: &[u16], list: &mut Vec<u16>) -> Result<(), AllocError> {
        self.clear();
        for option in given {
            if self.marks.mark(*option) == Mark::Unseen {
                self.marks.set(*option, Mark::Seen)?;
                list.push(*option)?;
            }
        }
        Ok(())
    }

    /// Takes in the literals of the row, where no clause is learned: each is to be explained.
    fn collect_row(&mut self, trail: &Trail) -> Result<(), AllocError> {
        for literal in &self.row {
            let option = literal.option();
            if self.marks.mark(option) == Mark::Unseen {
                self.marks.set(option, mark_to_explain(trail, option))?;
            }
        }
        Ok(())
    }

    /// Finds what it rests on that an option was left: the causes of literals, down to those that were decided. The
    /// only error is out of memory.
    pub fn explain(
        &mut self,
        layout: &Layout,
        trail: &Trail,
        store: &Store,
        option: u16,
    ) -> Result<(), AllocError> {
        self.clear();
        self.marks.set(option, mark_to_explain(trail, option))?;
        for literal in trail.literals().iter().rev() {
            let option = literal.option();
            if self.marks.mark(option) != Mark::Seen {
                continue;
            }
            self.note(trail, option)?;
            write_row(
                layout,
                store,
                trail.step(option).cause,
                *literal,
                &mut self.row,
            )?;
            self.collect_row(trail)?;
        }
        self.resolved.as_mut_slice().sort_unstable();
        Ok(())
    }

    /// Marks the levels of the clause's literals.
    fn stamp_levels(&mut self, trail: &Trail) {
        self.stamp = self.stamp.wrapping_add(1);
        for literal in &self.learned {
            let level = trail.step(literal.option()).level;
            put(&mut self.stamps, level as usize, self.stamp);
        }
    }

    /// Returns whether the clause has a literal of this level.
    fn is_stamped(&self, level: u16) -> bool {
        at(&self.stamps, level as usize, 0) == self.stamp
    }

    /// Leaves out the literals that follow from others of the clause.
    fn minimise(
        &mut self,
        layout: &Layout,
        trail: &Trail,
        store: &Store,
    ) -> Result<(), AllocError> {
        let mut kept = 1;
        for place in 1..self.learned.len() {
            let literal = at(&self.learned, place, Packed::NONE);
            if self.is_redundant(layout, trail, store, literal.option())? {
                self.note(trail, literal.option())?;
            } else {
                put(&mut self.learned, kept, literal);
                kept = kept.wrapping_add(1);
            }
        }
        self.learned.truncate(kept);
        Ok(())
    }

    /// Returns whether the literal of an option follows from others of the clause.
    fn is_redundant(
        &mut self,
        layout: &Layout,
        trail: &Trail,
        store: &Store,
        option: u16,
    ) -> Result<bool, AllocError> {
        let before = self.marks.touched().len();
        self.work.clear();
        self.work.push(option)?;
        for _ in 0..MOST_LOOKS {
            let Some(option) = self.work.pop() else {
                return Ok(true);
            };
            if !self.follows(layout, trail, store, option)? {
                break;
            }
        }
        self.marks.doubt(before);
        Ok(false)
    }

    /// Looks at the cause of an option: its literals follow, or are to be looked at later. Returns false where one
    /// doesn't follow.
    fn follows(
        &mut self,
        layout: &Layout,
        trail: &Trail,
        store: &Store,
        option: u16,
    ) -> Result<bool, AllocError> {
        let step = trail.step(option);
        if let Cause::Decision = step.cause {
            return Ok(false);
        }
        let literal = trail.literal(step.position);
        write_row(layout, store, step.cause, literal, &mut self.row)?;
        for place in 0..self.row.len() {
            let option = at(&self.row, place, Packed::NONE).option();
            if !self.may_follow(trail, option)? {
                return Ok(false);
            }
        }
        Ok(true)
    }

    /// Returns whether the literal of an option may follow from others of the clause; if that isn't known yet, it is to
    /// be looked at.
    fn may_follow(&mut self, trail: &Trail, option: u16) -> Result<bool, AllocError> {
        match self.marks.mark(option) {
            Mark::Seen | Mark::Settled | Mark::Redundant => return Ok(true),
            Mark::Needed => return Ok(false),
            Mark::Unseen => {}
        }
        let step = trail.step(option);
        if step.level == 0 {
            self.marks.set(option, Mark::Settled)?;
            return Ok(true);
        }
        let is_decision = matches!(step.cause, Cause::Decision);
        if is_decision || !self.is_stamped(step.level) {
            self.marks.set(option, Mark::Needed)?;
            return Ok(false);
        }
        self.marks.set(option, Mark::Redundant)?;
        self.work.push(option)?;
        Ok(true)
    }

    /// Notes the causes by which literals follow from others of the clause.
    fn note_redundant(&mut self, trail: &Trail) -> Result<(), AllocError> {
        for place in 0..self.marks.touched().len() {
            let option = at(self.marks.touched(), place, 0);
            if self.marks.mark(option) == Mark::Redundant {
                self.note(trail, option)?;
            }
        }
        Ok(())
    }

    /// Puts the literal of the latest level, but for the first one, at the second place.
    fn put_latest_second(&mut self, trail: &Trail) {
        let mut latest = 1;
        let mut level = 0;
        for (place, literal) in self.learned.iter().enumerate() {
            let own = trail.step(literal.option()).level;
            if place >= 1 && own > level {
                latest = place;
                level = own;
            }
        }
        let second = at(&self.learned, 1, Packed::NONE);
        let chosen = at(&self.learned, latest, Packed::NONE);
        put(&mut self.learned, latest, second);
        put(&mut self.learned, 1, chosen);
    }

    /// Returns the level to go back to: that of the second literal, or 0.
    pub fn level_before(&self, trail: &Trail) -> u16 {
        match self.learned.get(1) {
            Some(literal) => trail.step(literal.option()).level,
            None => 0,
        }
    }

    /// Returns at how many levels the clause has literals (Audemard and Simon, "Predicting learnt clauses quality in
    /// modern SAT solvers").
    pub fn glue(&mut self, trail: &Trail) -> u16 {
        self.stamp = self.stamp.wrapping_add(1);
        let mut glue = 0u16;
        for literal in &self.learned {
            let level = trail.step(literal.option()).level;
            if at(&self.stamps, level as usize, 0) != self.stamp {
                put(&mut self.stamps, level as usize, self.stamp);
                glue = glue.wrapping_add(1);
            }
        }
        glue
    }
}
