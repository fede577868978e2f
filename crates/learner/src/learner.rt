//! Conflict-driven learning over the items of a problem.
//!
//! The loop is MiniSat's (Eén and Sörensson): propagate; at a conflict learn its first unique implication point and
//! jump back; else restart by Luby's sequence, drop clauses where there are too many, and decide. A decision chooses
//! the most active option that is open; there is no decision that leaves one. At first those are most active whose
//! items have few options.
//!
//! It doesn't read a file of clauses: that an item has one of its options is counted (`counts`), and that two options
//! clash is read off their items. Only what is learned is watched.
//!
//! In a learned clause the choice of an option in place of those that it leaves makes it shorter; that was tried and
//! not kept, since some timetables then had no cover in time (`bench/TRIED.md`).

ghost use Rattle.std.specs.Prelude.{◌≡◌, ℕ, List, true, IfOk};
ghost use Rattle.cover_problem.specs.Prefix.{IsBarren};
ghost use Rattle.learner.specs.Covers.{HasNoCover};

use crate::analysis::Analysis;
use crate::assignment::Assignment;
use crate::counts::Counts;
use crate::deciding::{Given, choose, decide, go_back, next_given};
use crate::figures::{Figures, LearnerWatch};
use crate::heap::Heap;
use crate::hints::{hint_explained, hint_learned, hint_settled};
use crate::layout::Layout;
use crate::packed::Packed;
use crate::proof::Proof;
use crate::propagation::propagate;
use crate::reducing::{reduce, watch_first_two};
use crate::restarts::Restarts;
use crate::settings::Settings;
use crate::store::Store;
use crate::tables::at;
use crate::trail::{Cause, Trail, Truth};
use crate::watches::Watches;
use cover_problem::Problem;
use implied_clauses::Hint;
use rand_core::utils::NextWord;
use rand_pcg::Pcg32;
use std::alloc::{AllocError, Global};
use std::marker::Model;

/// How many clauses are kept at first; the bound grows by a tenth each time that it is reached (MiniSat's
/// `learntsize_inc`). MiniSat begins with a third of the problem's clauses; this number was chosen and not measured.
const FIRST_BOUND: usize = 8000;

/// How a search ended.
#[derive(Clone, Copy)]
pub enum End {
    /// Each option is chosen or left.
    Assigned,
    /// The empty clause was learned.
    Refuted,
    /// Of the given options this one can't be together with others.
    Excluded(u16),
    /// The watch stopped it, there was no room for a clause, or the kernel refused one.
    Stopped,
}

/// A search that learns from its conflicts. Contracts see its problem.
#[derive(Drop)]
pub struct Learner<'a> {
    alloc: Global,
    layout: Layout,
    assigned: Assignment,
    watches: Watches,
    store: Store,
    heap: Heap,
    analysis: Analysis,
    proof: Proof<'a>,
    /// The hints of the clause that the kernel is to learn.
    hints: Vec<Hint>,
    row: Vec<Packed>,
    /// The options that are given, each of them once: they are decided first.
    given: Vec<u16>,
    restarts: Restarts,
    figures: Figures,
    /// How many clauses are kept.
    bound: usize,
    /// How many bytes the learned clauses may take.
    memory: u64,
    /// How many literals of the trail are settled.
    settled: usize,
}

impl<'a> Model for Learner<'a> {
    ghost use Rattle.cover_problem.specs.Problem.{Problem as ProblemValue};

    ghost Value = { ProblemValue };

    ghost view = { λ l. l.proof };
}

/// Returns the activities with which a search begins: greater for options whose items have few options, and drawn among
/// equal ones.
fn first_activities(alloc: Global, layout: &Layout, seed: u64) -> Result<Vec<f64>, AllocError> {
    let mut rng = Pcg32::new(seed, 0);
    let mut activities = Vec::with_capacity(alloc, layout.options() as usize)?;
    for option in 0..layout.options() {
        let drawn = f64::from(rng.next_word() >> 22) * 1e-6;
        activities.push(weight_of(layout, option) * 1e-3 + drawn)?;
    }
    Ok(activities)
}

/// Returns the sum over the option's primary items of 1 divided by the number of the item's options.
fn weight_of(layout: &Layout, option: u16) -> f64 {
    let mut weight = 0.0;
    for naming in layout.items_of(option) {
        let count = layout.options_of(naming.number).len() & 0xffff;
        if naming.number < layout.primary() {
            weight += 1.0 / f64::from(count as u16);
        }
    }
    weight
}

impl<'a> Learner<'a> {
    /// A search of a problem that has learned nothing yet. The only error is out of memory.
    pub fn new(
        alloc: Global,
        problem: &'a Problem,
        settings: Settings,
    ) -> Result<Learner<'a>, AllocError>
        ensures { IfOk result (λ learner. learner ≡ problem.now) }
    {
        let layout = Layout::new(alloc, problem)?;
        let activities = first_activities(alloc, &layout, settings.seed)?;
        Ok(Learner {
            alloc,
            assigned: Assignment {
                trail: Trail::new(alloc, problem.options())?,
                counts: Counts::new(alloc, &layout)?,
            },
            watches: Watches::new(alloc, problem.options())?,
            store: Store::new(alloc),
            heap: Heap::new(alloc, activities)?,
            analysis: Analysis::new(alloc, problem.options())?,
            proof: Proof::new(alloc, problem)?,
            hints: Vec::new(alloc),
            row: Vec::new(alloc),
            given: Vec::new(alloc),
            layout,
            restarts: Restarts::new(),
            figures: Figures::new(),
            bound: FIRST_BOUND,
            memory: settings.memory,
            settled: 0,
        })
    }

    /// Returns what was done so far.
    pub fn figures(&self) -> Figures {
        Figures {
            clauses: self.store.count() as u64,
            ..self.figures
        }
    }

    /// Lets the kernel learn that the literals of the first level are true, those that it hasn't learned yet. Returns
    /// whether it did.
    fn settle<W: LearnerWatch>(&mut self, watch: &mut W) -> Result<bool, AllocError>
        ensures { self.new ≡ self.old }
    {
        for place in self.settled..self.assigned.trail.literals().len() {
            let literal = at(self.assigned.trail.literals(), place, Packed::NONE);
            if !self.settle_one(literal, watch)? {
                return Ok(false);
            }
        }
        self.settled = self.assigned.trail.literals().len();
        Ok(true)
    }

    /// The same for one literal, which follows from those before it.
    fn settle_one<W: LearnerWatch>(
        &mut self,
        literal: Packed,
        watch: &mut W,
    ) -> Result<bool, AllocError>
        ensures { self.new ≡ self.old }
    {
        if self.proof.is_settled(literal.option()) {
            return Ok(true);
        }
        let cause = self.assigned.trail.step(literal.option()).cause;
        self.hint_settled(cause, literal)?;
        self.proof
            .learn_unit(self.alloc, literal, &self.hints, watch)
    }

    /// Writes the hints of the clause of a cause, whose other literals are settled.
    fn hint_settled(&mut self, cause: Cause, implied: Packed) -> Result<(), AllocError>
        ensures { self.new ≡ self.old }
    {
        hint_settled(
            &self.layout,
            &self.store,
            &self.proof,
            (cause, implied),
            &mut self.row,
            &mut self.hints,
        )
    }

    /// Lets the kernel learn the empty clause, where a clause is falsified at the first level.
    fn refute<W: LearnerWatch>(
        &mut self,
        falsified: Cause,
        watch: &mut W,
    ) -> Result<End, AllocError>
        ensures { self.new ≡ self.old }
    {
        if !self.settle(watch)? {
            return Ok(End::Stopped);
        }
        self.hint_settled(falsified, Packed::NONE)?;
        self.proof.learn(self.alloc, &[], &self.hints, watch)?;
        Ok(End::Refuted)
    }

    /// Learns from a clause that is falsified, and goes back to where the learned clause says something. Returns
    /// whether the kernel took it.
    fn learn_from<W: LearnerWatch>(
        &mut self,
        falsified: Cause,
        watch: &mut W,
    ) -> Result<bool, AllocError>
        ensures { self.new ≡ self.old }
    {
        self.analysis.analyse(
            &self.layout,
            &self.assigned.trail,
            &mut self.store,
            &mut self.heap,
            falsified,
        )?;
        hint_learned(
            &self.analysis,
            &self.assigned.trail,
            &self.store,
            &self.proof,
            falsified,
            &mut self.hints,
        )?;
        let glue = self.analysis.glue(&self.assigned.trail);
        let level = self.analysis.level_before(&self.assigned.trail);
        go_back(&self.layout, &mut self.assigned, &mut self.heap, level);
        self.heap.decay();
        let first = at(self.analysis.learned(), 0, Packed::NONE);
        if self.analysis.learned().len() < 2 {
            self.assigned.set(&self.layout, first, Cause::Decision);
            return self.proof.learn_unit(self.alloc, first, &self.hints, watch);
        }
        self.keep(first, glue, watch)
    }

    /// Keeps the clause that was learned, if the kernel takes it, and makes its first literal true.
    fn keep<W: LearnerWatch>(
        &mut self,
        first: Packed,
        glue: u16,
        watch: &mut W,
    ) -> Result<bool, AllocError>
        ensures { self.new ≡ self.old }
    {
        let Some(place) = self
            .proof
            .learn(self.alloc, self.analysis.learned(), &self.hints, watch)?
        else {
            return Ok(false);
        };
        let number = self.store.add(self.analysis.learned(), place, glue)?;
        self.watches.reserve(self.store.bound())?;
        watch_first_two(&self.store, &mut self.watches, number);
        self.assigned
            .set(&self.layout, first, Cause::Clause(number));
        Ok(true)
    }

    /// Drops clauses where there are too many, or where there is no room. Returns whether there is room then.
    fn make_room<W: LearnerWatch>(&mut self, watch: &mut W) -> Result<bool, AllocError>
        ensures { self.new ≡ self.old }
    {
        if self.store.count() < self.bound && self.store.bytes() < self.memory {
            return Ok(true);
        }
        reduce(
            self.alloc,
            &self.assigned.trail,
            &mut self.store,
            &mut self.watches,
            &mut self.proof,
            watch,
        )?;
        self.bound = self.bound.saturating_add(self.bound / 10);
        Ok(self.store.bytes() < self.memory)
    }

    /// Begins again from the first level.
    fn restart(&mut self)
        ensures { self.new ≡ self.old }
    {
        go_back(&self.layout, &mut self.assigned, &mut self.heap, 0);
        self.restarts.begin(self.figures.conflicts);
        self.figures.restarts = self.figures.restarts.wrapping_add(1);
    }

    /// Meets a conflict: learns from it, or ends the search.
    fn meet<W: LearnerWatch>(
        &mut self,
        falsified: Cause,
        watch: &mut W,
    ) -> Result<Option<End>, AllocError>
        ensures { self.new ≡ self.old }
    {
        self.figures.conflicts = self.figures.conflicts.wrapping_add(1);
        self.store.meet(self.figures.conflicts);
        if self.assigned.trail.level() == 0 {
            return Ok(Some(self.refute(falsified, watch)?));
        }
        if !self.learn_from(falsified, watch)? {
            return Ok(Some(End::Stopped));
        }
        Ok(None)
    }

    /// Goes on after propagation without a conflict: begins again, drops clauses, decides.
    fn go_on<W: LearnerWatch>(&mut self, watch: &mut W) -> Result<Option<End>, AllocError>
        ensures { self.new ≡ self.old }
    {
        if self.assigned.trail.level() == 0 && !self.settle(watch)? {
            return Ok(Some(End::Stopped));
        }
        if self.restarts.is_due(self.figures.conflicts) && self.assigned.trail.level() > 0 {
            self.restart();
            return Ok(None);
        }
        if !self.make_room(watch)? {
            return Ok(Some(End::Stopped));
        }
        Ok(self.decide_next())
    }

    /// Decides what is given, and then what is most active. Returns how the search ends, if there is nothing to decide.
    fn decide_next(&mut self) -> Option<End>
        ensures { self.new ≡ self.old }
    {
        match next_given(&mut self.assigned.trail, &self.given) {
            Given::Next(option) => choose(&self.layout, &mut self.assigned, option),
            Given::Excluded(option) => return Some(End::Excluded(option)),
            Given::Chosen => {
                if !decide(&self.layout, &mut self.assigned, &mut self.heap) {
                    return Some(End::Assigned);
                }
            }
        }
        self.figures.decisions = self.figures.decisions.wrapping_add(1);
        None
    }

    /// Propagates, and does what comes next.
    fn turn<W: LearnerWatch>(&mut self, watch: &mut W) -> Result<Option<End>, AllocError>
        ensures { self.new ≡ self.old }
    {
        let falsified = propagate(
            &self.layout,
            &mut self.assigned,
            &mut self.watches,
            &mut self.store,
        );
        match falsified {
            Some(falsified) => self.meet(falsified, watch),
            None => self.go_on(watch),
        }
    }

    /// Searches until it knows the answer, or the watch stops it. The only error is out of memory.
    pub fn search<W: LearnerWatch>(&mut self, watch: &mut W) -> Result<End, AllocError>
        ensures { self.new ≡ self.old }
    {
        for turn in 0..u64::MAX {
            if let Some(end) = self.turn(watch)? {
                return Ok(end);
            }
            if turn % 128 == 0 && watch.look(&self.figures()) {
                return Ok(End::Stopped);
            }
        }
        Ok(End::Stopped)
    }

    /// Begins a search with these options given, from the first level. The only error is out of memory.
    pub fn begin(&mut self, given: &[u16]) -> Result<(), AllocError>
        ensures { self.new ≡ self.old }
    {
        if self.assigned.trail.level() > 0 {
            go_back(&self.layout, &mut self.assigned, &mut self.heap, 0);
            // (a search that was stopped may have left items of the levels that ended)
            self.assigned.counts.clear_due();
        }
        self.given.clear();
        self.analysis.collect_given(given, &mut self.given)
    }

    /// Returns whether the kernel sees that no exact cover has all options that were given, where this one of them was
    /// left. The only error is out of memory.
    pub fn denies(&mut self, given: &[u16], left: u16) -> Result<bool, AllocError>
        ensures kept { self.new ≡ self.old }
        ensures barren { IfOk result (λ is_denied. is_denied ≡ true → IsBarren self.old given.now) }
    {
        self.analysis
            .explain(&self.layout, &self.assigned.trail, &self.store, left)?;
        hint_explained(
            &self.analysis,
            &self.assigned.trail,
            &self.store,
            &self.proof,
            &mut self.hints,
        )?;
        self.proof.denies(self.alloc, given, &self.hints)
    }

    /// Returns the problem.
    pub fn problem(&self) -> &'a Problem
        ensures { result.now ≡ self.entry.now }
    {
        self.proof.problem()
    }

    /// Returns the options that are chosen, in the order of the file. The only error is out of memory.
    pub fn chosen(&self) -> Result<Vec<u16>, AllocError> {
        let mut list = Vec::new(self.alloc);
        for option in 0..self.layout.options() {
            if self.assigned.trail.truth(Packed::chosen(option)) == Truth::True {
                list.push(option)?;
            }
        }
        Ok(list)
    }

    /// Returns whether the kernel learned the empty clause. Then there is no exact cover, with any options.
    pub fn is_refuted(&self) -> bool
        ensures none { result ≡ true → HasNoCover self.entry.now }
        ensures barren { result ≡ true → (prefix : List ℕ) → IsBarren self.entry.now prefix }
    {
        self.proof.is_refuted()
    }
}
