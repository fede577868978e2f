//! A clique that grows.
//!
//! A greedy choice: of some candidates the one that clashes with most others goes in, and those that don't clash with
//! it are candidates no more. Sets are words of 64 bits, so a comparison is a pass of `and` and a count of bits.

ghost use Rattle.std.specs.Prelude.{◌≡◌};

use crate::clashes::Clashes;
use cover_problem::Problem;
use cover_reasons::{Bits, ReasonWatch};
use std::alloc::{AllocError, Global};

/// How many candidates are compared before one comes into the clique: it bounds a greedy choice. Chosen, not measured.
const MOST_TRIES: usize = 60;

/// Options that clash by twos, and those that clash with all of them.
#[derive(Drop)]
pub(crate) struct Growth {
    members: Bits,
    candidates: Bits,
    left: Bits,
    count: usize,
    options: usize,
    /// How many words of sets were looked at.
    steps: usize,
}

impl Growth {
    /// No option yet; the only error is out of memory.
    pub(crate) fn new(alloc: Global, problem: &Problem) -> Result<Growth, AllocError> {
        let options = problem.options();
        Ok(Growth {
            members: Bits::empty(alloc, options)?,
            candidates: Bits::empty(alloc, options)?,
            left: Bits::empty(alloc, options)?,
            count: 0,
            options,
            steps: 0,
        })
    }

    /// How many words of sets were looked at.
    pub(crate) fn steps(&self) -> usize {
        self.steps
    }

    fn note_step(&mut self) {
        self.steps = self.steps.saturating_add(self.members.words());
    }

    /// Takes an option into the clique.
    fn take(&mut self, clashes: &Clashes, option: usize) {
        if let Some(set) = clashes.of(option) {
            if self.count == 0 {
                self.candidates.unite(set);
            } else {
                self.candidates.cut(set);
            }
        }
        self.members.insert(option);
        self.count = self.count.saturating_add(1);
        self.note_step();
    }

    /// Begins with these options, no two of which go together.
    fn begin(&mut self, clashes: &Clashes, options: &[u16]) {
        self.members.clear();
        self.candidates.clear();
        self.count = 0;
        for option in options {
            self.take(clashes, *option as usize);
        }
    }

    /// Of the first candidates the one that clashes with most of all.
    fn best(&mut self, clashes: &Clashes) -> Option<usize> {
        self.left.clear();
        self.left.unite(&self.candidates);
        let mut best = None;
        let mut most = 0;
        for _ in 0..MOST_TRIES {
            let Some(option) = self.left.first() else {
                break;
            };
            self.left.remove(option);
            let common = self.common_with(clashes, option);
            if best.is_none() || common > most {
                best = Some(option);
                most = common;
            }
        }
        best
    }

    /// With how many candidates an option clashes.
    fn common_with(&mut self, clashes: &Clashes, option: usize) -> u32 {
        self.note_step();
        match clashes.of(option) {
            Some(set) => set.common(&self.candidates),
            None => 0,
        }
    }

    /// Makes the clique of these options and of candidates, one after the other, until the watch ends that. Returns
    /// whether there was one.
    pub(crate) fn grow<W: ReasonWatch>(
        &mut self,
        clashes: &Clashes,
        options: &[u16],
        watch: &mut W,
    ) -> bool {
        self.begin(clashes, options);
        let begun = self.count;
        for _ in 0..self.options {
            if watch.look() {
                break;
            }
            let Some(option) = self.best(clashes) else {
                break;
            };
            self.take(clashes, option);
        }
        self.count > begun
    }

    /// The options of the clique, in file order; the only error is out of memory.
    pub(crate) fn list(&mut self, alloc: Global) -> Result<Vec<u16>, AllocError> {
        let mut list = Vec::with_capacity(alloc, self.count)?;
        for _ in 0..self.count {
            let Some(option) = self.members.first() else {
                break;
            };
            self.members.remove(option);
            list.push(option.min(65535) as u16)?;
        }
        Ok(list)
    }
}
