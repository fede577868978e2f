//! What is assumed of options while a clause is tried.
//!
//! Marks with a time stamp: to forget all assumptions the round's number rises, and no option is looked at.

ghost use Rattle.std.specs.Prelude.{◌≡◌, ◌^◌, ◌≤◌, length, map, set, replicate, None, Some, IfOk};
ghost use Rattle.std.specs.List.{slice_get};
ghost use Rattle.implied_clauses.specs.Following.{assume, is_false, says};
ghost use Rattle.implied_clauses.specs.Rests.{assumed_by, mark_of};

use crate::literal::Literal;
use std::alloc::{AllocError, Global};
use std::marker::Model;

/// After so many rounds the marks start again. A mark is twice a round's number and one more, in 32 bits, so any number
/// below 2^31 would do.
const MOST_ROUNDS: u32 = 1 << 30;

/// What is assumed of each option in the present round. A new round begins with nothing assumed, and without a look at
/// the options.
///
/// Contracts see a list: of each option whether it is assumed chosen (true) or left (false), if anything is.
#[derive(Drop)]
pub struct Assumptions {
    /// The number of the round, from 1.
    round: u32,
    /// Of each option twice the number of the round in which it was last assumed left, or one more where it was assumed
    /// chosen.
    marks: Vec<u32>,
}

impl Model for Assumptions {
    ghost use Rattle.std.specs.Prelude.{◌≤◌, ◌<◌, ◌+◌, ◌*◌, ◌^◌, List, Option, Bool, map};
    ghost use Rattle.std.specs.List.{All};
    ghost use Rattle.implied_clauses.specs.Rests.{assumed_by};

    ghost Value = { List (Option Bool) };

    ghost view = { λ a. map (assumed_by a.round) a.marks.items };

    ghost invariant = { λ a. (1 ≤ a.round) × (a.round ≤ 2 ^ 30) × All (λ mark. mark < a.round * 2 + 2) a.marks.items };
}

/// Returns the mark of an option that is assumed chosen, or left, in a round.
#[inline(always)]
fn mark_of(round: u32, is_chosen: bool) -> u32
    requires { round ≤ 2 ^ 30 }
    ensures { result ≡ mark_of round is_chosen }
{
    if is_chosen { round * 2 + 1 } else { round * 2 }
}

/// Returns whether the option is assumed chosen, or left, by its mark.
#[inline(always)]
fn is_marked(marks: &[u32], round: u32, option: u16, is_chosen: bool) -> bool
    requires { round ≤ 2 ^ 30 }
    ensures { result ≡ says (slice_get (map (assumed_by round) marks.now) option) is_chosen }
{
    match marks.get(option as usize) {
        Some(mark) => *mark == mark_of(round, is_chosen),
        None => false,
    }
}

impl Assumptions {
    /// Nothing assumed of so many options; the only error is out of memory.
    #[tactic(auto, using(crate::proofs::Assuming::no_marks))]
    pub fn new(alloc: Global, options: usize) -> Result<Assumptions, AllocError>
        ensures { IfOk result (λ assumed. assumed ≡ replicate options None) }
    {
        let marks = vec![in alloc; 0; options]?;
        Ok(Assumptions { round: 1, marks })
    }

    /// Begins a new round, in which nothing is assumed yet.
    pub fn begin(&mut self)
        ensures { self.new ≡ replicate (length self.old) None }
    {
        if self.round < MOST_ROUNDS {
            self.round += 1;
        } else {
            // (once in 2^30 rounds; so a round never has the marks of an older one)
            self.marks.fill(0);
            self.round = 1;
        }
    }

    /// Assumes that the literal is true. Nothing is ever assumed of an option that there isn't.
    #[inline(always)]
    pub fn assume(&mut self, literal: Literal)
        ensures { self.new ≡ assume self.old literal }
    {
        match literal {
            Literal::Chosen(option) => self.mark(option, true),
            Literal::Left(option) => self.mark(option, false),
        }
    }

    /// Assumes that the option is chosen, or that it is left.
    #[inline(always)]
    fn mark(&mut self, option: u16, is_chosen: bool)
        ensures { self.new ≡ set self.old option (Some is_chosen) }
    {
        let mark = mark_of(self.round, is_chosen);
        if (option as usize) < self.marks.len() {
            self.marks[option as usize] = mark;
        }
    }

    /// Returns whether the literal is assumed to be false.
    #[inline(always)]
    pub fn is_false(&self, literal: Literal) -> bool
        ensures { result ≡ is_false self.now literal }
    {
        match literal {
            Literal::Chosen(option) => is_marked(&self.marks, self.round, option, false),
            Literal::Left(option) => is_marked(&self.marks, self.round, option, true),
        }
    }
}
