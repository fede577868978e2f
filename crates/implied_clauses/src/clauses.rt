//! The kernel of learning: a list of clauses that every exact cover satisfies, and how another comes in.
//!
//! A clause comes in where it follows by unit propagation along hints (reverse unit propagation, with hints as in the
//! format LRAT of SAT proofs): its literals are assumed false, and the hints' clauses are read in turn until one is
//! violated. So the learner that found it need not be right (`learn`).
//!
//! The first clauses are those of the primary items: one of its options is chosen. That two options clash is a clause
//! that isn't stored: it is read off the problem where a hint names both. Once the empty clause is in, there is no
//! cover.
//!
//! Places are reused: a clause that was forgotten leaves its place free, since a learner drops many that it learned.

ghost use Rattle.std.specs.Prelude.{◌≡◌, ◌==◌, ◌||◌, ℕ, ◌≤◌, List, [], Bool, true, false, Option, None, Some, Ok, ◌⊎◌, length, set, slice_get, IfOk, OnOk, OnErr, MatchResult, MatchOption, if◌then◌else◌};
ghost use Rattle.cover_problem.specs.ExactCover.{IsExactCover};
ghost use Rattle.cover_problem.specs.Prefix.{IsBarren};
ghost use Rattle.cover_problem.specs.Search.{first};
ghost use Rattle.implied_clauses.specs.Clauses.{IsImplied, first_clauses, learned, put_at};
ghost use Rattle.implied_clauses.specs.Following.{follows};

use crate::assumptions::Assumptions;
use crate::clause::Clause;
use crate::following::follows;
use crate::items::item_clauses;
use crate::laws::{
    clauses_that_follow_are_implied, one_option_of_each_item_is_chosen,
    refuted_problems_have_no_cover,
};
use crate::literal::{Hint, Literal};
use cover_problem::Problem;
use std::alloc::{AllocError, Global};
use std::marker::Model;

/// Clauses that each exact cover of a problem satisfies, by their places. At first the clause of each primary item
/// stands at the item's place. It keeps 4 bytes for each literal, and for each option 4 bytes more.
#[derive(Drop)]
pub struct ImpliedClauses<'a> {
    problem: &'a Problem,
    clauses: Vec<Option<Clause>>,
    /// Whether the empty clause was learned.
    refuted: bool,
    assumed: Assumptions,
}

impl<'a> Model for ImpliedClauses<'a> {
    ghost use Rattle.std.specs.Prelude.{◌≡◌, [], true, length};
    ghost use Rattle.implied_clauses.specs.Clauses.{AreImplied, Clauses as ClausesValue, IsImplied};

    ghost Value = { ClausesValue };

    ghost view = { λ c. record {
      problem = c.problem.now;
      list = c.clauses.items;
      refuted = c.refuted;
    } };

    ghost invariant = { λ c. AreImplied c.problem.now c.clauses.items
        × (c.refuted ≡ true → IsImplied c.problem.now [])
        × (length c.assumed ≡ length c.problem.now.options) };
}

/// Returns whether the empty clause was learned, where this one is learned now.
fn is_refuted_by(refuted: bool, clause: &[Literal]) -> bool
    ensures { result ≡ (refuted || (length clause.now == 0)) }
{
    refuted || clause.is_empty()
}

/// Puts a clause at a place, which is one of the list's or the next one; the only error is out of memory.
fn put(clauses: &mut Vec<Option<Clause>>, place: usize, clause: Clause) -> Result<(), AllocError>
    requires { place ≤ length clauses.old.items }
    ensures ok { OnOk result (clauses.new.items ≡ put_at clauses.old.items place (Some clause)) }
    ensures err { OnErr result (clauses.new.items ≡ clauses.old.items) }
{
    if place == clauses.len() {
        clauses.push(Some(clause))?;
    } else {
        clauses[place] = Some(clause);
    }
    Ok(())
}

impl<'a> ImpliedClauses<'a> {
    /// The clauses of the problem's primary items.
    ///
    /// It takes time of the order of the items of all options.
    ///
    /// # Errors
    ///
    /// Out of memory.
    pub fn new(alloc: Global, problem: &'a Problem) -> Result<ImpliedClauses<'a>, AllocError>
        ensures { IfOk result (λ clauses. clauses ≡ first_clauses problem.now) }
    {
        one_option_of_each_item_is_chosen();
        Ok(ImpliedClauses {
            problem,
            clauses: item_clauses(alloc, problem)?,
            refuted: false,
            assumed: Assumptions::new(alloc, problem.options())?,
        })
    }

    /// Returns the problem.
    pub fn problem(&self) -> &'a Problem
        ensures { result.now ≡ self.now.problem }
    {
        self.problem
    }

    /// Returns how many places there are, free ones too.
    pub fn places(&self) -> usize
        ensures { result ≡ length self.now.list }
    {
        self.clauses.len()
    }

    /// Returns the literals of the clause at a place, if there is one.
    pub fn clause(&self, place: usize) -> Option<&[Literal]>
        ensures { MatchOption result
            ((slice_get self.now.list place ≡ None) ⊎ (slice_get self.now.list place ≡ Some None))
            (λ c. (slice_get self.now.list place ≡ Some (Some c.now))
            × IsImplied self.now.problem c.now) }
    {
        match self.clauses.get(place) {
            Some(Some(clause)) => Some(clause.as_slice()),
            _ => None,
        }
    }

    /// Learns the clause, if it follows along the hints, and puts it at a place: one that there is, from which another
    /// clause goes, or the next one. Returns whether it was learned. If not, nothing changes.
    ///
    /// It takes time of the order of the literals of the clauses that the hints name, and for a clash of the items of
    /// both options.
    ///
    /// # Errors
    ///
    /// Out of memory; then nothing changes.
    pub fn learn(
        &mut self,
        alloc: Global,
        place: usize,
        clause: &[Literal],
        hints: &[Hint],
    ) -> Result<bool, AllocError>
        requires { place ≤ length self.old.list }
        ensures answer { IfOk result (λ is_learned.
            is_learned ≡ follows self.old.problem self.old.list clause.now hints.now) }
        ensures implied { IfOk result (λ is_learned.
            is_learned ≡ true → IsImplied self.old.problem clause.now) }
        ensures after { MatchResult result
            (λ is_learned. self.new ≡ (if is_learned then learned self.old place clause.now else self.old))
            (λ error. self.new ≡ self.old) }
    {
        clauses_that_follow_are_implied();
        if !follows(
            self.problem,
            &self.clauses,
            &mut self.assumed,
            clause,
            hints,
        ) {
            return Ok(false);
        }
        self.admit(alloc, place, clause)?;
        Ok(true)
    }

    /// Takes in a clause that is known to be implied.
    ///
    /// # Errors
    ///
    /// Out of memory; then nothing changes.
    fn admit(&mut self, alloc: Global, place: usize, clause: &[Literal]) -> Result<(), AllocError>
        requires place { place ≤ length self.old.list }
        requires implied { IsImplied self.old.problem clause.now }
        ensures { MatchResult result (λ done. self.new ≡ learned self.old place clause.now)
            (λ error. self.new ≡ self.old) }
    {
        let copy = Clause::copied(alloc, clause)?;
        put(&mut self.clauses, place, copy)?;
        self.refuted = is_refuted_by(self.refuted, clause);
        Ok(())
    }

    /// Forgets the clause at a place, which stays free until another one is put there. What was learned by it stays.
    pub fn forget(&mut self, place: usize)
        ensures { self.new ≡ record {
          problem = self.old.problem;
          list = set self.old.list place None;
          refuted = self.old.refuted;
        } }
    {
        if place < self.clauses.len() {
            self.clauses[place] = None;
        }
    }

    /// Returns whether the empty clause was learned. Then no set of options is an exact cover, and a search finds none.
    pub fn is_refuted(&self) -> bool
        ensures refuted { result ≡ self.now.refuted }
        ensures none { result ≡ true → (chosen : ℕ → Bool) → IsExactCover self.now.problem chosen → ⊥ }
        ensures barren { result ≡ true → (prefix : List ℕ) → IsBarren self.now.problem prefix }
        ensures first { result ≡ true → first self.now.problem [] ≡ None }
    {
        refuted_problems_have_no_cover();
        self.refuted
    }
}
