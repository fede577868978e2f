//! What the kernel is told, and where its clauses stand.

ghost use Rattle.std.specs.Prelude.{◌≡◌, ℕ, List, map, is_some, true, IfOk};
ghost use Rattle.cover_problem.specs.Prefix.{IsBarren};
ghost use Rattle.implied_clauses.specs.Clauses.{IsImplied};
ghost use Rattle.implied_clauses.specs.declared.literal.Literal.TheVariants.{Left};
ghost use Rattle.learner.specs.Covers.{HasNoCover};

use crate::figures::{Figures, LearnerWatch};
use crate::packed::Packed;
use crate::tables::{at, put};
use cover_problem::Problem;
use implied_clauses::{Hint, ImpliedClauses, Literal, barren_prefixes_are_implied_clauses};
use std::alloc::{AllocError, Global};
use std::marker::Model;

/// The place of no clause.
const NO_PLACE: u32 = u32::MAX;

/// The kernel of implied clauses, and where its clauses stand. Contracts see its problem.
#[derive(Drop)]
pub struct Proof<'a> {
    kernel: ImpliedClauses<'a>,
    /// Places that are free.
    free: Vec<u32>,
    /// Of each option the place of the clause that it is chosen, or that it is left, if one was learned.
    units: Vec<u32>,
    literals: Vec<Literal>,
}

/// Writes literals as the kernel reads them, in place of what the list held. The only error is out of memory.
fn write_literals(clause: &[Packed], literals: &mut Vec<Literal>) -> Result<(), AllocError> {
    literals.clear();
    for literal in clause {
        literals.push(literal.literal())?;
    }
    Ok(())
}

/// Returns the clause that one of the options is left. The only error is out of memory.
fn one_is_left(alloc: Global, options: &[u16]) -> Result<Vec<Literal>, AllocError>
    ensures { IfOk result (λ clause. clause.items ≡ map (λ option. Left option) options.now) }
{
    options
        .iter()
        .map(|option| Literal::Left(*option))
        .collect(alloc)
}

/// A watch that hears of nothing.
#[derive(Drop)]
struct Unheard;

impl LearnerWatch for Unheard {
    fn look(&mut self, _figures: &Figures) -> bool {
        false
    }
}

/// Lets the kernel learn a clause by the hints, at a place that is free. Returns the place, or none where the clause
/// doesn't follow. The only error is out of memory.
fn learn_written<W: LearnerWatch>(
    kernel: &mut ImpliedClauses<'_>,
    free: &mut Vec<u32>,
    alloc: Global,
    clause: &[Literal],
    hints: &[Hint],
    watch: &mut W,
) -> Result<Option<u32>, AllocError>
    ensures kept { kernel.new.problem ≡ kernel.old.problem }
    ensures implied { IfOk result (λ place.
        is_some place ≡ true → IsImplied kernel.old.problem clause.now) }
{
    let place = match free.pop() {
        Some(place) => place as usize,
        None => kernel.places(),
    };
    // (a free place is one of the kernel's)
    if place > kernel.places() {
        return Ok(None);
    }
    if !kernel.learn(alloc, place, clause, hints)? {
        return Ok(None);
    }
    let place = (place & 0xffff_ffff) as u32;
    watch.learned(place, clause, hints);
    Ok(Some(place))
}

impl<'a> Model for Proof<'a> {
    ghost use Rattle.cover_problem.specs.Problem.{Problem as ProblemValue};

    ghost Value = { ProblemValue };

    ghost view = { λ p. p.kernel.problem };
}

impl<'a> Proof<'a> {
    /// The kernel of a problem. The only error is out of memory.
    pub fn new(alloc: Global, problem: &'a Problem) -> Result<Proof<'a>, AllocError>
        ensures { IfOk result (λ proof. proof ≡ problem.now) }
    {
        Ok(Proof {
            kernel: ImpliedClauses::new(alloc, problem)?,
            free: Vec::new(alloc),
            units: vec![in alloc; NO_PLACE; problem.options()]?,
            literals: Vec::new(alloc),
        })
    }

    /// Returns the problem.
    pub fn problem(&self) -> &'a Problem
        ensures { result.now ≡ self.now }
    {
        self.kernel.problem()
    }

    /// Returns whether the kernel learned the empty clause. Then there is no exact cover, with any options.
    pub fn is_refuted(&self) -> bool
        ensures none { result ≡ true → HasNoCover self.now }
        ensures barren { result ≡ true → (prefix : List ℕ) → IsBarren self.now prefix }
    {
        self.kernel.is_refuted()
    }

    /// Returns whether a clause says of the option alone that it is chosen, or left.
    pub fn is_settled(&self, option: u16) -> bool {
        at(&self.units, option as usize, NO_PLACE) != NO_PLACE
    }

    /// Returns the hint of the clause that an option is chosen, or that it is left.
    pub fn unit(&self, option: u16) -> Hint {
        Hint::Clause(at(&self.units, option as usize, NO_PLACE))
    }

    /// Lets the kernel learn a clause by the hints. Returns the clause's place, or none where it doesn't follow. The
    /// only error is out of memory.
    pub fn learn<W: LearnerWatch>(
        &mut self,
        alloc: Global,
        clause: &[Packed],
        hints: &[Hint],
        watch: &mut W,
    ) -> Result<Option<u32>, AllocError>
        ensures { self.new ≡ self.old }
    {
        write_literals(clause, &mut self.literals)?;
        learn_written(
            &mut self.kernel,
            &mut self.free,
            alloc,
            &self.literals,
            hints,
            watch,
        )
    }

    /// Returns whether the kernel sees along the hints that no exact cover has all of these options. The only error is
    /// out of memory.
    pub fn denies(
        &mut self,
        alloc: Global,
        options: &[u16],
        hints: &[Hint],
    ) -> Result<bool, AllocError>
        ensures kept { self.new ≡ self.old }
        ensures barren { IfOk result (λ is_denied.
            is_denied ≡ true → IsBarren self.old options.now) }
    {
        barren_prefixes_are_implied_clauses();
        let clause = one_is_left(alloc, options)?;
        let learned = learn_written(
            &mut self.kernel,
            &mut self.free,
            alloc,
            &clause,
            hints,
            &mut Unheard,
        )?;
        let Some(place) = learned else {
            return Ok(false);
        };
        // (the answer is all that it is for)
        self.forget(place, &mut Unheard)?;
        Ok(true)
    }

    /// The same for a clause of one literal, whose place is kept.
    pub fn learn_unit<W: LearnerWatch>(
        &mut self,
        alloc: Global,
        literal: Packed,
        hints: &[Hint],
        watch: &mut W,
    ) -> Result<bool, AllocError>
        ensures { self.new ≡ self.old }
    {
        let Some(place) = self.learn(alloc, &[literal], hints, watch)? else {
            return Ok(false);
        };
        put(&mut self.units, literal.option() as usize, place);
        Ok(true)
    }

    /// Lets the kernel forget a clause. The only error is out of memory.
    pub fn forget<W: LearnerWatch>(&mut self, place: u32, watch: &mut W) -> Result<(), AllocError>
        ensures { self.new ≡ self.old }
    {
        self.kernel.forget(place as usize);
        watch.forgot(place);
        self.free.push(place)?;
        Ok(())
    }
}
