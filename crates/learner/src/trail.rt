//! What is chosen and left so far, in which order, at which level, and why.
//!
//! The trail and the levels are MiniSat's. A literal's cause is its clause, but for clashes and items no clause is
//! stored: the cause says which.

ghost use Rattle.std.specs.Prelude.{◌≤◌};

use crate::packed::Packed;
use crate::tables::{at, put};
use std::alloc::{AllocError, Global};

/// What is known of a literal.
#[derive(Clone, Copy, PartialEq, Eq)]
pub enum Truth {
    Open,
    True,
    False,
}

/// A clause by which a literal is true, as all others of it are false; or the clause of which all literals are false.
#[derive(Clone, Copy)]
pub enum Cause {
    /// There is none: the literal was decided, or learned by itself.
    Decision,
    /// That not both of these options are chosen, which clash.
    Clash(u16, u16),
    /// That an option of this item is chosen.
    Item(u16),
    /// The learned clause with this number.
    Clause(u32),
}

/// When a literal became true, and why.
#[derive(Clone, Copy)]
pub struct Step {
    pub cause: Cause,
    /// How many decisions were made before, with its own.
    pub level: u16,
    /// Its place on the trail.
    pub position: u16,
}

/// The step of a literal that isn't true.
const NO_STEP: Step = Step {
    cause: Cause::Decision,
    level: 0,
    position: 0,
};

/// The literals that are true, in the order in which they became so.
#[derive(Drop)]
pub struct Trail {
    /// Of each literal what is known.
    truths: Vec<Truth>,
    /// Of each option the step by which it was chosen or left.
    steps: Vec<Step>,
    literals: Vec<Packed>,
    /// For each level how many literals there were before it.
    limits: Vec<u16>,
    /// How many literals of the trail were propagated.
    head: usize,
}

impl Trail {
    /// An empty trail of so many options. The only error is out of memory.
    pub fn new(alloc: Global, options: usize) -> Result<Trail, AllocError>
        requires { options ≤ 20000 }
    {
        Ok(Trail {
            truths: vec![in alloc; Truth::Open; options * 2]?,
            steps: vec![in alloc; NO_STEP; options]?,
            literals: Vec::with_capacity(alloc, options)?,
            limits: Vec::with_capacity(alloc, options)?,
            head: 0,
        })
    }

    /// Returns what is known of a literal.
    #[inline(always)]
    pub fn truth(&self, literal: Packed) -> Truth {
        at(&self.truths, literal.place(), Truth::Open)
    }

    /// Returns the step by which an option was chosen or left.
    #[inline(always)]
    pub fn step(&self, option: u16) -> Step {
        at(&self.steps, option as usize, NO_STEP)
    }

    /// Returns how many decisions were made.
    #[inline(always)]
    pub fn level(&self) -> u16 {
        low_half(self.limits.len())
    }

    /// Returns the literals that are true, in order.
    #[inline(always)]
    pub fn literals(&self) -> &[Packed] {
        &self.literals
    }

    /// Returns the literal at a place of the trail.
    #[inline(always)]
    pub fn literal(&self, position: u16) -> Packed {
        at(&self.literals, position as usize, Packed::NONE)
    }

    /// Begins a new level.
    pub fn begin_level(&mut self) {
        let before = low_half(self.literals.len());
        // (there is room for a level of each option, here as below)
        let _ = self.limits.push(before);
    }

    /// Makes a literal true, of which nothing is known yet.
    #[inline(always)]
    pub fn push(&mut self, literal: Packed, cause: Cause) {
        let step = Step {
            cause,
            level: self.level(),
            position: low_half(self.literals.len()),
        };
        put(&mut self.steps, literal.option() as usize, step);
        put(&mut self.truths, literal.place(), Truth::True);
        put(&mut self.truths, literal.negated().place(), Truth::False);
        let _ = self.literals.push(literal);
    }

    /// Returns the next literal to be propagated, if there is one.
    #[inline(always)]
    pub fn next(&mut self) -> Option<Packed> {
        let literal = *self.literals.get(self.head)?;
        self.head = self.head.wrapping_add(1);
        Some(literal)
    }

    /// Takes back the last literal, if it is of a level above this one.
    pub fn pop(&mut self, level: u16) -> Option<Packed> {
        let kept = *self.limits.get(level as usize)?;
        if self.literals.len() <= kept as usize {
            return None;
        }
        let literal = self.literals.pop()?;
        put(&mut self.truths, literal.place(), Truth::Open);
        put(&mut self.truths, literal.negated().place(), Truth::Open);
        Some(literal)
    }

    /// Ends all levels above this one, whose literals were taken back.
    pub fn end_levels(&mut self, level: u16) {
        self.limits.truncate(level as usize);
        self.head = self.head.min(self.literals.len());
    }
}

/// Returns a number that is below 2^16: there are at most 20,000 options.
#[inline(always)]
fn low_half(number: usize) -> u16 {
    (number & 0xffff) as u16
}
