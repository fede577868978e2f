//! The learned clauses of two or more literals, by number.
//!
//! All literals stand in one list, one clause behind the other, and clauses are numbers into it (an arena, as in
//! MiniSat). Dropped clauses leave gaps until `compact` moves the others together.

use crate::packed::Packed;
use crate::tables::{at, put};
use std::alloc::{AllocError, Global};

/// A learned clause.
#[derive(Clone, Copy)]
pub struct Learned {
    /// Where its literals begin.
    first: u32,
    /// How many there are; 0 where there is no clause of this number.
    length: u32,
    /// The place of the clause in the kernel.
    pub place: u32,
    /// At how many levels its literals became false when it was learned (Audemard and Simon's "literals blocks
    /// distance").
    pub glue: u16,
    /// The number of the conflict in which it was used last.
    pub used: u64,
}

/// Of a literal: 2 bytes here, twice while the clauses are moved together and twice since lists grow, and 4 in the
/// kernel.
const LITERAL_BYTES: u64 = 12;

/// Of a clause: its numbers, two nodes of its watches, and its place in the kernel. An estimate from above, not
/// measured.
const CLAUSE_BYTES: u64 = 256;

/// No clause.
const NO_CLAUSE: Learned = Learned {
    first: 0,
    length: 0,
    place: 0,
    glue: 0,
    used: 0,
};

/// Learned clauses. The first two literals of each one are watched.
#[derive(Drop)]
pub struct Store {
    clauses: Vec<Learned>,
    literals: Vec<Packed>,
    /// Numbers without a clause, below those that were given out.
    free: Vec<u32>,
    /// How many clauses there are.
    count: usize,
    /// The number of the present conflict.
    conflict: u64,
}

impl Store {
    /// No clauses.
    pub fn new(alloc: Global) -> Store {
        Store {
            clauses: Vec::new(alloc),
            literals: Vec::new(alloc),
            free: Vec::new(alloc),
            count: 0,
            conflict: 0,
        }
    }

    /// Tells which conflict is met now, by its number: clauses that are touched or added from now on are used in it.
    pub fn meet(&mut self, conflict: u64) {
        self.conflict = conflict;
    }

    /// Returns how many clauses there are.
    pub fn count(&self) -> usize {
        self.count
    }

    /// Returns a bound of the clauses' numbers.
    pub fn bound(&self) -> usize {
        self.clauses.len()
    }

    /// Returns how many bytes the clauses take at most, here and in the kernel together: lists that grow have up to
    /// twice the room that they need.
    pub fn bytes(&self) -> u64 {
        let literals = (self.literals.len() as u64).wrapping_mul(LITERAL_BYTES);
        let clauses = (self.clauses.len() as u64).wrapping_mul(CLAUSE_BYTES);
        literals.wrapping_add(clauses)
    }

    /// Returns the clause with this number.
    #[inline(always)]
    pub fn clause(&self, number: u32) -> Learned {
        at(&self.clauses, number as usize, NO_CLAUSE)
    }

    /// Returns whether there is a clause with this number.
    pub fn is_there(&self, number: u32) -> bool {
        self.clause(number).length > 0
    }

    /// Returns the literals of the clause with this number.
    #[inline(always)]
    pub fn row(&self, number: u32) -> &[Packed] {
        let clause = self.clause(number);
        let first = clause.first as usize;
        match self.literals.get(first..first + clause.length as usize) {
            Some(row) => row,
            None => &[],
        }
    }

    /// Returns the literals of the clause with this number, to be put into another order.
    #[inline(always)]
    pub fn row_mut(&mut self, number: u32) -> Option<&mut [Packed]> {
        let clause = self.clause(number);
        let first = clause.first as usize;
        self.literals
            .as_mut_slice()
            .get_mut(first..first + clause.length as usize)
    }

    /// Notes that the clause was used in the present conflict.
    pub fn touch(&mut self, number: u32) {
        let clause = self.clause(number);
        let used = self.conflict;
        put(
            &mut self.clauses,
            number as usize,
            Learned { used, ..clause },
        );
    }

    /// Adds a clause, and returns its number. The only error is out of memory.
    pub fn add(&mut self, literals: &[Packed], place: u32, glue: u16) -> Result<u32, AllocError> {
        let clause = Learned {
            first: low_word(self.literals.len()),
            length: low_word(literals.len()),
            place,
            glue,
            used: self.conflict,
        };
        self.literals.extend_from_slice(literals)?;
        let number = self.free_number()?;
        put(&mut self.clauses, number as usize, clause);
        self.count = self.count.wrapping_add(1);
        Ok(number)
    }

    /// Returns a number without a clause.
    fn free_number(&mut self) -> Result<u32, AllocError> {
        if let Some(number) = self.free.pop() {
            return Ok(number);
        }
        let number = low_word(self.clauses.len());
        self.clauses.push(NO_CLAUSE)?;
        self.free.reserve(self.clauses.len())?;
        Ok(number)
    }

    /// Drops the clause with this number. Its literals stay until `compact`.
    pub fn drop_clause(&mut self, number: u32) {
        if self.is_there(number) {
            put(&mut self.clauses, number as usize, NO_CLAUSE);
            // (there is room for each number)
            let _ = self.free.push(number);
            self.count = self.count.wrapping_sub(1);
        }
    }

    /// Gives back the room of the literals of clauses that were dropped. The only error is out of memory; then nothing
    /// changes.
    pub fn compact(&mut self, alloc: Global) -> Result<(), AllocError> {
        let mut literals = Vec::with_capacity(alloc, self.literals.len())?;
        for clause in self.clauses.iter_mut() {
            *clause = moved(*clause, &self.literals, &mut literals)?;
        }
        self.literals = literals;
        Ok(())
    }
}

/// Copies the literals of a clause, and returns the clause with its new place.
fn moved(clause: Learned, from: &[Packed], to: &mut Vec<Packed>) -> Result<Learned, AllocError> {
    let first = clause.first as usize;
    let row = match from.get(first..first + clause.length as usize) {
        Some(row) => row,
        None => &[],
    };
    let place = low_word(to.len());
    to.extend_from_slice(row)?;
    Ok(Learned {
        first: place,
        ..clause
    })
}

/// Returns a number that is below 2^32.
fn low_word(number: usize) -> u32 {
    (number & 0xffff_ffff) as u32
}
