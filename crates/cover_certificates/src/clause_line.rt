//! A line that learns a clause.

use crate::expected::Expected;
use crate::fault::Fault;
use crate::script::{behind_sign, cut, number_of, small_number_of};
use implied_clauses::{Hint, Literal};
use std::alloc::Global;

/// What a line says that learns a clause.
#[derive(Drop)]
pub(crate) struct ClauseLine {
    /// How many options the problem has.
    options: usize,
    literals: Vec<Literal>,
    hints: Vec<Hint>,
}

impl ClauseLine {
    /// No line yet, of a problem with so many options.
    pub(crate) fn new(alloc: Global, options: usize) -> ClauseLine {
        ClauseLine {
            options,
            literals: Vec::new(alloc),
            hints: Vec::new(alloc),
        }
    }

    /// Returns the literals of the clause.
    pub(crate) fn literals(&self) -> &[Literal] {
        &self.literals
    }

    /// Returns the clauses from which it follows.
    pub(crate) fn hints(&self) -> &[Hint] {
        &self.hints
    }

    /// Reads a line, in place of the one before.
    pub(crate) fn read(&mut self, line: &[u8]) -> Result<(), Fault> {
        self.literals.clear();
        self.hints.clear();
        let mut rest = line;
        // (each word has a byte at least)
        for _ in 0..=line.len() {
            let (word, behind) = cut(rest, b' ');
            self.take(word)?;
            if word.len() == rest.len() {
                break;
            }
            rest = behind;
        }
        Ok(())
    }

    /// Adds the literal or the hint that a word gives.
    fn take(&mut self, word: &[u8]) -> Result<(), Fault> {
        match word.first() {
            Some(b'+') => {
                let option = self.option_of(behind_sign(word))?;
                self.literals.push(Literal::Chosen(option))?;
            }
            Some(b'-') => {
                let option = self.option_of(behind_sign(word))?;
                self.literals.push(Literal::Left(option))?;
            }
            _ => {
                let hint = self.hint_of(word)?;
                self.hints.push(hint)?;
            }
        }
        Ok(())
    }

    /// Returns the option of the problem whose number digits spell.
    fn option_of(&self, digits: &[u8]) -> Result<u16, Fault> {
        match small_number_of(digits) {
            Some(option) if usize::from(option) < self.options => Ok(option),
            _ => Err(Fault::Wrong(Expected::Clause)),
        }
    }

    /// Returns the hint that a word gives: a clause, or two options with a colon between them.
    fn hint_of(&self, word: &[u8]) -> Result<Hint, Fault> {
        let (first, second) = cut(word, b':');
        if first.len() < word.len() {
            return Ok(Hint::Clash(self.option_of(first)?, self.option_of(second)?));
        }
        match number_of(word) {
            Some(number) => Ok(Hint::Clause(number)),
            None => Err(Fault::Wrong(Expected::Clause)),
        }
    }
}
