//! What a learner's kernel learns and forgets, as the lines of a certificate.

use crate::text::{head_of, push_number, send, send_if_many};
use cover_problem::Problem;
use dlx_reader::Sink;
use implied_clauses::{Hint, Literal};
use std::alloc::{AllocError, Global};
use std::io;
use std::io::ErrorKind;

/// Writes the lines of a certificate by clauses, one after the other. A fault is kept until the end: the learner goes
/// on, since a cover needs no certificate.
#[derive(Drop)]
pub struct ClauseWriter<W: Sink + Drop> {
    sink: W,
    /// Lines that wait to be written.
    text: Vec<u8>,
    /// How many clauses of items there are: the kernel has them at its first places, and the lines count them first.
    primary: usize,
    /// Of each of the kernel's places behind these the number of the clause that was put there last.
    numbers: Vec<u32>,
    /// The number of the next clause.
    next: u32,
    /// Whether all could be written so far.
    is_whole: bool,
}

impl<W: Sink + Drop> ClauseWriter<W> {
    /// A writer of a problem's certificate, which writes the head; the only error is out of memory.
    pub fn new(alloc: Global, problem: &Problem, sink: W) -> Result<ClauseWriter<W>, AllocError> {
        Ok(ClauseWriter {
            sink,
            text: head_of(alloc, b"clauses", problem)?,
            primary: problem.primary(),
            numbers: Vec::new(alloc),
            next: problem.primary() as u32,
            is_whole: true,
        })
    }

    /// Writes that a clause was learned along hints, and stands at a place of the kernel.
    pub fn learned(&mut self, place: u32, clause: &[Literal], hints: &[Hint]) {
        self.is_whole = self.is_whole && self.write_learned(place, clause, hints).is_ok();
    }

    /// Writes that the clause at a place of the kernel was forgotten.
    pub fn forgot(&mut self, place: u32) {
        self.is_whole = self.is_whole && self.write_forgotten(place).is_ok();
    }

    /// Writes what still waits. Returns whether all was written.
    pub fn end(&mut self) -> bool {
        self.is_whole = self.is_whole && send(&mut self.text, &mut self.sink).is_ok();
        self.is_whole
    }

    fn write_learned(&mut self, place: u32, clause: &[Literal], hints: &[Hint]) -> io::Result<()> {
        for literal in clause {
            push_literal(&mut self.text, *literal)?;
        }
        self.push_hints(hints)?;
        self.text.push(b'\n')?;
        self.note(place)?;
        send_if_many(&mut self.text, &mut self.sink)
    }

    fn write_forgotten(&mut self, place: u32) -> io::Result<()> {
        if let Some(number) = self.number_at(place) {
            self.text.extend_from_slice(b"d ")?;
            push_number(&mut self.text, u64::from(number))?;
            self.text.push(b'\n')?;
        }
        send_if_many(&mut self.text, &mut self.sink)
    }

    fn push_hints(&mut self, hints: &[Hint]) -> io::Result<()> {
        for hint in hints {
            self.push_hint(*hint)?;
        }
        Ok(())
    }

    fn push_hint(&mut self, hint: Hint) -> io::Result<()> {
        match hint {
            Hint::Clash(first, second) => push_clash(&mut self.text, first, second)?,
            // (a hint of no clause is one that the kernel passed over)
            Hint::Clause(place) => {
                if let Some(number) = self.number_at(place) {
                    push_gap(&mut self.text)?;
                    push_number(&mut self.text, u64::from(number))?;
                }
            }
        }
        Ok(())
    }

    /// Returns the number of the clause at a place of the kernel, if one was put there.
    fn number_at(&self, place: u32) -> Option<u32> {
        if (place as usize) < self.primary {
            return Some(place);
        }
        let number = self.numbers.get(place as usize - self.primary)?;
        Some(*number)
    }

    /// Notes that the next clause stands at a place of the kernel.
    fn note(&mut self, place: u32) -> io::Result<()> {
        let behind = (place as usize).saturating_sub(self.primary);
        match self.numbers.get_mut(behind) {
            Some(number) => *number = self.next,
            None => self.numbers.push(self.next)?,
        }
        match self.next.checked_add(1) {
            Some(next) => self.next = next,
            None => return Err(ErrorKind::FileTooLarge.into()),
        }
        Ok(())
    }
}

/// Adds a space, unless a line begins here.
fn push_gap(text: &mut Vec<u8>) -> Result<(), AllocError> {
    match text.last() {
        None | Some(b'\n') => {}
        Some(_) => text.push(b' ')?,
    }
    Ok(())
}

fn push_literal(text: &mut Vec<u8>, literal: Literal) -> Result<(), AllocError> {
    push_gap(text)?;
    match literal {
        Literal::Chosen(option) => push_signed(text, b'+', option),
        Literal::Left(option) => push_signed(text, b'-', option),
    }
}

fn push_signed(text: &mut Vec<u8>, sign: u8, option: u16) -> Result<(), AllocError> {
    text.push(sign)?;
    push_number(text, u64::from(option))
}

fn push_clash(text: &mut Vec<u8>, first: u16, second: u16) -> Result<(), AllocError> {
    push_gap(text)?;
    push_number(text, u64::from(first))?;
    push_signed(text, b':', second)
}
