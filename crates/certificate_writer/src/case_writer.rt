//! The steps of a search, as the lines of a certificate by cases.

use crate::reason_lines::push_reason;
use crate::text::{head_of, push_number, send, send_if_many};
use brancher::LEAST_VISITS;
use cover_problem::Problem;
use cover_reasons::Reason;
use decider::Trace;
use dlx_reader::Sink;
use search_engines::ReasonListener;
use std::alloc::{AllocError, Global};
use std::io;

/// How many kept cases whoever checks the lines has to hold at most: about as many as the search's own table has room
/// for.
const MOST_HELD: u32 = 1 << 22;

/// So much greater is a case's number in the search's table, which takes none that is less than `LEAST_VISITS`.
const TABLE_OFFSET: u64 = LEAST_VISITS;

/// Writes the lines of a certificate by cases while a search goes on. A fault is kept until the end: the search goes
/// on, since a cover needs no certificate.
#[derive(Drop)]
pub struct CaseWriter<W: Sink + Drop> {
    sink: W,
    /// Lines that wait to be written.
    text: Vec<u8>,
    /// How many visits each case takes that is held, at the place of its number modulo `most`.
    visits: Vec<u64>,
    /// How many cases are held at most.
    most: u32,
    /// The number of the next case that is kept.
    next: u32,
    /// So many cases, the first ones, are dropped by lines.
    dropped: u32,
    /// Whether there are lines behind the head.
    is_begun: bool,
    /// Whether all could be written so far.
    is_whole: bool,
}

impl<W: Sink + Drop> CaseWriter<W> {
    /// A writer of a problem's certificate, which writes the head; the only error is out of memory.
    pub fn new(alloc: Global, problem: &Problem, sink: W) -> Result<CaseWriter<W>, AllocError> {
        CaseWriter::holding(alloc, problem, MOST_HELD, sink)
    }

    /// The same, where whoever checks the lines has to hold so many kept cases at most.
    pub fn holding(
        alloc: Global,
        problem: &Problem,
        most: u32,
        sink: W,
    ) -> Result<CaseWriter<W>, AllocError> {
        Ok(CaseWriter {
            sink,
            text: head_of(alloc, b"cases", problem)?,
            visits: Vec::new(alloc),
            most,
            next: 0,
            dropped: 0,
            is_begun: false,
            is_whole: true,
        })
    }

    /// Returns whether there are lines behind the head.
    pub fn is_begun(&self) -> bool {
        self.is_begun
    }

    /// Writes what still waits. Returns whether all was written.
    pub fn end(&mut self) -> bool {
        self.is_whole = self.is_whole && send(&mut self.text, &mut self.sink).is_ok();
        self.is_whole
    }

    /// Writes a line of a number, with a sign in front of it if there is one.
    #[inline(always)]
    fn write_line(&mut self, sign: Option<u8>, number: u64) -> io::Result<()> {
        self.is_begun = true;
        if let Some(sign) = sign {
            self.text.push(sign)?;
        }
        push_number(&mut self.text, number)?;
        self.text.push(b'\n')?;
        send_if_many(&mut self.text, &mut self.sink)
    }

    /// Writes the line of a case, and before it those that drop the cases that are no longer held.
    #[inline(always)]
    fn write_case(&mut self, sign: Option<u8>, number: u64) -> io::Result<()> {
        self.write_dropped()?;
        self.write_line(sign, number)
    }

    /// Writes the lines that drop the cases that are no longer held.
    #[inline(always)]
    fn write_dropped(&mut self) -> io::Result<()> {
        for number in self.dropped..self.first_held() {
            self.dropped = number.saturating_add(1);
            self.write_line(Some(b'-'), u64::from(number))?;
        }
        Ok(())
    }

    /// Writes the lines of a reason, by which the first case is refuted.
    fn write_reason(&mut self, reason: &Reason) -> io::Result<()> {
        self.is_begun = true;
        push_reason(&mut self.text, reason)?;
        self.text.extend_from_slice(b"\n*0\n")?;
        send_if_many(&mut self.text, &mut self.sink)
    }

    /// Returns the number of the first case that is held.
    #[inline(always)]
    fn first_held(&self) -> u32 {
        self.next.saturating_sub(self.most)
    }

    /// Returns where the visits of a case stand, if it is held.
    #[inline(always)]
    fn place_of(&self, number: u32) -> usize {
        (number % self.most.max(1)) as usize
    }

    /// Returns how many visits a case takes, if it is held.
    #[inline(always)]
    fn visits_of(&self, number: u32) -> Option<u64> {
        if number < self.first_held() || number >= self.next {
            return None;
        }
        self.visits.get(self.place_of(number)).copied()
    }

    /// Holds a case that takes so many visits in place of the one that was held longest, and returns its number; none
    /// where there is no memory, or no further number.
    #[inline(always)]
    fn hold(&mut self, visits: u64) -> Option<u32> {
        let number = self.next;
        let next = number.checked_add(1)?;
        let place = self.place_of(number);
        match self.visits.get_mut(place) {
            Some(held) => *held = visits,
            None => self.visits.push(visits).ok()?,
        }
        self.next = next;
        Some(number)
    }
}

impl<W: Sink + Drop> Trace for CaseWriter<W> {
    #[inline(always)]
    fn branches(&mut self, item: u16) {
        self.is_whole = self.is_whole && self.write_case(None, u64::from(item)).is_ok();
    }

    #[inline(always)]
    fn meets(&mut self, number: u64) -> Option<u64> {
        let number = u32::try_from(number.checked_sub(TABLE_OFFSET)?).ok()?;
        let visits = self.visits_of(number)?;
        self.is_whole = self.is_whole && self.write_case(Some(b'='), u64::from(number)).is_ok();
        Some(visits)
    }

    #[inline(always)]
    fn keeps(&mut self, chosen: usize, visits: u64) -> u64 {
        // (a case of fewer visits would have a line as long as the lines that it saves)
        if visits < LEAST_VISITS {
            return 0;
        }
        let Some(number) = self.hold(visits) else {
            return 0;
        };
        self.is_whole = self.is_whole && self.write_line(Some(b'!'), chosen as u64).is_ok();
        u64::from(number).saturating_add(TABLE_OFFSET)
    }
}

impl<W: Sink + Drop> ReasonListener for CaseWriter<W> {
    fn hears(&mut self, reason: &Reason) {
        self.is_whole = self.is_whole && self.write_reason(reason).is_ok();
    }
}
