//! The lines of a certificate's text.

ghost use Rattle.std.specs.Prelude.{◌≡◌, ◌<◌, ◌≤◌, length, true, IfSome};

use crate::line::Line;

/// The lines of a text that are left.
#[derive(Drop)]
pub(crate) struct Script<'a> {
    rest: &'a [u8],
    /// How many lines were read.
    lines: u64,
}

impl<'a> Script<'a> {
    /// The lines of a text.
    pub(crate) fn new(text: &'a [u8]) -> Script<'a> {
        Script {
            rest: text,
            lines: 0,
        }
    }

    /// Returns how many lines were read.
    pub(crate) fn lines(&self) -> u64 {
        self.lines
    }

    /// Returns whether all lines were read.
    pub(crate) fn is_over(&self) -> bool {
        self.rest.is_empty()
    }

    /// Returns how many bytes are left.
    pub(crate) fn left(&self) -> usize {
        self.rest.len()
    }

    /// Reads the next line, which is empty at the end of the text.
    pub(crate) fn line(&mut self) -> &'a [u8] {
        let (line, rest) = cut(self.rest, b'\n');
        self.rest = rest;
        self.lines = self.lines.saturating_add(1);
        line
    }

    /// Reads a line that refutes a case; none if the line says something else.
    pub(crate) fn refuting_line(&mut self) -> Option<Line> {
        let line = self.line();
        match line.first() {
            Some(b'=') => Some(Line::Within(number_of(behind_sign(line))? as usize)),
            Some(b'*') => Some(Line::Reason(number_of(behind_sign(line))? as usize)),
            _ => Some(Line::Branch(small_number_of(line)?)),
        }
    }

    /// Reads the next line if it is this sign with this number, and returns whether it was.
    pub(crate) fn takes(&mut self, sign: u8, number: usize) -> bool {
        if !self.begins(sign) {
            return false;
        }
        let (line, _) = cut(self.rest, b'\n');
        if !is_number(behind_sign(line), number) {
            return false;
        }
        self.line();
        true
    }

    /// Returns whether the next line begins with a sign.
    pub(crate) fn begins(&self, sign: u8) -> bool
        ensures { result ≡ true → 0 < length self.now.rest.now }
    {
        match self.rest.first() {
            Some(byte) => *byte == sign,
            None => false,
        }
    }

    /// Reads a line that begins with a sign, and returns the number that follows, if one does.
    pub(crate) fn number_behind_sign(&mut self) -> Option<usize> {
        let line = self.line();
        Some(number_of(behind_sign(line))? as usize)
    }
}

/// Returns where this byte stands first, if it does.
fn place_of(text: &[u8], byte: u8) -> Option<usize>
    ensures { IfSome result (λ place. place < length text.now) }
{
    text.iter().position(|other| *other == byte)
}

/// Returns what stands before the first such byte, and what stands behind it.
pub(crate) fn cut(text: &[u8], byte: u8) -> (&[u8], &[u8])
    ensures { length result.1.now ≤ length text.now }
{
    match place_of(text, byte) {
        None => (text, &text[text.len()..]),
        Some(end) => (&text[..end], &text[end + 1..]),
    }
}

/// Returns what stands behind the first byte of a line.
pub(crate) fn behind_sign(line: &[u8]) -> &[u8] {
    if line.is_empty() {
        return line;
    }
    &line[1..]
}

/// Returns the number that digits spell, if it is below 2^32.
pub(crate) fn number_of(digits: &[u8]) -> Option<u32> {
    if digits.is_empty() {
        return None;
    }
    let mut number = 0u32;
    for digit in digits {
        if !digit.is_ascii_digit() {
            return None;
        }
        number = number
            .checked_mul(10)?
            .checked_add(u32::from(*digit - b'0'))?;
    }
    Some(number)
}

/// Returns the number that digits spell, if it is below 65,536.
pub(crate) fn small_number_of(digits: &[u8]) -> Option<u16> {
    u16::try_from(number_of(digits)?).ok()
}

/// Returns whether the digits spell this number.
pub(crate) fn is_number(digits: &[u8], number: usize) -> bool {
    match number_of(digits) {
        Some(own) => own as usize == number,
        None => false,
    }
}
