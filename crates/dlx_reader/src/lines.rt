//! The lines of a text, cut off one by one: no list of them is made.

ghost use Rattle.std.specs.Prelude.{◌≡◌, ◌<◌, ◌≤◌, ◌+◌, [], ◌∷◌, ◌==◌, length, position, IfNone, IfSome};
ghost use Rattle.dlx_reader.specs.Left.{lines_in};
ghost use Rattle.dlx_reader.specs.Lines.{lines_of};

use crate::words::{has_words, is_content};
use std::marker::Model;

/// Where the first line of a text ends, if something ends it.
fn line_end(text: &[u8]) -> Option<usize>
    ensures place { result ≡ position (λ byte. byte == 10) text.now }
    ensures within { IfSome result (λ end. end < length text.now) }
{
    text.iter().position(|byte| *byte == b'\n')
}

/// The first line of a text, and what stands behind the byte that ends it, if one does.
pub fn split_line(text: &[u8]) -> (&[u8], Option<&[u8]>)
    ensures lines { lines_of text.now ≡ result.0.now ∷ lines_in result.1 }
    ensures shorter { IfSome result.1 (λ rest. length rest.now < length text.now) }
{
    match line_end(text) {
        None => (text, None),
        // (behind a last byte 10 there is one more line: it is empty, and those who take lines pass over it)
        Some(end) => (&text[..end], Some(&text[end + 1..])),
    }
}

/// A line: its number, counted from 1, and its bytes.
#[derive(Clone, Copy)]
pub struct Line<'a> {
    pub number: usize,
    pub text: &'a [u8],
}

/// The lines of a text that are left, behind so many that were taken.
#[derive(Drop)]
pub struct Lines<'a> {
    before: usize,
    left: Option<&'a [u8]>,
}

impl<'a> Model for Lines<'a> {
    ghost use Rattle.std.specs.Prelude.{◌+◌, ◌<◌, ◌^◌};
    ghost use Rattle.dlx_reader.specs.Left.{Lines as LinesValue, lines_in, most_in};

    ghost Value = { LinesValue };

    ghost view = { λ l. record { before = l.before; lines = lines_in l.left } };

    ghost invariant = { λ l. l.before + most_in l.left < 2 ^ 64 };
}

impl<'a> Lines<'a> {
    ghost use Rattle.dlx_reader.specs.Left.{IsFirstOf, IsFirstIn, content_left, worded_left};

    /// All lines of a text.
    pub fn of(text: &'a [u8]) -> Lines<'a>
        ensures { result ≡ record { before = 0; lines = lines_of text.now } }
    {
        Lines {
            before: 0,
            left: Some(text),
        }
    }

    /// Takes the first line.
    fn take_line(&mut self) -> Option<Line<'a>>
        ensures none { IfNone result (self.old.lines ≡ []) }
        ensures some { IfSome result (IsFirstOf self.old self.new) }
    {
        let (text, left) = split_line(self.left?);
        self.left = left;
        // (it can't overflow: a text has at most one line more than bytes)
        self.before += 1;
        Some(Line {
            number: self.before,
            text,
        })
    }

    /// Takes the first line that says something, and those before it.
    #[tactic(auto, unfolding(crate::specs::Content::content_from))]
    pub fn take_content(&mut self) -> Option<Line<'a>>
        ensures none { IfNone result (content_left self.old ≡ []) }
        ensures some { IfSome result (IsFirstIn content_left self.old self.new) }
    {
        while let Some(line) = self.take_line() {
            if is_content(line.text) {
                return Some(line);
            }
        }
        None
    }

    /// Takes the first line that isn't blank, and those before it.
    #[tactic(auto, unfolding(crate::specs::Answers::worded_lines))]
    pub fn take_worded(&mut self) -> Option<Line<'a>>
        ensures none { IfNone result (worded_left self.old ≡ []) }
        ensures some { IfSome result (IsFirstIn worded_left self.old self.new) }
    {
        while let Some(line) = self.take_line() {
            if has_words(line.text) {
                return Some(line);
            }
        }
        None
    }

    /// The same lines once more.
    fn copy(&self) -> Lines<'a>
        ensures { result ≡ self.now }
    {
        Lines {
            before: self.before,
            left: self.left,
        }
    }

    /// How many of the lines aren't blank.
    pub fn count_worded(&self) -> usize
        ensures { result ≡ length (worded_left self.now) }
    {
        let mut left = self.copy();
        let mut count = 0;
        while let Some(_line) = left.take_worded() {
            count += 1;
        }
        count
    }
}
