//! The exact cover problem itself, in the form of Knuth's DLX2 (TAOCP 7.2.2.1): primary and secondary items, and
//! colours.
//!
//! The reader makes one of a file. What looks for reasons makes others of it: with cliques as further items, with more
//! items primary, or with one option chosen. After that nothing changes a problem: all searchers, cores and threads
//! borrow the same one.
//!
//! Its rules are an invariant of the type, so no function tests them again. A getter's contract brings them in; where
//! none is called, `recall_rules` does. Colours are a second list beside an option's items, so that what knows no
//! colours reads items alone.

ghost use Rattle.std.specs.Prelude.{◌≡◌, ℕ, ◌-◌, ◌<◌, ◌≤◌, length, slice_index, slice_index_or, [], All, IfOk};

use crate::lists::{Name, Numbers};
use std::alloc::AllocError;
use std::marker::Model;

/// An exact cover problem: items with names, of which the first are primary and the others secondary, and
/// options as lists of items, to which they may give colours. Items and options go by their numbers, counted from 0 in
/// the order of the file; colours by theirs, counted from 1, since 0 stands for no colour.
///
/// There are 1 to 1,000 items, one of them at least primary, and at most 20,000 options with 200,000 items in all.
/// Names are 1 to 32 bytes and different; an option names a primary item at least, and no item twice. Only secondary
/// items have colours, at most 10,000 of them, with names of 1 to 32 bytes that are different.
#[derive(Debug, Drop)]
pub struct Problem {
    names: Vec<Name>,
    primary: usize,
    options: Vec<Numbers>,
    // beside each option the colours of its items, place by place
    colours: Vec<Numbers>,
    colour_names: Vec<Name>,
}

impl Model for Problem {
    ghost use Rattle.cover_problem.specs.Problem.{Problem as ProblemValue, IsProblem, problem_by};

    ghost Value = { ProblemValue };

    ghost view = { λ p.
        problem_by p.names.items p.primary p.options.items p.colours.items p.colour_names.items };

    ghost invariant = { λ p. IsProblem
        (problem_by p.names.items p.primary p.options.items p.colours.items p.colour_names.items) };
}

impl Clone for Problem {
    ghost is_clone = { λ a b. a ≡ b };

    fn clone(&self) -> Result<Self, AllocError> {
        Ok(Problem {
            names: self.names.clone()?,
            primary: self.primary,
            options: self.options.clone()?,
            colours: self.colours.clone()?,
            colour_names: self.colour_names.clone()?,
        })
    }
}

impl Problem {
    ghost use Rattle.cover_problem.specs.Problem.{IsProblem, problem_by, items_of, colours_of, colour_of};

    /// The problem with these names, of which so many are primary, these options, the colours of their items, place by
    /// place, and the names of the colours.
    pub fn from_parts(
        names: Vec<Name>,
        primary: usize,
        options: Vec<Numbers>,
        colours: Vec<Numbers>,
        colour_names: Vec<Name>,
    ) -> Problem
        requires { IsProblem
            (problem_by names.items primary options.items colours.items colour_names.items) }
        ensures { result
            ≡ problem_by names.items primary options.items colours.items colour_names.items }
    {
        Problem {
            names,
            primary,
            options,
            colours,
            colour_names,
        }
    }

    /// Does nothing at run time. It tells the prover that the problem keeps the rules of its type, which a function
    /// that is given a problem otherwise learns only from the contract of a getter.
    #[inline(always)]
    pub fn recall_rules(&self)
        ensures { IsProblem self.now }
    {
        // (a look inside is what brings in the type's invariant)
        let _primary = self.primary;
    }

    /// How many items there are, primary and secondary.
    pub fn items(&self) -> usize
        ensures count { result ≡ length self.now.names }
        ensures problem { IsProblem self.now }
    {
        self.names.len()
    }

    /// The name of an item.
    pub fn name(&self, item: u16) -> &[u8]
        requires { item < length self.now.names }
        ensures { result.now ≡ slice_index_or self.now.names item [] }
    {
        self.names[item as usize].as_slice()
    }

    /// How many of the items are primary: the first ones.
    pub fn primary(&self) -> usize
        ensures count { result ≡ self.now.primary }
        ensures problem { IsProblem self.now }
    {
        self.primary
    }

    /// How many options there are.
    pub fn options(&self) -> usize
        ensures count { result ≡ length self.now.options }
        ensures problem { IsProblem self.now }
    {
        self.options.len()
    }

    /// The items of an option, in its own order.
    pub fn option(&self, option: u16) -> &[u16]
        requires { option < length self.now.options }
        ensures items { result.now ≡ items_of self.now option }
        ensures named { All (λ i. i < length self.now.names) result.now }
    {
        self.options[option as usize].as_slice()
    }

    /// The colours that an option gives its items, in the order of these: 0 for none, else the number of a colour.
    pub fn colours(&self, option: u16) -> &[u16]
        requires { option < length self.now.options }
        ensures colours { result.now ≡ colours_of self.now option }
        ensures long { length result.now ≡ length (items_of self.now option) }
        ensures named { All (λ c. c ≤ length self.now.colour_names) result.now }
        ensures each { (k : ℕ) → k < length result.now →
            colour_of self.now option (slice_index (items_of self.now option) k)
            ≡ slice_index result.now k }
    {
        self.colours[option as usize].as_slice()
    }

    /// How many different colours there are.
    pub fn colour_names(&self) -> usize
        ensures count { result ≡ length self.now.colour_names }
        ensures problem { IsProblem self.now }
    {
        self.colour_names.len()
    }

    /// The name of a colour, by its number from 1.
    pub fn colour_name(&self, colour: u16) -> &[u8]
        requires some { 1 ≤ colour }
        requires named { colour ≤ length self.now.colour_names }
        ensures { result.now ≡ slice_index_or self.now.colour_names (colour - 1) [] }
    {
        self.colour_names[colour as usize - 1].as_slice()
    }

    /// An equal problem; the only error is out of memory.
    pub fn copy(&self) -> Result<Problem, AllocError>
        ensures { IfOk result (λ copied. copied ≡ self.now) }
    {
        self.clone()
    }
}
