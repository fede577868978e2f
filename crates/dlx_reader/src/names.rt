//! The names of items or of colours, with an index by which a name's number is found.

ghost use Rattle.std.specs.Prelude.{◌≡◌, ◌<◌, ◌≤◌, [], ◌∷◌, ◌++◌, length, false, IfOk, IfSome, OnOk, OnErr};
ghost use Rattle.cover_problem.specs.declared.limits.TheConstants.{MOST_COLOURS};

use cover_problem::{Name, Problem};
use std::alloc::{AllocError, Global};
use std::collections::BTreeMap;
use std::marker::Model;

/// With how many names a word is compared before it is looked up among all: names of one option often follow one
/// another in the file's first line. That took `crowd` from 260 to 92 million instructions (`bench/TRIED.md`); other
/// numbers than eight weren't measured.
const NEAR: usize = 8;

/// The names of items or of colours in their order, no two of them alike, of which there are at most 10,000. Each is
/// found by some ten comparisons, whatever the names are.
#[derive(Drop)]
pub struct Names<'a> {
    list: Vec<Name>,
    // (sorted, not hashed: no choice of names makes a file slow to read)
    // (its keys are borrowed from the text or the problem, since a struct can't borrow from its own list)
    index: BTreeMap<&'a [u8], u16>,
}

impl<'a> Model for Names<'a> {
    ghost use Rattle.std.specs.Prelude.{ℕ, List, length, ◌≤◌};
    ghost use Rattle.std.specs.Prelude.{◌≡◌, true};
    ghost use Rattle.cover_problem.specs.declared.limits.TheConstants.{MOST_COLOURS};
    ghost use Rattle.cover_problem.specs.Problem.{names_differ};
    ghost use Rattle.dlx_reader.specs.Names.{IsIndex};

    ghost Value = { List (List ℕ) };

    ghost view = { λ n. n.list.items };

    ghost invariant = { λ n. (length n.list.items ≤ MOST_COLOURS)
        × IsIndex n.list.items n.index
        × (names_differ n.list.items ≡ true) };
}

impl<'a> Names<'a> {
    ghost use Rattle.cover_problem.specs.Problem.{IsProblem};
    ghost use Rattle.dlx_reader.specs.Names.{is_among, item_named};

    /// No names.
    pub fn new(alloc: Global) -> Names<'a>
        ensures { result ≡ [] }
    {
        Names {
            list: Vec::new(alloc),
            index: BTreeMap::new(alloc),
        }
    }

    /// The names of a problem's items. The only error is out of memory.
    pub fn of_problem(alloc: Global, problem: &'a Problem) -> Result<Names<'a>, AllocError>
        ensures names { IfOk result (λ names. names ≡ problem.now.names) }
        ensures problem { IsProblem problem.now }
    {
        let mut names = Names::new(alloc);
        for item in 0..problem.items() as u16 {
            names.push(alloc, problem.name(item))?;
        }
        Ok(names)
    }

    /// The names of a problem's colours. The only error is out of memory.
    pub fn of_colours(alloc: Global, problem: &'a Problem) -> Result<Names<'a>, AllocError>
        ensures names { IfOk result (λ names. names ≡ problem.now.colour_names) }
        ensures problem { IsProblem problem.now }
    {
        let mut names = Names::new(alloc);
        for before in 0..problem.colour_names() as u16 {
            names.push(alloc, problem.colour_name(before + 1))?;
        }
        Ok(names)
    }

    /// How many names there are.
    pub fn len(&self) -> usize
        ensures len { result ≡ length self.now }
        ensures most { result ≤ MOST_COLOURS }
    {
        self.list.len()
    }

    /// The number of the item or colour with a name, counted from 0.
    pub fn item_named(&self, word: &[u8]) -> Option<u16>
        ensures item { result ≡ item_named self.now word.now }
        ensures within { IfSome result (λ item. item < length self.now) }
        ensures most { length self.now ≤ MOST_COLOURS }
    {
        self.index.get(word).copied()
    }

    /// The number of the item or colour with a name, as `item_named` answers it. The names from `next` on are looked at
    /// first: options often name items in their order.
    pub fn item_named_near(&self, next: usize, word: &[u8]) -> Option<u16>
        ensures item { result ≡ item_named self.now word.now }
        ensures within { IfSome result (λ item. item < length self.now) }
        ensures most { length self.now ≤ MOST_COLOURS }
    {
        for item in next..self.list.len().min(next.saturating_add(NEAR)) {
            if self.list[item].as_slice() == word {
                return Some(item as u16);
            }
        }
        self.item_named(word)
    }

    /// Whether it is one of the names.
    pub fn contains(&self, word: &[u8]) -> bool
        ensures among { result ≡ is_among self.now word.now }
        ensures most { length self.now ≤ MOST_COLOURS }
    {
        self.item_named(word).is_some()
    }

    /// Adds a name that is new. The only error is out of memory, and the names are then as before.
    pub fn push(&mut self, alloc: Global, word: &'a [u8]) -> Result<(), AllocError>
        requires fresh { is_among self.old word.now ≡ false }
        requires room { length self.old < MOST_COLOURS }
        ensures ok { OnOk result (self.new ≡ self.old ++ word.now ∷ []) }
        ensures err { OnErr result (self.new ≡ self.old) }
    {
        let number = self.list.len() as u16;
        let name = Name::from_vec(Vec::from_slice(alloc, word)?);
        // (all that can be refused comes before the list grows, so a refusal leaves the names as they are)
        self.list.reserve(1)?;
        self.index.insert(word, number)?;
        self.list.push_reserved(name);
        Ok(())
    }

    /// The names in their order.
    pub fn into_list(self) -> Vec<Name>
        ensures { result.items ≡ self.entry }
    {
        let Names { list, index: _ } = self;
        list
    }
}
