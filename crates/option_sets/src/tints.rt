//! Tints: numbers for the pairs of an item and a colour that options give it.

ghost use Rattle.std.specs.Prelude.{◌≡◌, ℕ, ◌+◌, ◌<◌, ◌≤◌, [], ◌∷◌, length, IfOk, OnOk};
ghost use Rattle.cover_problem.specs.Problem.{IsProblem};
ghost use Rattle.option_sets.specs.Tints.{key_of, AreApart, key_at, AreNumbers, AreTints, Extends, IsNumberOf};

use crate::lists::Tints;
use cover_problem::Problem;
use std::alloc::{AllocError, Global};
use std::collections::BTreeMap;
use std::marker::Model;

/// Keys of items in colours, each with a number by which it goes: its place among them.
#[derive(Drop)]
pub struct Numbering {
    keys: Vec<u32>,
    index: BTreeMap<u32, u32>,
}

impl Model for Numbering {
    ghost use Rattle.std.specs.Prelude.{ℕ, List};
    ghost use Rattle.option_sets.specs.Tints.{IsNumbering};

    ghost Value = { List ℕ };

    ghost view = { λ n. n.keys.items };

    ghost invariant = { λ n. IsNumbering n.keys.items n.index };
}

/// The key of an item in a colour: 0 where it has none.
fn key_of(item: u16, colour: u16) -> u32
    ensures { result ≡ key_of item colour }
{
    if colour == 0 {
        0
    } else {
        // (there are at most 10,000 colours, so pairs that differ have keys that differ, and none is 0)
        item as u32 * 16384 + colour as u32
    }
}

impl Numbering {
    /// The one key of items without a colour, with the number 0.
    fn new(alloc: Global) -> Result<Numbering, AllocError>
        ensures { IfOk result (λ numbering. numbering ≡ 0 ∷ []) }
    {
        let mut keys = Vec::new(alloc);
        keys.push(0u32)?;
        let mut index = BTreeMap::new(alloc);
        index.insert(0u32, 0u32)?;
        Ok(Numbering { keys, index })
    }

    /// How many keys there are.
    pub fn len(&self) -> usize
        ensures len { result ≡ length self.now }
        ensures apart { AreApart self.now }
        ensures some { 0 < length self.now }
        ensures plain { key_at self.now 0 ≡ 0 }
    {
        self.keys.len()
    }

    /// The number of a key, which is given one if it has none. The only error is out of memory.
    fn number(&mut self, key: u32) -> Result<u32, AllocError>
        requires { length self.old < 4294967296 }
        ensures number { IfOk result (IsNumberOf self.new key) }
        ensures more { OnOk result (Extends self.old self.new) }
        ensures few { OnOk result (length self.new ≤ length self.old + 1) }
    {
        // (nearly all items have no colour, and that key is the first)
        if key == self.keys[0] {
            return Ok(0);
        }
        if let Some(number) = self.index.get(&key) {
            return Ok(*number);
        }
        let number = self.keys.len() as u32;
        self.keys.reserve(1)?;
        self.index.insert(key, number)?;
        self.keys.push_reserved(key);
        Ok(number)
    }
}

/// The tints of each option, and their keys. The only error is out of memory.
pub fn tints_of(alloc: Global, problem: &Problem) -> Result<(Vec<Tints>, Numbering), AllocError>
    ensures tints { IfOk result (λ tints. AreTints problem.now tints.1 tints.0.items) }
    ensures lawful { IfOk result (λ _. IsProblem problem.now) }
{
    let mut numbering = Numbering::new(alloc)?;
    let mut lists = Vec::with_capacity(alloc, problem.options())?;
    for option in 0..problem.options() as u16 {
        let items = problem.option(option);
        let colours = problem.colours(option);
        lists.push(tints_of_option(alloc, &mut numbering, items, colours)?)?;
    }
    // (for what the getter says: that keys are different, and that the first is the one without a colour)
    let _count = numbering.len();
    Ok((lists, numbering))
}

/// The tints of an option with these items and colours. The only error is out of memory.
fn tints_of_option(
    alloc: Global,
    numbering: &mut Numbering,
    items: &[u16],
    colours: &[u16],
) -> Result<Tints, AllocError>
    requires long { length colours.now ≡ length items.now }
    requires few { length numbering.old + length items.now < 4294967296 }
    ensures numbers { IfOk result (AreNumbers numbering.new items.now colours.now) }
    ensures more { OnOk result (Extends numbering.old numbering.new) }
    ensures few { OnOk result (length numbering.new ≤ length numbering.old + length items.now) }
{
    let mut numbers = Vec::with_capacity(alloc, items.len())?;
    for place in 0..items.len() {
        let number = numbering.number(key_of(items[place], colours[place]))?;
        numbers.push(number)?;
    }
    Ok(Tints::from_vec(numbers))
}
