//! The options that lines mean, found by their items with their colours.

ghost use Rattle.std.specs.Prelude.{◌≡◌, ℕ, ◌+◌, ◌<◌, ◌≤◌, [], ◌∷◌, ◌++◌, is_some, length, unwrap_or, IfOk, IfSome, IfNone, OnOk, OnErr};
ghost use Rattle.std.specs.BTreeMap.{IsEmpty};
ghost use Rattle.cover_problem.specs.declared.limits.TheConstants.{MOST_COLOURS};
ghost use Rattle.dlx_reader.specs.Lines.{words_of};
ghost use Rattle.dlx_reader.specs.Names.{item_named};
ghost use Rattle.dlx_reader.specs.Occurrences.{bytes_in};
ghost use Rattle.dlx_reader.specs.OptionIndex.{colour_numbered, colour_or_none, item_or_none, IsIndexFrom, IsNext, AreNext, IsUnmeant, IsLowestUnmeant, AreKeys, key_named, key_of};

use crate::names::Names;
use crate::words::{split_colour, split_word};
use cover_problem::{Numbers, Problem};
use std::alloc::{AllocError, Global};
use std::collections::BTreeMap;
use std::marker::Model;

/// The number of a name, or the number of names where it is none of them.
fn number_or_none(names: &Names, name: &[u8]) -> u16
    ensures number { result ≡ unwrap_or (item_named names.now name.now) (length names.now) }
    ensures most { result ≤ MOST_COLOURS }
{
    // (no option has this number in its key, so a line with an unknown name finds none)
    let none = names.len() as u16;
    names.item_named(name).unwrap_or(none)
}

/// The number of a colour's name, 0 where there is none, or a number above all where no colour has the name.
fn colour_or_none(names: &Names, colour: Option<&[u8]>) -> u16
    ensures { result ≡ colour_numbered names.now (is_some colour.entry) (bytes_in colour.entry) }
{
    match colour {
        None => 0,
        Some(colour) => number_or_none(names, colour) + 1,
    }
}

/// Adds what a word says to the items and to the colours of a line.
fn add_word(
    names: &Names,
    colour_names: &Names,
    items: &mut Vec<u16>,
    colours: &mut Vec<u16>,
    word: &[u8],
) -> Result<(), AllocError>
    ensures items { OnOk result
        (items.new.items ≡ items.old.items ++ item_or_none names.now word.now ∷ []) }
    ensures colours { OnOk result
        (colours.new.items ≡ colours.old.items ++ colour_or_none colour_names.now word.now ∷ []) }
{
    let (name, colour) = split_colour(word);
    items.push(number_or_none(names, name))?;
    colours.push(colour_or_none(colour_names, colour))?;
    Ok(())
}

/// Makes the key that the words of a line give: their items, where the number of items stands for an unknown name, and
/// behind them their colours, where a number above all does. Both lists keep their room for the next line.
pub fn name_key(
    names: &Names,
    colour_names: &Names,
    line: &[u8],
    key: &mut Vec<u16>,
    colours: &mut Vec<u16>,
) -> Result<(), AllocError>
    ensures { OnOk result
        (key.new.items ≡ key_named names.now colour_names.now (words_of line.now)) }
{
    key.clear();
    colours.clear();
    let mut left = line;
    while let Some((word, rest)) = split_word(left) {
        add_word(names, colour_names, key, colours, word)?;
        left = rest;
    }
    // (there are as many colours as items, so lists that differ have keys that differ)
    key.extend_from_slice(colours)?;
    Ok(())
}

/// The key of an option: its items, and behind them their colours.
fn key_of(alloc: Global, problem: &Problem, option: u16) -> Result<Numbers, AllocError>
    requires { option < length problem.now.options }
    ensures { IfOk result (λ key. key ≡ key_of problem.now option) }
{
    let mut key = Vec::from_slice(alloc, problem.option(option))?;
    key.extend_from_slice(problem.colours(option))?;
    Ok(Numbers::from_vec(key))
}

/// The keys of all options.
pub fn keys_of(alloc: Global, problem: &Problem) -> Result<Vec<Numbers>, AllocError>
    ensures { IfOk result (λ keys. AreKeys problem.now (length problem.now.options) keys.items) }
{
    let mut keys = Vec::with_capacity(alloc, problem.options())?;
    for option in 0..problem.options() as u16 {
        keys.push(key_of(alloc, problem, option)?)?;
    }
    Ok(keys)
}

/// Puts an option into the index of the options behind it, and answers the next one with the same key.
fn link_option<'a>(
    problem: &Problem,
    keys: &'a [Numbers],
    option: u16,
    lowest: &mut BTreeMap<&'a [u16], u16>,
) -> Result<u16, AllocError>
    requires keys { AreKeys problem.now (length problem.now.options) keys.now }
    requires option { option < length problem.now.options }
    requires behind { IsIndexFrom problem.now (option + 1) lowest.old }
    ensures next { IfOk result (IsNext problem.now option) }
    ensures index { OnOk result (IsIndexFrom problem.now option lowest.new) }
{
    let none = problem.options() as u16;
    let next = lowest.insert(keys[option as usize].as_slice(), option)?;
    Ok(next.unwrap_or(none))
}

/// Puts each option into the index, and answers for each the next one with the same key.
fn link_options<'a>(
    alloc: Global,
    problem: &Problem,
    keys: &'a [Numbers],
    lowest: &mut BTreeMap<&'a [u16], u16>,
) -> Result<Vec<u16>, AllocError>
    requires keys { AreKeys problem.now (length problem.now.options) keys.now }
    requires empty { IsEmpty lowest.old }
    ensures next { IfOk result (λ next. AreNext problem.now 0 next.items) }
    ensures index { OnOk result (IsIndexFrom problem.now 0 lowest.new) }
{
    let mut next = vec![in alloc; 0; problem.options()]?;
    let mut start = problem.options();
    // (from the last option on: so the map has the next one of equal key when an option comes, and the lowest of each
    // in the end)
    while start > 0 {
        start -= 1;
        next[start] = link_option(problem, keys, start as u16, lowest)?;
    }
    Ok(next)
}

/// The options that the lines so far mean, in their order. Of equal options each further line means the next one, which
/// is found by some twenty comparisons of keys.
#[derive(Drop)]
pub struct OptionIndex<'a> {
    problem: &'a Problem,
    keys: &'a [Numbers],
    lowest: BTreeMap<&'a [u16], u16>,
    next: Vec<u16>,
    options: Vec<u16>,
}

impl<'a> Model for OptionIndex<'a> {
    ghost use Rattle.std.specs.Prelude.{length};
    ghost use Rattle.dlx_reader.specs.OptionIndex.{OptionIndex as OptionIndexValue, AreKeys, AreNext, IsIndex};

    ghost Value = { OptionIndexValue };

    ghost view = { λ m. record { problem = m.problem.now; options = m.options.items } };

    ghost invariant = { λ m. AreKeys m.problem.now (length m.problem.now.options) m.keys.now
        × AreNext m.problem.now 0 m.next.items × IsIndex m.problem.now m.options.items m.lowest };
}

impl<'a> OptionIndex<'a> {
    /// No options, of a problem with these keys. It takes time and memory of the order of the problem's options.
    pub fn new(
        alloc: Global,
        problem: &'a Problem,
        keys: &'a [Numbers],
    ) -> Result<OptionIndex<'a>, AllocError>
        requires { AreKeys problem.now (length problem.now.options) keys.now }
        ensures problem { IfOk result (λ index. index.problem ≡ problem.now) }
        ensures options { IfOk result (λ index. index.options ≡ []) }
    {
        let mut lowest = BTreeMap::new(alloc);
        let next = link_options(alloc, problem, keys, &mut lowest)?;
        Ok(OptionIndex {
            problem,
            keys,
            lowest,
            next,
            options: Vec::new(alloc),
        })
    }

    /// Adds the lowest option with this key that isn't among the options yet, if there is one, and answers it.
    ///
    /// The only error is out of memory, and the options are then as before.
    pub fn take(&mut self, key: &[u16]) -> Result<Option<u16>, AllocError>
        ensures problem { self.new.problem ≡ self.old.problem }
        ensures some { IfOk result (λ taken.
            IfSome taken (IsLowestUnmeant self.old.problem self.old.options key.now)) }
        ensures more { IfOk result (λ taken.
            IfSome taken (λ option. self.new.options ≡ self.old.options ++ option ∷ [])) }
        ensures none { IfOk result (λ taken.
            IfNone taken ((option : ℕ) →
            IsUnmeant self.old.problem self.old.options key.now option → ⊥)) }
        ensures unchanged { OnErr result (self.new ≡ self.old) }
    {
        let Some(option) = self.lowest.get(key).copied() else {
            return Ok(None);
        };
        // (the number behind the last option: all of this key are taken)
        if usize::from(option) >= self.problem.options() {
            return Ok(None);
        }
        let next = self.next[usize::from(option)];
        let keys = self.keys;
        // (room first: if the map is refused memory then, neither has changed)
        self.options.reserve(1)?;
        self.lowest
            .insert(keys[usize::from(option)].as_slice(), next)?;
        self.options.push_reserved(option);
        Ok(Some(option))
    }

    /// The options in their order.
    pub fn into_options(self) -> Vec<u16>
        ensures { result.items ≡ self.entry.options }
    {
        let OptionIndex {
            problem: _,
            keys: _,
            lowest: _,
            next: _,
            options,
        } = self;
        options
    }
}
