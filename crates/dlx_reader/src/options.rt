//! The options that are kept.

ghost use Rattle.std.specs.Prelude.{◌≡◌, ◌<◌, ◌≤◌, ◌+◌, [], map, IfErr, OnErr};
ghost use Rattle.cover_problem.specs.Numbers.{some_below};
ghost use Rattle.dlx_reader.specs.Options.{AreItemsOf, KeptOptions as KeptOptionsValue};
ghost use Rattle.dlx_reader.specs.Lines.{words_of};
ghost use Rattle.dlx_reader.specs.Occurrences.{colour_part};
ghost use Rattle.dlx_reader.specs.Reading.{Gives, colour_at, colours_from, keep_at, none_kept};
ghost use Rattle.dlx_reader.specs.Unknown.{IsOther};

use crate::fault::ReadFault;
use crate::lines::Line;
use crate::names::Names;
use crate::words::{colour_part, split_word};
use cover_problem::{MOST_COLOURS, MOST_NODES, MOST_OPTIONS, Name, Numbers};
use std::alloc::Global;
use std::marker::Model;

/// Whether one of the numbers is below the bound.
fn some_below(bound: usize, numbers: &[u16]) -> bool
    ensures { result ≡ some_below bound numbers.now }
{
    numbers.iter().any(|number| usize::from(*number) < bound)
}

/// The number of a colour, which is added to the names where it is new; 0 where it has no name.
#[tactic(auto, unfolding(crate::specs::Reading::colour_at))]
fn number_colour<'a>(
    alloc: Global,
    names: &mut Names<'a>,
    colour: &'a [u8],
    line: usize,
) -> Result<u16, ReadFault>
    ensures gives { Gives (λ number. (names.new, number)) result (colour_at line names.old colour.now) }
    ensures other { IfErr result IsOther }
{
    if colour.is_empty() {
        return Ok(0);
    }
    if let Some(number) = names.item_named(colour) {
        return Ok(number + 1);
    }
    if names.len() >= MOST_COLOURS {
        return Err(ReadFault::TooManyColours(line));
    }
    names.push(alloc, colour)?;
    Ok(names.len() as u16)
}

/// The numbers of the colours in the words of an option's line, of which the new ones are added to the names.
#[tactic(auto, unfolding(crate::specs::Reading::colours_from))]
fn number_colours<'a>(
    alloc: Global,
    names: &mut Names<'a>,
    line: Line<'a>,
) -> Result<Vec<u16>, ReadFault>
    ensures gives { Gives (λ numbers. (names.new, numbers.items)) result
        (colours_from line.entry.number names.old []
        (map colour_part (words_of line.entry.text.now))) }
    ensures other { IfErr result IsOther }
{
    let mut numbers = Vec::new(alloc);
    let mut left = line.text;
    while let Some((word, rest)) = split_word(left) {
        let number = number_colour(alloc, names, colour_part(word), line.number)?;
        numbers.push(number)?;
        left = rest;
    }
    Ok(numbers)
}

/// The items that the words of an option's line name, and whether one of the words has a colour.
#[derive(Drop)]
pub struct LineItems {
    /// The items in their order.
    pub items: Vec<u16>,
    /// Whether one of them has a colour.
    pub has_colours: bool,
}

/// The numbers of the colours of an option's line. A line that has none isn't cut into its words once more.
fn colours_of<'a>(
    alloc: Global,
    names: &mut Names<'a>,
    read: &LineItems,
    line: Line<'a>,
) -> Result<Vec<u16>, ReadFault>
    requires { AreItemsOf (words_of line.text.now) read.now }
    ensures gives { Gives (λ numbers. (names.new, numbers.items)) result
        (colours_from line.entry.number names.old []
        (map colour_part (words_of line.entry.text.now))) }
    ensures other { IfErr result IsOther }
{
    if read.has_colours {
        return number_colours(alloc, names, line);
    }
    Ok(vec![in alloc; 0; read.items.len()]?)
}

/// The options kept so far and their colours, how many items they have together, and how many options were ignored.
#[derive(Drop)]
pub struct KeptOptions<'a> {
    options: Vec<Numbers>,
    colours: Vec<Numbers>,
    colour_names: Names<'a>,
    nodes: usize,
    ignored: usize,
}

impl<'a> Model for KeptOptions<'a> {
    ghost use Rattle.dlx_reader.specs.Options.{KeptOptions as KeptOptionsValue, KeepsLimits};

    ghost Value = { KeptOptionsValue };

    ghost view = { λ k. record {
      options = k.options.items;
      colours = k.colours.items;
      colour_names = k.colour_names;
      ignored = k.ignored;
    } };

    ghost invariant = { λ k. KeepsLimits k.options.items k.nodes };
}

/// What is kept, as the parts of a problem.
#[derive(Drop)]
pub struct KeptParts {
    /// The options in their order.
    pub options: Vec<Numbers>,
    /// For each of them the colours of its items.
    pub colours: Vec<Numbers>,
    /// The names of the colours.
    pub colour_names: Vec<Name>,
}

impl<'a> KeptOptions<'a> {
    /// No options.
    pub fn new(alloc: Global) -> KeptOptions<'a>
        ensures { result ≡ none_kept }
    {
        KeptOptions {
            options: Vec::new(alloc),
            colours: Vec::new(alloc),
            colour_names: Names::new(alloc),
            nodes: 0,
            ignored: 0,
        }
    }

    /// How many options were ignored.
    pub fn ignored(&self) -> usize
        ensures { result ≡ self.now.ignored }
    {
        self.ignored
    }

    /// The options, their colours and the names of these, each in its order.
    pub fn into_parts(self) -> KeptParts
        ensures options { result.options.items ≡ self.entry.options }
        ensures colours { result.colours.items ≡ self.entry.colours }
        ensures colour_names { result.colour_names.items ≡ self.entry.colour_names }
    {
        let KeptOptions {
            options,
            colours,
            colour_names,
            nodes: _,
            ignored: _,
        } = self;
        KeptParts {
            options,
            colours,
            colour_names: colour_names.into_list(),
        }
    }

    /// Keeps an option with these items of a line, or counts it as ignored where none of them is primary. Apart from
    /// `Memory`, the errors are the limits, tested in this order.
    ///
    /// After an error the options, their colours and the number of those ignored are as before, but names of colours
    /// may have come. Nobody sees these: reading ends at its first error, and all that was kept goes with it.
    #[tactic(auto, unfolding(crate::specs::Reading::keep_at))]
    pub fn keep(
        &mut self,
        alloc: Global,
        primary: usize,
        read: LineItems,
        line: Line<'a>,
    ) -> Result<(), ReadFault>
        requires before { self.old.ignored < line.number }
        requires read { AreItemsOf (words_of line.text.now) read }
        ensures gives { Gives (λ _. self.new) result
            (keep_at line.entry.number primary self.old read.items.items
            (words_of line.entry.text.now)) }
        ensures other { IfErr result IsOther }
        ensures most { self.new.ignored ≤ self.old.ignored + 1 }
        ensures options { OnErr result (self.new.options ≡ self.old.options) }
        ensures colours { OnErr result (self.new.colours ≡ self.old.colours) }
        ensures ignored { OnErr result (self.new.ignored ≡ self.old.ignored) }
    {
        // (before its colours get numbers: those of an ignored option are none of the problem's)
        if !some_below(primary, &read.items) {
            self.ignored += 1;
            return Ok(());
        }
        if self.options.len() == MOST_OPTIONS {
            return Err(ReadFault::TooManyOptions(line.number));
        }
        if self.nodes + read.items.len() > MOST_NODES {
            return Err(ReadFault::TooManyNodes(line.number));
        }
        let nodes = self.nodes + read.items.len();
        let colours = colours_of(alloc, &mut self.colour_names, &read, line)?;
        // (room first, so that one push alone can be refused: options and colours are never of different lengths)
        self.options.reserve(1)?;
        self.colours.push(Numbers::from_vec(colours))?;
        self.options.push_reserved(Numbers::from_vec(read.items));
        self.nodes = nodes;
        Ok(())
    }
}
