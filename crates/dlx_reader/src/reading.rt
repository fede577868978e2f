//! Reading a problem, in the general form of the inputs of Knuth's programs DLX1 and DLX2.

ghost use Rattle.std.specs.Prelude.{◌≡◌, ◌≢◌, ◌<◌, ◌≤◌, ◌+◌, ◌^◌, [], ◌∷◌, length, true, false, is_some, Some, IfOk, IfErr, OnOk};
ghost use Rattle.std.specs.List.{All, list_any, list_all};
ghost use Rattle.cover_problem.specs.Numbers.{is_in};
ghost use Rattle.cover_problem.specs.declared.limits.TheConstants.{MOST_BYTES};
ghost use Rattle.dlx_reader.specs.Content.{is_content, is_word, content_from, content_of};
ghost use Rattle.dlx_reader.specs.Faults.{first_fault, is_bad_colour, is_illegal, name_tests, part_tests};
ghost use Rattle.dlx_reader.specs.Items.{name_part, primary_in};
ghost use Rattle.dlx_reader.specs.Options.{AreItemsOf};
ghost use Rattle.dlx_reader.specs.Left.{content_left, line_of};
ghost use Rattle.dlx_reader.specs.Lines.{words_of};
ghost use Rattle.dlx_reader.specs.Occurrences.{bytes_in, colour_part, has_colon, item_part};
ghost use Rattle.dlx_reader.specs.ProblemOf.{HasNoProblem, IsProblemOf};
ghost use Rattle.dlx_reader.specs.Reading.{Gives, GivesPlain, after, item_at, items_from, none_kept, option_item_at, option_from, option_at, options_from, reading_of, read_by};
ghost use Rattle.dlx_reader.specs.Unknown.{IsFirstName, IsOther, NamesUnknown, plain, unknown_among, unknown_in, unknown_of};
ghost use Rattle.dlx_reader.specs.declared.fault.ReadFault.TheVariants.{Memory};

use crate::fault::ReadFault;
use crate::lines::{Line, Lines};
use crate::names::Names;
use crate::options::{KeptOptions, KeptParts, LineItems};
use crate::short_name::ShortName;
use crate::text_fault::{TextFault, UnknownName};
use crate::words::{begins_with_bar, split_colour, split_word};
use cover_problem::{MOST_BYTES, MOST_ITEMS, Problem};
use std::alloc::Global;

/// For how many items of an option room is made at first: as many as the least block of the C library's allocator
/// holds.
const USUAL_ITEMS: usize = 12;

/// Whether a byte stands in it that is in no name.
fn has_illegal(name: &[u8]) -> bool
    ensures { result ≡ list_any is_illegal name.now }
{
    name.iter().any(|byte| matches!(*byte, 0 | b':' | b'|'))
}

/// Tests the bytes of a name, and how many there are.
fn test_name(name: &[u8], line: usize) -> Result<(), ReadFault>
    ensures gives { Gives (λ _. name.now) result (after (name_tests line name.now) name.now) }
    ensures other { IfErr result IsOther }
{
    if has_illegal(name) {
        return Err(ReadFault::IllegalByte(line));
    }
    if name.len() > MOST_BYTES {
        return Err(ReadFault::NameTooLong(line));
    }
    Ok(())
}

/// The name that a word of the item line gives.
fn name_part(word: &[u8]) -> &[u8]
    ensures { result.now ≡ name_part word.now }
{
    match word {
        [b'|', name @ ..] => name,
        _ => word,
    }
}

/// Reads a further word of the item line.
#[tactic(auto, unfolding(crate::specs::Reading::item_at))]
fn read_item<'a>(
    alloc: Global,
    names: &mut Names<'a>,
    divided: &mut bool,
    word: &'a [u8],
    line: usize,
) -> Result<(), ReadFault>
    requires { length names.old ≤ MOST_ITEMS }
    ensures gives { Gives (λ _. (names.new, divided.new)) result
        (item_at line names.old divided.old word.now) }
    ensures other { IfErr result IsOther }
    ensures few { length names.new ≤ MOST_ITEMS }
{
    let name = name_part(word);
    test_name(name, line)?;
    if names.contains(name) {
        return Err(ReadFault::DuplicateItem(line));
    }
    if begins_with_bar(word) {
        if *divided {
            return Err(ReadFault::SecondBar(line));
        }
        *divided = true;
    }
    if name.is_empty() {
        return Ok(());
    }
    if names.len() == MOST_ITEMS {
        return Err(ReadFault::TooManyItems(line));
    }
    names.push(alloc, name)?;
    Ok(())
}

/// Reads the words of the item line.
#[tactic(auto, unfolding(crate::specs::Reading::items_from))]
fn read_items<'a>(alloc: Global, line: Line<'a>) -> Result<Names<'a>, ReadFault>
    ensures gives { Gives (λ names. names) result
        (items_from line.entry.number [] false (words_of line.entry.text.now)) }
    ensures other { IfErr result IsOther }
{
    let mut names = Names::new(alloc);
    let mut divided = false;
    let mut left = line.text;
    while let Some((word, rest)) = split_word(left) {
        read_item(alloc, &mut names, &mut divided, word, line.number)?;
        left = rest;
    }
    Ok(names)
}

/// How many of the words of a line stand before the separator.
fn primary_in(line: &[u8]) -> usize
    ensures { result ≡ primary_in (words_of line.now) }
{
    let mut place = 0;
    let mut left = line;
    while let Some((word, rest)) = split_word(left) {
        if begins_with_bar(word) {
            return place;
        }
        place += 1;
        left = rest;
    }
    place
}

/// Whether nothing stands before a colon or behind it, or too much behind it.
fn is_bad_colour(name: &[u8], colour: Option<&[u8]>) -> bool
    ensures { result ≡ is_bad_colour (is_some colour.entry) name.now (bytes_in colour.entry) }
{
    match colour {
        None => false,
        Some(colour) => name.is_empty() || colour.is_empty() || colour.len() > MOST_BYTES,
    }
}

/// Tests the parts of an option's word: the name of the item, and that of the colour behind the colon, if there is one.
fn test_parts(name: &[u8], colour: Option<&[u8]>, line: usize) -> Result<(), ReadFault>
    ensures gives { Gives (λ _. name.now) result
        (after (part_tests line (is_some colour.entry) name.now (bytes_in colour.entry)) name.now) }
    ensures other { IfErr result IsOther }
    ensures short { OnOk result (length name.now ≤ MOST_BYTES) }
{
    if has_illegal(name) || has_illegal(colour.unwrap_or(&[])) {
        return Err(ReadFault::IllegalByte(line));
    }
    if name.len() > MOST_BYTES {
        return Err(ReadFault::NameTooLong(line));
    }
    if is_bad_colour(name, colour) {
        return Err(ReadFault::BadColour(line));
    }
    Ok(())
}

/// Reads the name of the item in an option's word, and whether a colour's stands behind it. A word is looked through a
/// second time only where it has a colon, or a byte that is in no name.
fn read_parts(word: &[u8], line: usize) -> Result<(&[u8], bool), ReadFault>
    ensures name { Gives (λ parts. parts.0.now) result
        (after (part_tests line (has_colon word.now) (item_part word.now) (colour_part word.now))
        (item_part word.now)) }
    ensures other { IfErr result IsOther }
    ensures short { IfOk result (λ parts. length parts.0.now ≤ MOST_BYTES) }
    ensures colon { IfOk result (λ parts. parts.1 ≡ has_colon word.now) }
{
    if has_illegal(word) {
        let (name, colour) = split_colour(word);
        test_parts(name, colour, line)?;
        return Ok((name, colour.is_some()));
    }
    if word.len() > MOST_BYTES {
        return Err(ReadFault::NameTooLong(line));
    }
    Ok((word, false))
}

/// Whether an item is among others, all of which are below the bound: where options name items in their order, the
/// bound alone decides.
fn is_among(items: &[u16], bound: usize, item: u16) -> bool
    requires { All (λ i. i < bound) items.now }
    ensures { result ≡ is_in items.now item }
{
    usize::from(item) < bound && items.contains(&item)
}

/// Reads a further word of an option, and answers whether it has a colour. All items of the option are below the bound.
#[tactic(auto, unfolding(crate::specs::Reading::option_item_at), using(crate::proofs::Unknowns::unknown_alone, crate::proofs::Unknowns::known_alone))]
fn read_option_item(
    names: &Names,
    primary: usize,
    items: &mut Vec<u16>,
    bound: &mut usize,
    word: &[u8],
    line: usize,
) -> Result<bool, TextFault>
    requires below { All (λ i. i < bound.old) items.old.items }
    ensures below { OnOk result (All (λ i. i < bound.new) items.new.items) }
    ensures gives { GivesPlain (λ _. items.new.items) result
        (option_item_at line names.now primary items.old.items word.now) }
    ensures unknown { IfErr result (NamesUnknown
        (IsFirstName (unknown_in names.now (word.now ∷ [])))) }
    ensures known { OnOk result (unknown_in names.now (word.now ∷ []) ≡ []) }
    ensures colon { IfOk result (λ colon. colon ≡ has_colon word.now) }
    ensures one { OnOk result (length items.new.items ≡ length items.old.items + 1) }
{
    let (name, has_colour) = read_parts(word, line)?;
    let next = items.last().map_or(0, |item| usize::from(*item) + 1);
    let Some(item) = names.item_named_near(next, name) else {
        let name = ShortName::of(name);
        return Err(TextFault::UnknownItem(UnknownName { line, name }));
    };
    if is_among(items, *bound, item) {
        return Err(TextFault::Other(ReadFault::DuplicateInOption(line)));
    }
    if has_colour && usize::from(item) < primary {
        return Err(TextFault::Other(ReadFault::ColourOnPrimary(line)));
    }
    items.push(item)?;
    *bound = usize::from(item + 1).max(*bound);
    Ok(has_colour)
}

/// Reads the words of an option.
#[tactic(auto, unfolding(crate::specs::Reading::option_from), using(crate::proofs::Unknowns::fault_of_word, crate::proofs::Unknowns::known_word))]
fn read_option(
    alloc: Global,
    names: &Names,
    primary: usize,
    line: Line,
) -> Result<LineItems, TextFault>
    ensures gives { GivesPlain (λ read. read.items.items) result
        (option_from line.entry.number names.now primary [] (words_of line.entry.text.now)) }
    ensures unknown { IfErr result (NamesUnknown
        (IsFirstName (unknown_in names.now (words_of line.entry.text.now)))) }
    ensures known { OnOk result (unknown_in names.now (words_of line.entry.text.now) ≡ []) }
    ensures of { IfOk result (λ read. AreItemsOf (words_of line.entry.text.now) read) }
{
    let mut items = Vec::with_capacity(alloc, USUAL_ITEMS)?;
    let mut bound = 0;
    let mut has_colours = false;
    let mut left = line.text;
    while let Some((word, rest)) = split_word(left) {
        if read_option_item(names, primary, &mut items, &mut bound, word, line.number)? {
            has_colours = true;
        }
        left = rest;
    }
    Ok(LineItems { items, has_colours })
}

/// Reads an option's line, and keeps the option or counts it as ignored.
#[tactic(auto, unfolding(crate::specs::Reading::option_at))]
fn read_option_line<'a>(
    alloc: Global,
    names: &Names,
    primary: usize,
    kept: &mut KeptOptions<'a>,
    line: Line<'a>,
) -> Result<(), TextFault>
    requires ignored { kept.old.ignored < line.number }
    ensures gives { GivesPlain (λ _. kept.new) result
        (option_at names.now primary kept.old (line_of line.entry)) }
    ensures unknown { IfErr result (NamesUnknown
        (IsFirstName (unknown_in names.now (words_of line.entry.text.now)))) }
    ensures known { OnOk result (unknown_in names.now (words_of line.entry.text.now) ≡ []) }
    ensures ignored { kept.new.ignored ≤ kept.old.ignored + 1 }
{
    let read = read_option(alloc, names, primary, line)?;
    kept.keep(alloc, primary, read, line)?;
    Ok(())
}

/// Reads the lines of options: those that say something, of the lines that are left.
#[tactic(auto, unfolding(crate::specs::Reading::options_from), using(crate::proofs::Unknowns::fault_of_line, crate::proofs::Unknowns::known_line))]
fn read_options<'a>(
    alloc: Global,
    names: &Names,
    primary: usize,
    mut lines: Lines<'a>,
) -> Result<KeptOptions<'a>, TextFault>
    ensures gives { GivesPlain (λ kept. kept) result
        (options_from names.now primary none_kept (content_left lines.entry)) }
    ensures unknown { IfErr result (NamesUnknown
        (IsFirstName (unknown_among names.now (content_left lines.entry)))) }
{
    let mut kept = KeptOptions::new(alloc);
    while let Some(line) = lines.take_content() {
        read_option_line(alloc, names, primary, &mut kept, line)?;
    }
    Ok(kept)
}

/// What is read in a text.
#[derive(Drop)]
pub struct Read {
    /// The problem of the text.
    pub problem: Problem,
    /// How many options were ignored, since none of their items is primary.
    pub ignored: usize,
}

/// Reads the item line, and the lines that are left behind it.
#[tactic(auto, unfolding(crate::specs::Reading::reading_of))]
fn read_content(alloc: Global, items: Line, others: Lines) -> Result<Read, TextFault>
    requires content { is_content (words_of items.text.now) ≡ true }
    requires words { list_all is_word (words_of items.text.now) ≡ true }
    requires others { list_all (λ line. list_all is_word line.1) (content_left others) ≡ true }
    ensures gives { GivesPlain (λ read. read_by read.problem read.ignored) result
        (reading_of (line_of items.entry ∷ content_left others.entry)) }
    ensures unknown { IfErr result (NamesUnknown
        (IsFirstName (unknown_of (line_of items.entry ∷ content_left others.entry)))) }
{
    let names = read_items(alloc, items)?;
    let primary = primary_in(items.text);
    let kept = read_options(alloc, &names, primary, others)?;
    let ignored = kept.ignored();
    let KeptParts {
        options,
        colours,
        colour_names,
    } = kept.into_parts();
    let names = names.into_list();
    Ok(Read {
        // (no test of its rules at run time: that what was read keeps them is proved)
        problem: Problem::from_parts(names, primary, options, colours, colour_names),
        ignored,
    })
}

/// Reads the lines of a text.
#[tactic(auto, unfolding(crate::specs::Reading::reading_of))]
fn read_lines(alloc: Global, text: &[u8]) -> Result<Read, TextFault>
    ensures gives { GivesPlain (λ read. read_by read.problem read.ignored) result
        (reading_of (content_of text.now)) }
    ensures unknown { IfErr result (NamesUnknown
        (IsFirstName (unknown_of (content_of text.now)))) }
{
    let mut lines = Lines::of(text);
    let Some(items) = lines.take_content() else {
        return Err(TextFault::Other(ReadFault::NoItems));
    };
    read_content(alloc, items, lines)
}

/// Reads a problem in the general form of the inputs of Knuth's programs DLX1 and DLX2.
///
/// A line ends at byte 10 or at the end of the text; words are divided by the bytes 9, 11, 12, 13 and 32. Blank lines,
/// and lines whose first word begins with `|`, are skipped. The first other line names the items, of which those behind
/// a word that begins with `|` are secondary. Each later line is an option, a list of different names of items; behind
/// that of a secondary item a `:` and the name of a colour may stand. Options without a primary item are ignored, and
/// counted.
///
/// An error other than out of memory is the first fault of the text in reading order, with its line counted from 1. One
/// that no item has a name comes with the name: the first in the lines of options that no item has. Beside the text it
/// takes memory of the order of the problem, whatever else the text has.
pub fn read_text(alloc: Global, text: &[u8]) -> Result<Read, TextFault>
    ensures problem { IfOk result (λ read. IsProblemOf text.now read.problem read.ignored) }

    // A text that has a problem is refused only where memory runs out.
    ensures refused { IfErr result (λ e. plain e ≢ Memory → HasNoProblem text.now) }
    ensures fault { IfErr result (λ e. plain e ≢ Memory → first_fault text.now ≡ Some (plain e)) }
    ensures unknown { IfErr result (NamesUnknown
        (IsFirstName (unknown_of (content_of text.now)))) }
{
    read_lines(alloc, text)
}

/// Reads a problem as `read_text` does, which the program calls. The error doesn't have the name that no item has.
pub fn read_problem(alloc: Global, text: &[u8]) -> Result<Read, ReadFault>
    ensures problem { IfOk result (λ read. IsProblemOf text.now read.problem read.ignored) }
    ensures refused { IfErr result (λ e. e ≢ Memory → HasNoProblem text.now) }
    ensures fault { IfErr result (λ e. e ≢ Memory → first_fault text.now ≡ Some e) }
{
    Ok(read_text(alloc, text)?)
}
