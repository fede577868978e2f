//! Which of the two searches is thought to be the faster one. No clause speaks of it, since both meet the same
//! contract.
//!
//! Each is many times as fast as the other on some problems: dancing links where a choice takes few options away, sets
//! of live options where items are few and each choice bars many. Each option weighs as much as it bars. In a plain
//! average hundreds of easy items hide a hard core, and a few items to which all dominoes of a board give one colour
//! send the board to sets; with the wrong search both take several times as long. (`bench/searches.py` has both on each
//! of its problems.)

use cover_problem::Problem;
use std::alloc::{AllocError, Global};

/// What the options that name one item bar of each other by it.
#[derive(Clone, Copy, Debug)]
struct Row {
    /// How many options name it.
    options: u64,
    /// How many names these have together.
    names: u64,
    /// How many pairs of them give it one and the same colour, so that neither bars the other by it. An option is a
    /// pair with itself, too.
    agreeing: u64,
    /// How many names the second options of these pairs have together.
    agreeing_names: u64,
}

impl Row {
    const EMPTY: Row = Row {
        options: 0,
        names: 0,
        agreeing: 0,
        agreeing_names: 0,
    };

    /// One more option of so many names.
    fn add(&mut self, names: u64) {
        // (nothing is proved of the estimate, so sums saturate here and no contract has to bound them)
        self.options = self.options.saturating_add(1);
        self.names = self.names.saturating_add(names);
    }

    /// So many options of so many names in all give the item one colour.
    fn add_colour(&mut self, options: u64, names: u64) {
        self.agreeing = self
            .agreeing
            .saturating_add(options.saturating_mul(options));
        self.agreeing_names = self
            .agreeing_names
            .saturating_add(options.saturating_mul(names));
    }

    /// How many options a choice bars by this item, on average over those that name it.
    fn barred(&self) -> u64 {
        let pairs = self.options.saturating_mul(self.options);
        pairs.saturating_sub(self.agreeing) / self.options.max(1)
    }

    /// How many names these have together, on average.
    fn barred_names(&self) -> u64 {
        let pairs = self.options.saturating_mul(self.names);
        pairs.saturating_sub(self.agreeing_names) / self.options.max(1)
    }
}

/// Whether a search by links is thought to be faster than one over sets of live options; the only error is out of
/// memory.
///
/// By links a choice takes each name in an option that it bars out of its column; over sets it counts the words of the
/// rows of the primary items, unless these are few. A name takes about as long as a word, so links suit where a choice
/// takes out fewer names than there are words to count. Most choices of a long search are made where options bar many
/// others, so each option weighs as much as it bars: by an average over all options many that bar nothing would hide a
/// few hundred that are hard to choose from.
pub fn suits_links(alloc: Global, problem: &Problem) -> Result<bool, AllocError> {
    let mut rows = rows_of(alloc, problem)?;
    if are_few(&rows, problem.primary()) {
        return Ok(false);
    }
    add_colours(&mut rows, &coloured_names(alloc, problem)?);
    let (weight, taken_out) = weighed(problem, &rows);
    // (a row has at most one word for each of its options, and never more than a set has)
    let most = problem.options() as u64 / 64 + 1;
    let words = rows
        .iter()
        .take(problem.primary())
        .fold(0u64, |sum, row| sum.saturating_add(row.options.min(most)));
    Ok(taken_out < words.saturating_mul(weight))
}

/// Whether there are so few primary items, with so few options each, that a search over sets counts digit by digit: as
/// `most_options` of live_sets has it. Where it counts word by word, links may be many times as fast.
fn are_few(rows: &[Row], primary: usize) -> bool {
    let most = if primary > 64 { 127 } else { 255 };
    primary <= 128 && rows.iter().take(primary).all(|row| row.options <= most)
}

/// The row of each item, without colours.
fn rows_of(alloc: Global, problem: &Problem) -> Result<Vec<Row>, AllocError> {
    let mut rows = vec![in alloc; Row::EMPTY; problem.items()]?;
    for option in 0..problem.options() as u16 {
        add_option(problem.option(option), &mut rows);
    }
    Ok(rows)
}

/// Counts an option in the rows of the items that it names.
fn add_option(items: &[u16], rows: &mut [Row]) {
    let names = items.len() as u64;
    for item in items {
        if let Some(row) = rows.get_mut(usize::from(*item)) {
            row.add(names);
        }
    }
}

/// A colour that an option gives an item, with the number of the option's names, in one number that sorts by item and
/// colour.
fn coloured_name(item: u16, colour: u16, names: usize) -> u64 {
    u64::from(item) << 32 | u64::from(colour) << 16 | names.min(65535) as u64
}

/// All colours that options give their items, sorted by item and colour.
fn coloured_names(alloc: Global, problem: &Problem) -> Result<Vec<u64>, AllocError> {
    let mut all = Vec::new(alloc);
    if problem.colour_names() == 0 {
        return Ok(all);
    }
    for option in 0..problem.options() as u16 {
        push_colours(problem.option(option), problem.colours(option), &mut all)?;
    }
    // (equal numbers look the same, so their order is free, and this sort takes no memory)
    all.sort_unstable();
    Ok(all)
}

/// Adds the colours of one option.
fn push_colours(items: &[u16], colours: &[u16], all: &mut Vec<u64>) -> Result<(), AllocError> {
    for (item, colour) in items.iter().zip(colours.iter()) {
        if *colour > 0 {
            all.push(coloured_name(*item, *colour, items.len()))?;
        }
    }
    Ok(())
}

/// Adds to the rows how many options agree.
fn add_colours(rows: &mut [Row], sorted: &[u64]) {
    let mut options = 0u64;
    let mut names = 0u64;
    for (place, coloured) in sorted.iter().enumerate() {
        options = options.saturating_add(1);
        names = names.saturating_add(*coloured & 65535);
        let next = sorted.get(place.saturating_add(1));
        if next.is_some_and(|other| *other >> 16 == *coloured >> 16) {
            continue;
        }
        if let Some(row) = rows.get_mut((*coloured >> 32) as usize) {
            row.add_colour(options, names);
        }
        options = 0;
        names = 0;
    }
}

/// How many options all choices bar, each once, and how many names these take out, each as often as its choice bars
/// options.
fn weighed(problem: &Problem, rows: &[Row]) -> (u64, u64) {
    let all = rows
        .iter()
        .fold(0u64, |sum, row| sum.saturating_add(row.options));
    let mut weight = 0u64;
    let mut taken_out = 0u64;
    for option in 0..problem.options() as u16 {
        let (barred, names) = taken_by(problem.option(option), rows);
        weight = weight.saturating_add(barred);
        // (an option that is barred by several items is counted with each, but no more names than all can leave)
        taken_out = taken_out.saturating_add(barred.saturating_mul(names.min(all)));
    }
    (weight, taken_out)
}

/// About how many options the choice of one with these items bars, and how many names that takes out.
fn taken_by(items: &[u16], rows: &[Row]) -> (u64, u64) {
    items
        .iter()
        .filter_map(|item| rows.get(usize::from(*item)))
        .fold((0, 0), |(barred, names), row| {
            (
                u64::saturating_add(barred, row.barred()),
                u64::saturating_add(names, row.barred_names()),
            )
        })
}
