//! The problem as two flat tables: the items of each option, and the options of each item.

ghost use Rattle.std.specs.Prelude.{◌<◌, length};

use crate::tables::{at, put};
use cover_problem::Problem;
use std::alloc::{AllocError, Global};

/// An item of an option, or an option of an item, with the colour that the option gives the item, 0 for none.
#[derive(Clone, Copy)]
pub struct Naming {
    /// The number of the item, or of the option.
    pub number: u16,
    pub colour: u16,
}

/// Rows of namings, one after the other.
#[derive(Drop)]
struct Rows {
    /// Where each row begins, and where the last one ends.
    firsts: Vec<u32>,
    namings: Vec<Naming>,
}

impl Rows {
    #[inline(always)]
    fn row(&self, number: u16) -> &[Naming] {
        let number = number as usize;
        let first = at(&self.firsts, number, 0) as usize;
        let end = at(&self.firsts, number + 1, 0) as usize;
        match self.namings.get(first..end) {
            Some(row) => row,
            None => &[],
        }
    }
}

/// The items of each option and the options of each item.
#[derive(Drop)]
pub struct Layout {
    options: u16,
    primary: u16,
    items_of: Rows,
    options_of: Rows,
}

impl Layout {
    /// The tables of a problem. The only error is out of memory.
    pub fn new(alloc: Global, problem: &Problem) -> Result<Layout, AllocError> {
        let items_of = item_rows(alloc, problem)?;
        let options_of = option_rows(alloc, problem, &items_of)?;
        Ok(Layout {
            options: problem.options() as u16,
            primary: problem.primary() as u16,
            items_of,
            options_of,
        })
    }

    /// Returns how many options there are.
    pub fn options(&self) -> u16 {
        self.options
    }

    /// Returns how many primary items there are.
    pub fn primary(&self) -> u16 {
        self.primary
    }

    /// Returns the items of an option.
    #[inline(always)]
    pub fn items_of(&self, option: u16) -> &[Naming] {
        self.items_of.row(option)
    }

    /// Returns the options of an item, in the order of the file.
    #[inline(always)]
    pub fn options_of(&self, item: u16) -> &[Naming] {
        self.options_of.row(item)
    }
}

/// Adds the items of an option to a row.
fn push_items(problem: &Problem, option: u16, namings: &mut Vec<Naming>) -> Result<(), AllocError>
    requires { option < length problem.now.options }
{
    let colours = problem.colours(option);
    for (place, item) in problem.option(option).iter().enumerate() {
        namings.push(Naming {
            number: *item,
            colour: at(colours, place, 0),
        })?;
    }
    Ok(())
}

/// Returns the number of elements of a list, which has fewer than 2^32.
fn count_of(namings: &[Naming]) -> u32 {
    match u32::try_from(namings.len()) {
        Ok(count) => count,
        Err(_) => u32::MAX,
    }
}

/// Returns the items of each option.
fn item_rows(alloc: Global, problem: &Problem) -> Result<Rows, AllocError> {
    let mut firsts = vec![in alloc; 0]?;
    let mut namings = Vec::new(alloc);
    for option in 0..problem.options() as u16 {
        push_items(problem, option, &mut namings)?;
        firsts.push(count_of(&namings))?;
    }
    Ok(Rows { firsts, namings })
}

/// Counts the options of each item into the place behind the item's own.
fn count_options(namings: &[Naming], counts: &mut [u32]) {
    for naming in namings {
        let place = naming.number as usize + 1;
        put(counts, place, at(counts, place, 0).wrapping_add(1));
    }
}

/// Makes of the counts the places where rows begin.
fn add_up(counts: &mut [u32]) {
    let mut sum = 0u32;
    for count in counts.iter_mut() {
        sum = sum.wrapping_add(*count);
        *count = sum;
    }
}

/// Puts an option at the next place of each of its items.
fn place_option(option: u16, items: &[Naming], next: &mut [u32], namings: &mut [Naming]) {
    for item in items {
        let place = at(next, item.number as usize, 0);
        let naming = Naming {
            number: option,
            colour: item.colour,
        };
        put(namings, place as usize, naming);
        put(next, item.number as usize, place.wrapping_add(1));
    }
}

/// Returns the options of each item, by counting: in linear time.
fn option_rows(alloc: Global, problem: &Problem, items_of: &Rows) -> Result<Rows, AllocError> {
    let nothing = Naming {
        number: 0,
        colour: 0,
    };
    let mut firsts = vec![in alloc; 0; problem.items() + 1]?;
    let mut namings = vec![in alloc; nothing; items_of.namings.len()]?;
    count_options(&items_of.namings, &mut firsts);
    add_up(&mut firsts);
    let mut next = firsts.clone()?;
    for option in 0..problem.options() as u16 {
        place_option(option, items_of.row(option), &mut next, &mut namings);
    }
    Ok(Rows { firsts, namings })
}
