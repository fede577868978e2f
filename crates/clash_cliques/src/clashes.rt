//! Which options clash, as sets.

ghost use Rattle.std.specs.Prelude.{◌≡◌, ◌<◌, length};

use cover_problem::Problem;
use cover_reasons::{Bits, ReasonWatch, looks_at};
use std::alloc::{AllocError, Global};

/// The options that name an item, and of these the ones that give it no colour.
#[derive(Drop)]
struct Naming {
    all: Bits,
    plain: Bits,
}

/// For each option the options with which it clashes, as far as no two colours are compared.
#[derive(Drop)]
pub(crate) struct Clashes {
    sets: Vec<Bits>,
}

/// So many items without an option; the only error is out of memory.
fn unnamed(alloc: Global, items: usize, options: usize) -> Result<Vec<Naming>, AllocError> {
    let mut namings = Vec::with_capacity(alloc, items)?;
    for _ in 0..items {
        let all = Bits::empty(alloc, options)?;
        let plain = Bits::empty(alloc, options)?;
        namings.push(Naming { all, plain })?;
    }
    Ok(namings)
}

/// Notes an option at its items.
fn note_option(namings: &mut [Naming], problem: &Problem, option: u16)
    requires { option < length problem.now.options }
{
    for (item, colour) in problem.option(option).iter().zip(problem.colours(option)) {
        let place = *item as usize;
        if place < namings.len() {
            namings[place].all.insert(option as usize);
            if *colour == 0 {
                namings[place].plain.insert(option as usize);
            }
        }
    }
}

/// The options with which an option clashes.
fn set_of(
    alloc: Global,
    problem: &Problem,
    namings: &[Naming],
    option: u16,
) -> Result<Bits, AllocError>
    requires { option < length problem.now.options }
{
    let mut set = Bits::empty(alloc, problem.options())?;
    for (item, colour) in problem.option(option).iter().zip(problem.colours(option)) {
        if let Some(naming) = namings.get(*item as usize) {
            // (two colours may be the same one)
            set.unite(if *colour == 0 {
                &naming.all
            } else {
                &naming.plain
            });
        }
    }
    set.remove(option as usize);
    Ok(set)
}

/// Where each item stands, as far as the watch doesn't end that; the only error is out of memory.
fn namings_of<W: ReasonWatch>(
    alloc: Global,
    problem: &Problem,
    watch: &mut W,
) -> Result<Vec<Naming>, AllocError> {
    let mut namings = unnamed(alloc, problem.items(), problem.options())?;
    for option in 0..problem.options() as u16 {
        if looks_at(option, watch) {
            break;
        }
        note_option(&mut namings, problem, option);
    }
    Ok(namings)
}

impl Clashes {
    /// The clashes of a problem's options, of its first ones where the watch ends that; the only error is out of
    /// memory.
    pub(crate) fn new<W: ReasonWatch>(
        alloc: Global,
        problem: &Problem,
        watch: &mut W,
    ) -> Result<Clashes, AllocError> {
        let namings = namings_of(alloc, problem, watch)?;
        let mut sets = Vec::with_capacity(alloc, problem.options())?;
        for option in 0..problem.options() as u16 {
            if looks_at(option, watch) {
                break;
            }
            sets.push(set_of(alloc, problem, &namings, option)?)?;
        }
        Ok(Clashes { sets })
    }

    /// The options with which an option clashes, if there is such an option.
    pub(crate) fn of(&self, option: usize) -> Option<&Bits> {
        self.sets.get(option)
    }
}
