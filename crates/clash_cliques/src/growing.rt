//! The search for cliques.
//!
//! Integer programming calls them clique inequalities of the conflict graph (Padberg): of options that clash by twos at
//! most one is chosen. The options of an item are such a clique already; each is grown to a larger one, greedily, since
//! largest cliques are hard to find.

ghost use Rattle.std.specs.Prelude.{◌≡◌, ◌<◌, length};

use crate::clashes::Clashes;
use crate::clique::Clique;
use crate::growth::Growth;
use crate::testing::has_name;
use cover_problem::{MOST_ITEMS, Name, Numbers, Problem};
use cover_reasons::ReasonWatch;
use itoa::Buffer;
use problem_copies::nodes_of;
use std::alloc::{AllocError, Global};

/// How many words of sets are looked at, some hundredths of a second. Chosen for that time.
const MOST_STEPS: usize = 20_000_000;

/// How many cliques are kept: each is a further item, of which a problem has at most 1,000. Chosen, not measured.
const MOST_CLIQUES: usize = 200;

/// How many items of options are copied for them, all copies of the problem together: some hundredths of a second.
const MOST_COPIED: usize = 2_000_000;

/// The options that name each item and give it no colour; the only error is out of memory.
fn options_by_item(alloc: Global, problem: &Problem) -> Result<Vec<Vec<u16>>, AllocError> {
    let mut lists = Vec::with_capacity(alloc, problem.items())?;
    for _ in 0..problem.items() {
        lists.push(Vec::new(alloc))?;
    }
    for option in 0..problem.options() as u16 {
        list_option(&mut lists, problem, option)?;
    }
    Ok(lists)
}

/// Adds an option to the lists of the items to which it gives no colour.
fn list_option(lists: &mut [Vec<u16>], problem: &Problem, option: u16) -> Result<(), AllocError>
    requires { option < length problem.now.options }
{
    for (item, colour) in problem.option(option).iter().zip(problem.colours(option)) {
        let place = *item as usize;
        if place < lists.len() && *colour == 0 {
            lists[place].push(option)?;
        }
    }
    Ok(())
}

/// Whether one of the lists is this one.
fn has_list(lists: &[Vec<u16>], list: &[u16]) -> bool {
    lists.iter().any(|own| own.as_slice() == list)
}

/// Adds the grown clique to the list, unless it is there already, or some item has just its options.
fn keep(
    alloc: Global,
    growth: &mut Growth,
    seeds: &[Vec<u16>],
    found: &mut Vec<Vec<u16>>,
) -> Result<(), AllocError> {
    let list = growth.list(alloc)?;
    if has_list(seeds, &list) || has_list(found, &list) {
        return Ok(());
    }
    found.push(list)?;
    Ok(())
}

/// Cliques that begin with the options of an item and have more than these, the largest first. The only error is out of
/// memory.
fn grown_cliques<W: ReasonWatch>(
    alloc: Global,
    problem: &Problem,
    watch: &mut W,
) -> Result<Vec<Vec<u16>>, AllocError> {
    let clashes = Clashes::new(alloc, problem, watch)?;
    let seeds = options_by_item(alloc, problem)?;
    let mut growth = Growth::new(alloc, problem)?;
    let mut found = Vec::new(alloc);
    for seed in &seeds {
        if growth.steps() > MOST_STEPS || watch.look() {
            break;
        }
        if seed.len() > 1 && growth.grow(&clashes, seed, watch) {
            keep(alloc, &mut growth, &seeds, &mut found)?;
        }
    }
    found.sort_by_key(|list| usize::MAX - list.len())?;
    Ok(found)
}

/// The name `clique` with this number behind it; the only error is out of memory.
fn name_by(alloc: Global, number: u32) -> Result<Name, AllocError> {
    let mut bytes = Vec::from_slice(alloc, b"clique")?;
    let mut digits = Buffer::new();
    bytes.extend_from_slice(digits.format(number).as_bytes())?;
    Ok(Name::from_vec(bytes))
}

/// The first number, from this one, whose name no item has.
fn free_number(alloc: Global, problem: &Problem, from: u32) -> Result<u32, AllocError> {
    let mut number = from;
    for _ in 0..problem.items() {
        if !has_name(problem, name_by(alloc, number)?.as_slice()) {
            break;
        }
        number = number.saturating_add(1);
    }
    Ok(number)
}

/// For how many cliques there is room and time.
fn most_cliques(problem: &Problem) -> usize {
    let copies = MOST_COPIED / nodes_of(problem).max(1);
    let room = MOST_ITEMS.saturating_sub(problem.items());
    MOST_CLIQUES.min(copies).min(room)
}

/// Names the first cliques, so many at most, until the watch ends that.
fn named<W: ReasonWatch>(
    alloc: Global,
    problem: &Problem,
    lists: Vec<Vec<u16>>,
    most: usize,
    watch: &mut W,
) -> Result<Vec<Clique>, AllocError> {
    let mut cliques = Vec::with_capacity(alloc, lists.len().min(most))?;
    let mut number: u32 = 0;
    for list in lists {
        if cliques.len() >= most || watch.look() {
            break;
        }
        number = free_number(alloc, problem, number.saturating_add(1))?;
        let name = name_by(alloc, number)?;
        let options = Numbers::from_vec(list);
        cliques.push(Clique { name, options })?;
    }
    Ok(cliques)
}

/// Cliques that no item stands for: each begins with the options of an item and grows by options that clash with all of
/// it, that one first which clashes with most others of these. The largest come first, 200 at most, no more than items
/// can be added, and as many as copies of the problem with 2,000,000 items of options in all.
///
/// Where options are many there are none: it looks at some 20,000,000 words of sets at most, of 64 options each, and
/// takes memory of the order of the square of the options. The only error is out of memory.
pub fn find_cliques<W: ReasonWatch>(
    alloc: Global,
    problem: &Problem,
    watch: &mut W,
) -> Result<Vec<Clique>, AllocError> {
    let words = problem.options() / 64 + 1;
    if watch.look() || nodes_of(problem).saturating_mul(words) > MOST_STEPS / 4 {
        return Ok(Vec::new(alloc));
    }
    let lists = grown_cliques(alloc, problem, watch)?;
    named(alloc, problem, lists, most_cliques(problem), watch)
}
