//! The items whose options are tried.
//!
//! A choice excludes the more options, the more items it names. So those items come first whose shortest option is
//! longest, such as the large pieces of a board among dominoes; of equal ones those with fewer options. The search for
//! a cover takes items with few options first, and reaches such pieces last.

use cover_problem::Problem;
use problem_copies::nodes_of;
use std::alloc::{AllocError, Global};

/// How many items are tried at most. Each of them costs a search for a reason, with its shortest option, also where
/// there are no cases. On boards with odd pieces the first item has cases; none of the other problems that were looked
/// at had any behind its fourth.
const MOST_ITEMS_TRIED: usize = 4;

/// How many nodes (items of options, all together) the problem may have for one item to be tried; half as many for two,
/// and so on. In larger problems, such as quasigroups of 30 and full timetables of a school, one search for a reason
/// takes seconds, and none had cases. It doesn't bound what follows once an item is promising: a reason is looked for
/// with each of its other options.
const MOST_NODES_TRIED: usize = 20_000;

/// The options of an item.
#[derive(Clone, Copy)]
struct Prospect {
    /// How many items the shortest one names.
    shortest: usize,
    /// How many there are.
    count: usize,
}

/// Notes an option with each primary item that it names.
fn note(prospects: &mut [Prospect], items: &[u16]) {
    for item in items {
        if let Some(prospect) = prospects.get_mut(*item as usize) {
            prospect.shortest = prospect.shortest.min(items.len());
            prospect.count = prospect.count.saturating_add(1);
        }
    }
}

/// Of each primary item its options; the only error is out of memory.
fn prospects(alloc: Global, problem: &Problem) -> Result<Vec<Prospect>, AllocError> {
    let none = Prospect {
        shortest: usize::MAX,
        count: 0,
    };
    let mut prospects = vec![in alloc; none; problem.primary()]?;
    for option in 0..problem.options() as u16 {
        note(&mut prospects, problem.option(option));
    }
    Ok(prospects)
}

/// The items that are tried, the most promising first. The only error is out of memory.
pub(crate) fn items_to_try(alloc: Global, problem: &Problem) -> Result<Vec<u16>, AllocError> {
    let prospects = prospects(alloc, problem)?;
    let mut items = Vec::with_capacity(alloc, problem.primary())?;
    for item in 0..problem.primary() as u16 {
        items.push(item)?;
    }
    // (that with the longest first; an item without options would come before all, but then there is a reason without
    // cases)
    items.sort_by_key(|item| match prospects.get(*item as usize) {
        Some(prospect) => (usize::MAX.saturating_sub(prospect.shortest), prospect.count),
        None => (usize::MAX, 0),
    })?;
    items.truncate(MOST_ITEMS_TRIED.min(MOST_NODES_TRIED / nodes_of(problem).max(1)));
    Ok(items)
}

/// The shortest option that names the item.
pub(crate) fn shortest_of(problem: &Problem, item: u16) -> Option<u16> {
    (0..problem.options() as u16)
        .filter(|option| problem.option(*option).contains(&item))
        .min_by_key(|option| problem.option(*option).len())
}
