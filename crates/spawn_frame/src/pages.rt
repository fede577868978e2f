//! Pages of own children, and what stands in them.

ghost use Rattle.std.specs.Prelude.{◌≡◌, ◌+◌, ◌*◌, ◌<◌, ◌≤◌, ◌++◌, ◌^◌, length, map, IsOk, OnErr, OnOk};
ghost use Rattle.std.specs.List.{count_by};
ghost use Rattle.spawn_frame.specs.Pages.{in_pages, AreFilled};
ghost use Rattle.spawn_frame.specs.Tables.{longer_prefixes};
ghost use Rattle.spawn_frame.specs.Works.{fresh_child, is_wanted, last_wanted};

use crate::building::new_child;
use crate::child::Child;
use crate::ghost_prefix::GhostPrefix;
use crate::page::{PAGE, Page};
use crate::unit::Unit;
use crate::wanted::Wanted;
use std::alloc::{AllocError, Global};

/// Makes sure that there are so many pages at least; those that are there stay, and new ones have no children. The only
/// error is out of memory.
pub fn add_pages(alloc: Global, pages: &mut Vec<Page>, end: usize) -> Result<(), AllocError>
    requires { AreFilled pages.old.items }
    ensures filled { AreFilled pages.new.items }
    ensures kept { in_pages pages.new.items ≡ in_pages pages.old.items }
    ensures room { OnOk result (end ≤ length pages.new.items) }
    ensures within { end ≤ length pages.old.items → IsOk result }
{
    for _page in pages.len()..end {
        pages.push(Page::new(alloc)?)?;
    }
    Ok(())
}

/// Puts the children of a unit behind those that are there: for each option one with this prefix and the option. There
/// are pages for them.
pub fn push_children(
    pages: &mut [Page],
    first: usize,
    unit: Unit,
    path: &GhostPrefix,
    options: &[u16],
)
    requires filled { AreFilled pages.old }
    requires first { first ≡ length (in_pages pages.old) }
    requires room { first + length options.now ≤ length pages.old * 256 }
    requires small { first + length options.now < 2 ^ 32 }
    ensures filled { AreFilled pages.new }
    ensures children { in_pages pages.new ≡ in_pages pages.old
        ++ map (fresh_child unit) (longer_prefixes path.now.options options.now) }
{
    for (place, option) in options.iter().enumerate() {
        pages[(first + place) / PAGE].push(new_child(unit, path, *option));
    }
}

/// The own child of greatest serial that is wanted. It costs a look at each page, and a pass through the page that has
/// it.
pub fn last_in_pages(pages: &[Page], wanted: Wanted) -> Option<Unit>
    requires small { length (in_pages pages.now) < 2 ^ 32 }
    requires filled { AreFilled pages.now }
    ensures { result ≡ last_wanted wanted 0 (in_pages pages.now) }
{
    let count = pages.len();
    for behind in 0..count {
        let number = count - 1 - behind;
        let page = &pages[number];
        if page.has(wanted) {
            let found = last_child(page.as_slice(), first_of(number), wanted);
            // (always so: the kinds of a page say that it has one)
            if found.is_some() {
                return found;
            }
        }
    }
    None
}

/// How many own children are wanted. It costs a look at each page, and passes through the pages that have such a child.
pub fn count_in_pages(pages: &[Page], wanted: Wanted) -> usize
    requires { length (in_pages pages.now) < 2 ^ 32 }
    ensures { result ≡ count_by (λ c. is_wanted wanted c.work) (in_pages pages.now) }
{
    let mut count = 0;
    for page in pages {
        if page.has(wanted) {
            count += count_wanted(page.as_slice(), wanted);
        }
    }
    count
}

/// How many of these children are wanted.
fn count_wanted(children: &[Child], wanted: Wanted) -> usize
    ensures { result ≡ count_by (λ c. is_wanted wanted c.work) children.now }
{
    children
        .iter()
        .filter(|child| child.work.is_wanted(wanted))
        .count()
}

/// The one of greatest serial that is wanted among these children, the first of which has this serial.
fn last_child(children: &[Child], first: u32, wanted: Wanted) -> Option<Unit>
    requires { first + length children.now ≤ 2 ^ 32 }
    ensures { result ≡ last_wanted wanted first children.now }
{
    let mut last = None;
    for (place, child) in children.iter().enumerate() {
        if child.work.is_wanted(wanted) {
            last = Some(Unit::Own(first + place as u32));
        }
    }
    last
}

/// The serial of the first child of a page.
pub fn first_of(page: usize) -> u32
    requires { page * 256 < 2 ^ 32 }
    ensures { result ≡ page * 256 }
{
    (page * PAGE) as u32
}
