//! The next own child that is wanted, from some serial on.

ghost use Rattle.std.specs.Prelude.{◌≡◌, ◌+◌, ◌*◌, ◌<◌, ◌≤◌, ◌^◌, drop, length};
ghost use Rattle.spawn_frame.specs.Pages.{in_pages, next_wanted, AreFilled};

use crate::child::Child;
use crate::page::{PAGE, Page};
use crate::pages::first_of;
use crate::wanted::Wanted;

/// The own child of least serial from this one on, which is there, that is wanted. It costs a look at each page behind,
/// and passes through two pages at most.
pub fn next_in_pages(pages: &[Page], wanted: Wanted, from: u32) -> Option<u32>
    requires small { length (in_pages pages.now) < 2 ^ 32 }
    requires filled { AreFilled pages.now }
    requires there { from < length (in_pages pages.now) }
    ensures { result ≡ next_wanted wanted from (drop from (in_pages pages.now)) }
{
    let number = from as usize / PAGE;
    let children = pages[number].as_slice();
    let found = next_child(&children[from as usize % PAGE..], from, wanted);
    if found.is_some() {
        return found;
    }
    next_in_later(pages, wanted, number + 1)
}

/// The one of least serial that is wanted of the children in this page and behind it.
fn next_in_later(pages: &[Page], wanted: Wanted, first: usize) -> Option<u32>
    requires small { length (in_pages pages.now) < 2 ^ 32 }
    requires filled { AreFilled pages.now }
    ensures { result ≡ next_wanted wanted (first * 256) (drop (first * 256) (in_pages pages.now)) }
{
    for number in first..pages.len() {
        let page = &pages[number];
        if page.has(wanted) {
            let found = next_child(page.as_slice(), first_of(number), wanted);
            if found.is_some() {
                return found;
            }
        }
    }
    None
}

/// The one of least serial that is wanted among these children, the first of which has this serial.
fn next_child(children: &[Child], first: u32, wanted: Wanted) -> Option<u32>
    requires { first + length children.now ≤ 2 ^ 32 }
    ensures { result ≡ next_wanted wanted first children.now }
{
    for (place, child) in children.iter().enumerate() {
        if child.work.is_wanted(wanted) {
            return Some(first + place as u32);
        }
    }
    None
}
