//! Links of small problems, as scripts of calls; what is expected is worked out by hand from the options.

use super::texts::{LETTERS, problem_of};
use dancing_links::Links;
use std::alloc::{AllocError, Global};
use std::process::Abort;

/// A call of links, or what they show then.
enum Step {
    /// An option that is live is chosen.
    Choose(u16),
    /// The last choice is undone: this one.
    Undo(u16),
    /// The first uncovered primary item.
    First(Option<u16>),
    /// A letter for each option, x if it is live.
    Live(&'static str),
    /// Of each item how many live options it has, which, and the item after it; of one that is covered nothing.
    Items(&'static [&'static str]),
}

use self::Step::*;

/// How many live options an item has, which, and the item after it; of one that is covered nothing.
fn told(alloc: Global, links: &Links, item: u16) -> Result<String, AllocError> {
    if usize::from(item) >= links.problem().items() || links.is_covered(item) {
        return format!(in alloc; "");
    }
    let options: Vec<u16> = links.options_of(item).collect(alloc)?;
    let next = links.next_item(item);
    format!(in alloc; "{} {options:?} {next:?}", links.count(item))
}

/// Whether the links say this of an item.
fn tells<R: Abort>(rt: &R, alloc: Global, links: &Links, item: u16, expected: &str) -> bool {
    told(alloc, links, item).expect(rt, "memory").as_str() == expected
}

/// Whether the links say this of each item, from 0 on.
fn are_told<R: Abort>(rt: &R, alloc: Global, links: &Links, expected: &[&str]) -> bool {
    for (item, line) in (0..7u16).zip(expected) {
        if !tells(rt, alloc, links, item, line) {
            return false;
        }
    }
    links.problem().items() == expected.len()
}

/// Whether these options are live.
fn are_live<R: Abort>(rt: &R, alloc: Global, links: &Links, expected: &str) -> bool {
    let mut letters = String::new(alloc);
    for option in 0..links.problem().options() as u16 {
        let letter = if links.is_live(option) { 'x' } else { '-' };
        letters.push(letter).expect(rt, "memory");
    }
    letters.as_str() == expected
}

/// Chooses an option that is live.
pub fn choose<R: Abort>(rt: &R, links: &mut Links, option: u16) {
    assert!(rt; usize::from(option) < links.problem().options());
    assert!(rt; links.is_live(option));
    links.choose(option);
}

/// The last choice, which is undone.
fn undone<R: Abort>(rt: &R, links: &mut Links) -> u16 {
    assert!(rt; !links.chosen().is_empty());
    links.undo()
}

/// Whether a step goes as it says.
fn goes<R: Abort>(rt: &R, alloc: Global, links: &mut Links, step: &Step) -> bool {
    match *step {
        Choose(option) => {
            choose(rt, links, option);
            true
        }
        Undo(option) => undone(rt, links) == option,
        First(item) => links.first_item() == item,
        Live(expected) => are_live(rt, alloc, links, expected),
        Items(expected) => are_told(rt, alloc, links, expected),
    }
}

/// Takes these steps over the links of a problem.
fn run<R: Abort>(rt: &R, alloc: Global, text: &str, steps: &[Step]) {
    let problem = problem_of(rt, alloc, text);
    let mut links = Links::build(alloc, &problem).expect(rt, "memory");
    for (place, step) in steps.iter().enumerate() {
        assert!(rt; goes(rt, alloc, &mut links, step), "step {place}");
    }
}

const BUILT: &[&str] = &[
    "2 [1, 3] Some(1)",
    "2 [2, 4] Some(2)",
    "2 [0, 2] Some(3)",
    "3 [1, 3, 5] Some(4)",
    "2 [0, 5] Some(5)",
    "2 [2, 3] Some(6)",
    "3 [1, 4, 5] None",
];

static CHOICE: &[Step] = &[
    // All options.
    First(Some(0)),
    Live("xxxxxx"),
    Items(BUILT),
    // A choice covers its items.
    Choose(3),
    First(Some(1)),
    Live("x---x-"),
    Items(&[
        "",
        "1 [4] Some(2)",
        "1 [0] Some(4)",
        "",
        "1 [0] Some(6)",
        "",
        "1 [4] None",
    ]),
    // All is given back.
    Undo(3),
    First(Some(0)),
    Live("xxxxxx"),
    Items(BUILT),
];

#[test]
fn a_choice_covers_its_items_and_undo_gives_all_back(rt: HostRuntime) {
    run(&rt, rt.alloc(), LETTERS, CHOICE);
}

static SECONDARY: &[Step] = &[
    Items(&["1 [0] Some(1)", "1 [1] None", "2 [0, 1] None"]),
    Choose(0),
    Live("--"),
    Items(&["", "0 [] None", ""]),
];

#[test]
fn a_secondary_item_is_covered(rt: HostRuntime) {
    run(&rt, rt.alloc(), "a b | x\na x\nb x\n", SECONDARY);
}
