//! Problems once an option is chosen, and cases that are found; all were worked out by hand.
//!
//! Of the bugs of `case_reasons` that are kept outside the gate, `cases_are_found` finds `nothing_is_promising`,
//! `short_options_come_first`, `three_items_are_tried` and `five_items_are_tried`, `large_problems_are_not_tried` finds
//! `problems_of_any_size_are_tried`, and `a_watch_ends_it` finds `the_watch_is_not_handed_on`.

use case_reasons::{Cases, after_choice, find_cases_until};
use cover_problem::Problem;
use cover_reasons::{Endless, ReasonWatch};
use dlx_reader::read_problem;
use std::alloc::{AllocError, Global};
use std::process::Abort;
use std::test::Fail;

fn problem_of<R: Abort>(rt: &R, alloc: Global, text: &str) -> Problem {
    read_problem(alloc, text.as_bytes())
        .expect(rt, "a problem")
        .problem
}

/// The items of each option by their numbers, each with its colour behind it if it has one, and a stop behind the
/// option.
fn options_text(alloc: Global, problem: &Problem) -> Result<String, AllocError> {
    let mut text = String::new(alloc);
    for option in 0..problem.options() as u16 {
        for (item, colour) in problem.option(option).iter().zip(problem.colours(option)) {
            let word = if *colour == 0 {
                format!(in alloc; " {item}")?
            } else {
                format!(in alloc; " {item}:{colour}")?
            };
            text.push_str(word.as_str())?;
        }
        text.push_str(".")?;
    }
    Ok(text)
}

/// Problems, an option that is chosen, and the options then.
static CHOSEN: [(&str, u16, &str); 5] = [
    // both others share an item with it
    ("a b c\na b\nb c\na c\n", 1, " 1 2. 1 2. 1 2."),
    // one does
    ("a b c d\na b\nb c\nc d\n", 0, " 0 1. 0 1. 2 3."),
    // none does
    ("a b c\na\nb\nc\n", 2, " 0. 1. 2."),
    // an item in one colour is shared, one in two is not, nor one without
    (
        "a b c d | x\na x:1\nb x:1\nc x:2\nd x\n",
        0,
        " 0 4:1. 1 4:1. 0 4:1. 0 4:1.",
    ),
    // each option stays at its place, and so do its colours
    (
        "a b c | x y\nc\na y:1 x:2\nb x:3 y:1\n",
        2,
        " 2. 1 3:3 4:1. 1 3:3 4:1.",
    ),
];

#[test]
fn what_is_left_after_a_choice(rt: HostRuntime) -> Result<(), Fail> {
    let alloc = rt.alloc();
    for (file, chosen, left) in &CHOSEN {
        let problem = problem_of(&rt, alloc, *file);
        assert!(rt; (*chosen as usize) < problem.options());
        let made = after_choice(alloc, &problem, *chosen)?.expect(&rt, "room");
        let text = options_text(alloc, &made)?;
        assert!(rt; text.as_str() == *left, "{file}");
        assert!(rt; made.items() == problem.items() && made.primary() == problem.primary());
    }
    Ok(())
}

/// A problem with so many items, of which the first option names all, and so many more the first item alone.
fn long_and_short(alloc: Global, items: u16, short: u16) -> Result<String, AllocError> {
    let mut text = String::new(alloc);
    for _line in 0..2 {
        for item in 0..items {
            text.push_str(format!(in alloc; "{item} ")?.as_str())?;
        }
        text.push_str("\n")?;
    }
    for _option in 0..short {
        text.push_str("0\n")?;
    }
    Ok(text)
}

/// So many short options beside a long one, and whether there is room for as many copies: 200 items in each of 1,000
/// options are the most.
static ROOM: [(u16, bool); 2] = [(999, true), (1_000, false)];

#[test]
fn copies_keep_the_limit(rt: HostRuntime) -> Result<(), Fail> {
    let alloc = rt.alloc();
    for (short, has_room) in ROOM {
        let text = long_and_short(alloc, 200, short)?;
        let problem = problem_of(&rt, alloc, text.as_str());
        assert!(rt; problem.options() > 0);
        let made = after_choice(alloc, &problem, 0)?;
        assert!(rt; made.is_some() == has_room, "{short}");
    }
    Ok(())
}

/// The item of some cases, and the numbers of their options.
fn cases_text(alloc: Global, cases: &Cases) -> Result<String, AllocError> {
    let mut text = format!(in alloc; "{}:", cases.item)?;
    for case in &cases.list {
        text.push_str(format!(in alloc; " {}", case.option)?.as_str())?;
    }
    Ok(text)
}

/// The cases of a problem, if some are found.
fn found_in<W: ReasonWatch>(
    alloc: Global,
    problem: &Problem,
    watch: &mut W,
) -> Result<String, AllocError> {
    match find_cases_until(alloc, problem, watch)? {
        Some(cases) => cases_text(alloc, &cases),
        None => Ok(String::new(alloc)),
    }
}

/// Problems, and the item of the cases that are found, with the options that name it.
static FOUND: [(&str, &str); 7] = [
    // a triangle: with any edge its third corner is left
    ("a b c\na b\nb c\na c\n", "0: 0 2"),
    // `a` and `b` can't agree on a colour of x
    ("a b | x\na x:1\na x:2\nb x:3\n", "1: 2"),
    // there are covers
    ("a b c d\na b\nc d\na c\nb d\n", ""),
    ("a b\na\nb\n", ""),
    // p, q and r are tried first, since their option is longer, and say nothing
    ("p q r a b | x\np q r\na x:1\na x:2\nb x:3\n", "4: 3"),
    // with s there are four of these, and no other item is tried
    ("p q r s a b | x\np q r s\na x:1\na x:2\nb x:3\n", ""),
    // c to g, whose options are shorter, aren't tried
    (
        "c d e f g a b | x\nc\nd\ne\nf\ng\na x:1\na x:2\nb x:3\n",
        "6: 7",
    ),
];

#[test]
fn cases_are_found(rt: HostRuntime) -> Result<(), Fail> {
    let alloc = rt.alloc();
    for (file, cases) in &FOUND {
        let problem = problem_of(&rt, alloc, *file);
        let text = found_in(alloc, &problem, &mut Endless)?;
        assert!(rt; text.as_str() == *cases, "{file} {text}");
    }
    Ok(())
}

/// An item `b` whose only option has `long` secondary items, and an item `a` with so many options of one item less,
/// each of which clashes with that.
fn crowded(alloc: Global, long: u16, options: u16) -> Result<String, AllocError> {
    let mut text = String::from_str(alloc, "a b |")?;
    let mut names = String::new(alloc);
    for item in 1..long {
        names.push_str(format!(in alloc; " y{item}")?.as_str())?;
    }
    text.push_str(names.as_str())?;
    text.push_str(format!(in alloc; " z\nb z{names}\n")?.as_str())?;
    for _option in 0..options {
        text.push_str(format!(in alloc; "a{names}\n")?.as_str())?;
    }
    Ok(text)
}

/// So many options of 100 items beside one of 101, and the cases that are found: with 20,000 items of options one item
/// is tried, with more none.
static CROWDED: [(u16, &str); 2] = [(198, "1: 0"), (199, "")];

#[test]
fn large_problems_are_not_tried(rt: HostRuntime) -> Result<(), Fail> {
    let alloc = rt.alloc();
    for (options, cases) in CROWDED {
        let text = crowded(alloc, 100, options)?;
        let problem = problem_of(&rt, alloc, text.as_str());
        let found = found_in(alloc, &problem, &mut Endless)?;
        assert!(rt; found.as_str() == cases, "{options}");
    }
    Ok(())
}

/// A watch that ends a search once it was asked more often.
#[derive(Drop)]
struct Ending {
    left: u32,
}

impl ReasonWatch for Ending {
    fn look(&mut self) -> bool {
        let is_over = self.left == 0;
        self.left = self.left.saturating_sub(1);
        is_over
    }
}

/// A triangle, and two items that are covered.
const BESIDE: &str = "p q a b c\np q\na b\nb c\na c\n";

#[test]
fn a_watch_ends_it(rt: HostRuntime) -> Result<(), Fail> {
    let alloc = rt.alloc();
    let problem = problem_of(&rt, alloc, BESIDE);
    for (left, cases) in [(0, ""), (1, ""), (1_000_000, "0: 0")] {
        let text = found_in(alloc, &problem, &mut Ending { left })?;
        assert!(rt; text.as_str() == cases, "{left} {text}");
    }
    Ok(())
}
