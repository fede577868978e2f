//! Searches over live sets of small problems, beside searches over links.

use choices::Branching;
use dancing_links::Links;
use dlx_reader::read_problem;
use live_sets::LiveSets;
use option_sets::OptionSets;
use std::alloc::{AllocError, Global};
use std::process::Abort;
use std::test::Fail;

/// Seven items and six options, of which 3, 4 and 0 are the one exact cover.
const LETTERS: &str = "a b c d e f g\nc e\na d g\nb c f\na d f\nb g\nd e g\n";

/// Secondary items with colours.
const COLOURS: &str =
    "p q r | x y\np q x y:A\np r x:A y\np x:B\nq x:A\nr y:B\nq y:A x\np y:A\nr x:B y:B\n";

/// Takes choices back, the last one first, until one has an option that comes next, which is chosen in its place.
fn onward<B: Branching>(state: &mut B) -> Option<u16> {
    for _ in 0..state.chosen().len() {
        if state.chosen().is_empty() {
            return None;
        }
        let next = state.choose_next();
        if next.is_some() {
            return next;
        }
    }
    None
}

/// Goes on behind a visit: the option that is chosen for the next one; none where it was the last.
fn go_on<B: Branching>(state: &mut B) -> Option<u16> {
    if let Some(item) = state.branch_item() {
        let first = state.choose_first(item);
        if first.is_some() {
            return first;
        }
    }
    onward(state)
}

/// Of each visit of a search, of at most so many, the branch item, `u16::MAX` for none, and the option that is chosen
/// next.
fn visits<B: Branching>(alloc: Global, state: &mut B, most: u16) -> Result<Vec<u16>, AllocError> {
    let mut seen = Vec::new(alloc);
    for _ in 0..most {
        seen.push(state.branch_item().unwrap_or(u16::MAX))?;
        let Some(option) = go_on(state) else {
            return Ok(seen);
        };
        seen.push(option)?;
    }
    Ok(seen)
}

/// Takes all choices back, and lists them.
fn undone<B: Branching>(alloc: Global, state: &mut B) -> Result<Vec<u16>, AllocError> {
    let mut options = Vec::new(alloc);
    for _ in 0..state.chosen().len() {
        if state.chosen().is_empty() {
            return Ok(options);
        }
        options.push(state.undo())?;
    }
    Ok(options)
}

/// Whether both make the same visits, and take the same choices back where these end.
fn are_same<R: Abort, A: Branching, B: Branching>(
    rt: &R,
    alloc: Global,
    rows: &mut A,
    links: &mut B,
    most: u16,
) -> bool {
    let seen = visits(alloc, rows, most).expect(rt, "memory");
    let other = visits(alloc, links, most).expect(rt, "memory");
    let back = undone(alloc, rows).expect(rt, "memory");
    let other_back = undone(alloc, links).expect(rt, "memory");
    seen.as_slice() == other.as_slice() && back.as_slice() == other_back.as_slice()
}

/// Whether rows search a problem as links do, first all of it, then once an option is chosen.
fn search_same<R: Abort>(rt: &R, alloc: Global, text: &str, option: u16) -> bool {
    let problem = read_problem(alloc, text.as_bytes())
        .expect(rt, "a problem")
        .problem;
    let sets = OptionSets::build(alloc, &problem).expect(rt, "memory");
    assert!(rt; (option as usize) < problem.options());
    let mut rows = LiveSets::build(alloc, &sets).expect(rt, "memory");
    let mut links = Links::build(alloc, &problem).expect(rt, "memory");
    rows.choose(option);
    links.choose(option);
    if !are_same(rt, alloc, &mut rows, &mut links, 300) {
        return false;
    }
    let mut whole = LiveSets::build(alloc, &sets).expect(rt, "memory");
    let mut by_links = Links::build(alloc, &problem).expect(rt, "memory");
    are_same(rt, alloc, &mut whole, &mut by_links, 1_000)
}

/// The one exact cover, in the order in which it is found.
#[test]
fn letters(rt: HostRuntime) -> Result<(), Fail> {
    let problem = read_problem(rt.alloc(), LETTERS.as_bytes())
        .expect(&rt, "a problem")
        .problem;
    let sets = OptionSets::build(rt.alloc(), &problem)?;
    let mut rows = LiveSets::build(rt.alloc(), &sets)?;
    for _ in 0..100 {
        if rows.branch_item().is_some() {
            go_on(&mut rows);
        }
    }
    assert!(rt; rows.chosen() == [3, 4, 0].as_slice());
    Ok(())
}

#[test]
fn same_as_links(rt: HostRuntime) -> Result<(), Fail> {
    assert!(rt; search_same(&rt, rt.alloc(), LETTERS, 4));
    assert!(rt; search_same(&rt, rt.alloc(), COLOURS, 2));
    Ok(())
}

/// So many options over five items, in colours.
fn five_items(alloc: Global, options: u32) -> Result<String, AllocError> {
    let mut text = String::from_str(alloc, "a b c d e | x y z\n")?;
    for k in 0..options {
        let item = [b'a', b'b', b'c', b'd', b'e'][k as usize % 5] as char;
        let line = match k % 4 {
            0 => format!(in alloc; "{item} x:{} y:{}\n", k % 7, k % 3)?,
            1 => format!(in alloc; "{item} z:{k}\n")?,
            2 => format!(in alloc; "{item} x:{} y z:{k}\n", k % 11)?,
            _ => format!(in alloc; "{item} y:{} x:{}\n", k % 13, k % 2)?,
        };
        text.push_str(line.as_str())?;
    }
    Ok(text)
}

/// Many options over few items: counted by up to eight digits where each item has at most 255, and in keys where one
/// has 256.
#[test]
fn many(rt: HostRuntime) -> Result<(), Fail> {
    let alloc = rt.alloc();
    for options in [300, 640, 1_275, 1_280] {
        assert!(rt; search_same(&rt, alloc, five_items(alloc, options)?.as_str(), 200));
    }
    Ok(())
}

/// Appends an option of so many items from one on, in a ring.
fn push_run(
    alloc: Global,
    text: &mut String,
    ring: u32,
    first: u32,
    length: u32,
) -> Result<(), AllocError> {
    for step in 0..length {
        let name = format!(in alloc; "i{} ", first.wrapping_add(step) % ring.max(1))?;
        text.push_str(name.as_str())?;
    }
    text.push('\n')
}

/// So many items in a ring, and options of two to four or five to eight of them that follow one another.
fn ring(alloc: Global, items: u32) -> Result<String, AllocError> {
    let mut text = String::new(alloc);
    push_run(alloc, &mut text, items, 0, items)?;
    for first in 0..items {
        push_run(alloc, &mut text, items, first, 2 + first % 3)?;
        push_run(alloc, &mut text, items, first, 5 + first % 4)?;
    }
    Ok(text)
}

/// As many items as one word of bits holds, and two words, and one more than these: counted in keys only in the last
/// case.
#[test]
fn words_of_items(rt: HostRuntime) -> Result<(), Fail> {
    let alloc = rt.alloc();
    for items in [64, 65, 128, 129] {
        assert!(rt; search_same(&rt, alloc, ring(alloc, items)?.as_str(), 100));
    }
    Ok(())
}
