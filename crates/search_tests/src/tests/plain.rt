//! The search by dancing links against a plain one, which filters all options at each visit, over random problems.

use super::search::ends_so;
use super::texts::problem_of;
use cover_problem::Problem;
use std::alloc::{AllocError, Global};
use std::process::Abort;

/// An option: its items, and beside them their colours, 0 for none.
#[derive(Drop)]
struct Named<'a> {
    items: &'a [u16],
    colours: &'a [u16],
}

/// The options of a problem, and how many of its items are primary.
#[derive(Drop)]
struct Plain<'a> {
    options: Vec<Named<'a>>,
    primary: u16,
}

/// A problem's options and its number of primary items.
fn plain_of(alloc: Global, problem: &Problem) -> Result<Plain, AllocError> {
    let mut options = Vec::new(alloc);
    for option in 0..problem.options() as u16 {
        let items = problem.option(option);
        let colours = problem.colours(option);
        options.push(Named { items, colours })?;
    }
    let primary = problem.primary() as u16;
    Ok(Plain { options, primary })
}

/// The colour that an option gives an item; nothing where it doesn't name it.
fn colour_in(option: &Named, item: u16) -> Option<u16> {
    for (named, colour) in option.items.iter().zip(option.colours) {
        if *named == item {
            return Some(*colour);
        }
    }
    None
}

/// Whether both options name an item that is primary, or to which they give no equal colour.
fn clash(primary: u16, one: &Named, other: &Named) -> bool {
    for (item, colour) in one.items.iter().zip(one.colours) {
        if let Some(there) = colour_in(other, *item) {
            if *item < primary || *colour == 0 || *colour != there {
                return true;
            }
        }
    }
    false
}

fn is_covered(plain: &Plain, chosen: &[u16], item: u16) -> bool {
    for option in chosen {
        if let Some(named) = plain.options.get(usize::from(*option)) {
            if named.items.contains(&item) {
                return true;
            }
        }
    }
    false
}

fn is_live(plain: &Plain, chosen: &[u16], option: &Named) -> bool {
    for other in chosen {
        if let Some(named) = plain.options.get(usize::from(*other)) {
            if clash(plain.primary, option, named) {
                return false;
            }
        }
    }
    true
}

/// The live options that name an item.
fn choices(
    alloc: Global,
    plain: &Plain,
    chosen: &[u16],
    item: u16,
) -> Result<Vec<u16>, AllocError> {
    let mut live = Vec::new(alloc);
    let mut number = 0u16;
    for option in &plain.options {
        if option.items.contains(&item) && is_live(plain, chosen, option) {
            live.push(number)?;
        }
        number = number.wrapping_add(1);
    }
    Ok(live)
}

/// The live options of the branch item; none where every primary item is covered.
fn fewest(alloc: Global, plain: &Plain, chosen: &[u16]) -> Result<Option<Vec<u16>>, AllocError> {
    let mut best: Option<Vec<u16>> = None;
    for item in 0..plain.primary {
        if !is_covered(plain, chosen, item) {
            let live = choices(alloc, plain, chosen, item)?;
            let least = best.as_ref().map_or(usize::MAX, |former| former.len());
            if live.len() < least {
                best = Some(live);
            }
        }
    }
    Ok(best)
}

/// Whether there is a cover below the chosen options, which then are the first, and how many visits it took.
fn visit(
    alloc: Global,
    plain: &Plain,
    chosen: &mut Vec<u16>,
    depth: u16,
) -> Result<(bool, u64), AllocError> {
    let Some(live) = fewest(alloc, plain, chosen)? else {
        return Ok((true, 1));
    };
    let mut visits = 1u64;
    if depth == 0 {
        return Ok((false, visits));
    }
    for option in live {
        chosen.push(option)?;
        let below = visit(alloc, plain, chosen, depth - 1)?;
        visits = visits.saturating_add(below.1);
        if below.0 {
            return Ok((true, visits));
        }
        chosen.pop();
    }
    Ok((false, visits))
}

/// The next of a row of numbers without a pattern (Marsaglia's xorshift).
fn next(state: &mut u64) -> u64 {
    *state ^= *state << 13;
    *state ^= *state >> 7;
    *state ^= *state << 17;
    *state
}

/// What random problems are drawn from.
struct Drawing {
    /// Letters for the names of items, and the bar between them.
    names: &'static str,
    /// How many colours there are; without any, secondary items are as rare in options as primary ones.
    colours: u8,
}

static UNCOLOURED: Drawing = Drawing {
    names: "abcdefghij|xyz",
    colours: 0,
};

static COLOURED: Drawing = Drawing {
    names: "abcdef|uvwxyz",
    colours: 3,
};

/// Appends a name.
fn push_name<R: Abort>(rt: &R, text: &mut String, name: char) {
    text.push(name).expect(rt, "memory");
    text.push(' ').expect(rt, "memory");
}

/// Some of the names before the bar, the bar and some of those behind it; always a, b and the bar.
fn item_line<R: Abort>(rt: &R, alloc: Global, names: &str, state: &mut u64) -> String {
    let mut text = String::new(alloc);
    let skipped = next(state) % 4;
    for name in names.chars() {
        let is_drawn = next(state) % 4 >= skipped;
        if is_drawn || matches!(name, 'a' | 'b' | '|') {
            push_name(rt, &mut text, name);
        }
    }
    text
}

/// One of so many colours with its colon, or nothing.
fn colour_word(colours: u8, state: &mut u64) -> &'static str {
    match next(state) % (u64::from(colours) + 1) {
        1 => ":1",
        2 => ":2",
        3 => ":3",
        _ => "",
    }
}

/// Appends a secondary item half of the time, perhaps with a colour.
fn push_secondary<R: Abort>(rt: &R, text: &mut String, name: char, colours: u8, state: &mut u64) {
    if next(state) % 2 == 0 {
        text.push(name).expect(rt, "memory");
        text.push_str(colour_word(colours, state))
            .expect(rt, "memory");
        text.push(' ').expect(rt, "memory");
    }
}

/// Appends a line of some of the names.
fn push_option<R: Abort>(rt: &R, text: &mut String, items: &str, colours: u8, state: &mut u64) {
    text.push('\n').expect(rt, "memory");
    for name in items.chars() {
        if colours > 0 && matches!(name, 'u'..='z') {
            push_secondary(rt, text, name, colours, state);
        } else if name != '|' && name != ' ' && next(state) % 4 == 0 {
            push_name(rt, text, name);
        }
    }
}

/// A problem of these items, or some of them, and up to 39 options.
fn random_text<R: Abort>(rt: &R, alloc: Global, drawing: &Drawing, state: &mut u64) -> String {
    let items = item_line(rt, alloc, drawing.names, state);
    let mut text = items.clone().expect(rt, "memory");
    for _ in 0..next(state) % 40 {
        push_option(rt, &mut text, items.as_str(), drawing.colours, state);
    }
    text
}

/// Whether a problem is searched alike both ways: outcome, found list and the visits at the edge.
fn agree<R: Abort>(rt: &R, alloc: Global, text: &str) -> bool {
    let problem = problem_of(rt, alloc, text);
    let plain = plain_of(alloc, &problem).expect(rt, "memory");
    let mut first = Vec::new(alloc);
    let visited = visit(alloc, &plain, &mut first, plain.primary);
    ends_so(rt, alloc, text, visited.expect(rt, "memory").1, &first)
}

/// Whether so many random problems are searched alike.
fn all_agree<R: Abort>(rt: &R, alloc: Global, drawing: &Drawing, count: u64, seed: u64) {
    let mut state = seed;
    for _ in 0..count {
        let text = random_text(rt, alloc, drawing, &mut state);
        assert!(rt; agree(rt, alloc, text.as_str()), "{text}");
    }
}

#[test]
fn links_search_as_the_plain_program(rt: HostRuntime) {
    all_agree(&rt, rt.alloc(), &UNCOLOURED, 600, 88172645463325252);
}

#[test]
fn links_search_as_the_plain_program_with_colours(rt: HostRuntime) {
    all_agree(&rt, rt.alloc(), &COLOURED, 1000, 2463534242);
}
