//! Items that are found and rooms that are given by hand.

use cover_problem::Problem;
use cover_reasons::{Reason, Room, find_reason};
use dlx_reader::read_problem;
use std::alloc::{AllocError, Global};
use std::process::Abort;
use std::test::Fail;
use used_items::{is_just_enough, with_room, with_used_items};

fn problem_of<R: Abort>(rt: &R, alloc: Global, text: &str) -> Problem {
    read_problem(alloc, text.as_bytes())
        .expect(rt, "a problem")
        .problem
}

/// Adds the name of an item, or `?` where there is no such item, and a space.
fn push_name(text: &mut Vec<u8>, problem: &Problem, item: u16) -> Result<(), AllocError> {
    if (item as usize) < problem.items() {
        text.extend_from_slice(problem.name(item))?;
    } else {
        text.extend_from_slice(b"?")?;
    }
    text.extend_from_slice(b" ")
}

/// The names of the items, with a bar behind the primary ones.
fn names_of(alloc: Global, problem: &Problem) -> Result<Vec<u8>, AllocError> {
    let mut text = Vec::new(alloc);
    for item in 0..problem.items() as u16 {
        if item as usize == problem.primary() {
            text.extend_from_slice(b"| ")?;
        }
        push_name(&mut text, problem, item)?;
    }
    Ok(text)
}

/// The items of the problem that is made, or `-` where none are found that each cover uses.
fn made_of<R: Abort>(rt: &R, alloc: Global, text: &str) -> Result<Vec<u8>, AllocError> {
    let problem = problem_of(rt, alloc, text);
    match with_used_items(alloc, &problem)? {
        Some(made) => names_of(alloc, &made.problem),
        None => Vec::from_slice(alloc, b"-"),
    }
}

/// Small problems, and the items once those are primary that are found: each cover uses them, as was seen when all sets
/// of options were tried.
static SMALL: [(&str, &str); 11] = [
    // two lessons in two periods; the third has no option
    ("a b | x y z\na x\na y\nb x\nb y\n", "a b x y | z "),
    // three periods for two lessons: each has a cover without it
    ("a b | x y z\na x\na y\nb y\nb z\n", "-"),
    // what comes first in the file can come last
    ("a b | z x y\na x\na y\nb x\nb y\n", "a b x y | z "),
    // a third lesson that may be in the full periods needs another one
    (
        "a b c | x y z w\na x\na y\nb x\nb y\nc z\nc x\nc w\n",
        "a b c x y | z w ",
    ),
    // each lesson needs a period and a room
    (
        "a b | x p y q\na x p\na y q\nb x q\nb y p\na x q\n",
        "a b x p y q ",
    ),
    // two items of each option, no two of which are alike
    (
        "a b | x y z w\na x y\na z w\na x z\nb z w\nb x y\nb y w\n",
        "a b x y z w ",
    ),
    // by one colour both may be in the period
    ("a b | x y\na x:1\na y\nb x:1\nb y\n", "-"),
    // an option without a period
    ("a b | x y\na x\na y\nb x\nb y\nb\n", "-"),
    // an option with both lessons, which needs one period for two (so each cover uses x, and that isn't found)
    ("a b | x y\na x\na y\nb x\nb y\na b x\n", "-"),
    // nothing is secondary
    ("a b\na\nb\n", "-"),
    // too few periods: there is no cover, and nothing is made of it
    ("a b c | x y\na x\na y\nb x\nb y\nc x\nc y\n", "-"),
];

#[test]
fn small_problems(rt: HostRuntime) -> Result<(), Fail> {
    for (text, made) in &SMALL {
        let names = made_of(&rt, rt.alloc(), *text)?;
        assert!(rt; names.as_slice() == made.as_bytes(), "{text}");
    }
    Ok(())
}

/// Rooms by hand, with a secondary item and one that options give colours: what each lesson needs, and for how much
/// each item has room.
static ROOMS: [(&[u16], &[u16], bool); 9] = [
    (&[1, 1], &[0, 0, 1, 1], true),
    (&[2, 2], &[0, 0, 2, 2], true),
    (&[1, 1], &[0, 0, 1, 0], false),
    (&[1, 1], &[0, 0, 1, 2], false),
    (&[1, 0], &[0, 0, 1, 1], false),
    (&[2, 1], &[0, 0, 1, 1], false),
    (&[1, 1], &[0, 0, 1, 1, 1], false),
    (&[1, 1, 1], &[0, 0, 1, 1, 1], false),
    (&[0, 0], &[], true),
];

#[test]
fn rooms_by_hand(rt: HostRuntime) -> Result<(), Fail> {
    let alloc = rt.alloc();
    let text = "a b | x y z\na x z:1\na y\nb x\nb y z:1\n";
    let problem = problem_of(&rt, alloc, text);
    for (needs, rooms, enough) in &ROOMS {
        let room = Room::from_parts(needs.to_vec(alloc)?, rooms.to_vec(alloc)?);
        assert!(rt; is_just_enough(&problem, &room) == *enough);
        assert!(rt; with_room(alloc, &problem, &room)?.is_some() == *enough);
    }
    Ok(())
}

/// What a made problem says: its options by places, with the colours that they had.
#[test]
fn options_and_colours(rt: HostRuntime) -> Result<(), Fail> {
    let alloc = rt.alloc();
    let text = "a b | z x y\na x z:1\na y\nb x\nb y z:2\n";
    let problem = problem_of(&rt, alloc, text);
    let made = with_used_items(alloc, &problem)?
        .expect(&rt, "items that are used")
        .problem;
    assert!(rt; made.options() == 4 && made.primary() == 4 && made.colour_names() == 2);
    if made.options() == 4 {
        assert!(rt; made.option(0) == [0u16, 2, 4].as_slice());
        assert!(rt; made.colours(0) == [0u16, 0, 1].as_slice());
        assert!(rt; made.option(1) == [0u16, 3].as_slice());
        assert!(rt; made.option(3) == [1u16, 3, 4].as_slice());
        assert!(rt; made.colours(3) == [0u16, 0, 2].as_slice());
    }
    Ok(())
}

/// An edge of a complete graph of five points for each of five colours: its two points lack the colour then.
fn edges(alloc: Global, points: u8, colours: u8) -> Result<String, AllocError> {
    let mut head = String::new(alloc);
    let mut text = String::new(alloc);
    for first in 0..points {
        for second in first.saturating_add(1)..points {
            head.push_str(format!(in alloc; "{first}-{second} ")?.as_str())?;
            for colour in 0..colours {
                text.push_str(format!(in alloc;
                    "\n{first}-{second} {first}.{colour} {second}.{colour}"
                )?.as_str())?;
            }
        }
    }
    head.push_str("|")?;
    for point in 0..points {
        for colour in 0..colours {
            head.push_str(format!(in alloc; " {point}.{colour}")?.as_str())?;
        }
    }
    head.push_str(text.as_str())?;
    Ok(head)
}

/// The edges of a complete graph of an odd number of points can't be coloured by as many colours as each point has
/// edges: each colour would leave no point out, and pairs don't make an odd number. A reason is found once the colours
/// at points are primary.
#[test]
fn edge_colourings(rt: HostRuntime) -> Result<(), Fail> {
    let alloc = rt.alloc();
    for points in [5u8, 7, 9, 13] {
        let text = edges(alloc, points, points - 1)?;
        let problem = problem_of(&rt, alloc, text.as_str());
        assert!(rt; find_reason(alloc, &problem)?.is_none());
        let made = with_used_items(alloc, &problem)?
            .expect(&rt, "items that are used")
            .problem;
        assert!(rt; made.primary() == made.items());
        let reason = find_reason(alloc, &made)?;
        assert!(rt; matches!(&reason, Some(Reason::Weighed(weights)) if weights.modulus() == 2));
    }
    Ok(())
}
