//! A small problem with colours: its parts, which of its options clash, and the verdicts on lists of them.

ghost use Rattle.std.specs.Prelude.{◌<◌, length};

use super::texts::problem_of;
use cover_problem::{Problem, Verdict, check_cover, clash, is_live, is_prefix};

/// Primary items p, q and r, secondary items x and y; the only cover has the first three options.
const TEXT: &str = "p q r | x y\np x:A\nq x:A\nr x:A y\nq x:B\nr x\np y\nq x\n";

/// The colours of each option, where A is 1 and B is 2.
static COLOURS: &[&[u16]] = &[
    &[0, 1],
    &[0, 1],
    &[0, 1, 0],
    &[0, 2],
    &[0, 0],
    &[0, 0],
    &[0, 0],
];

/// For each option, with which it clashes (x): those that name its primary item, or a secondary item of it in another
/// colour, or that one of the two gives no colour.
static CLASHES: &[&str] = &[
    "x--xxxx", "-x-xx-x", "--xxxxx", "xxxxx-x", "xxxxx-x", "x-x--x-", "xxxxx-x",
];

/// Lists of options, and what is wrong with each.
static VERDICTS: &[(&[u16], Verdict)] = &[
    (&[0, 1, 2], Verdict::Exact),
    (&[2, 0, 1], Verdict::Exact),
    (&[0, 1, 4], Verdict::CoveredTwice(3)),
    (&[0, 3, 2], Verdict::CoveredTwice(3)),
    (&[5, 3, 4], Verdict::CoveredTwice(3)),
    (&[4, 5, 6], Verdict::CoveredTwice(3)),
    (&[5, 6, 2], Verdict::CoveredTwice(3)),
    (&[5, 1, 2], Verdict::CoveredTwice(4)),
    (&[0, 1, 3, 2], Verdict::CoveredTwice(1)),
    (&[0, 1], Verdict::Uncovered(2)),
    (&[0, 1, 2, 0], Verdict::ChosenTwice),
    (&[0, 1, 7], Verdict::NoSuchOption),
];

/// Whether these are the colours of a problem's options.
fn are_colours(problem: &Problem, colours: &[&[u16]]) -> bool {
    for option in 0..problem.options() as u16 {
        match colours.get(usize::from(option)) {
            Some(own) if problem.colours(option) == *own => {}
            _ => return false,
        }
    }
    problem.options() == colours.len()
}

/// Whether the colours are A and B, and stand where they should.
fn is_coloured(problem: &Problem) -> bool {
    problem.colour_names() == 2
        && problem.colour_name(1) == b"A".as_slice()
        && problem.colour_name(2) == b"B".as_slice()
        && are_colours(problem, COLOURS)
}

/// Whether the option clashes with those that are marked.
fn is_row(problem: &Problem, first: u16, marks: &[u8]) -> bool
    requires { first < length problem.now.options }
{
    for second in 0..problem.options() as u16 {
        let mark = marks.get(usize::from(second));
        if clash(problem, first, second) != (mark == Some(&b'x')) {
            return false;
        }
    }
    problem.options() == marks.len()
}

/// Whether each option clashes with those that are marked in its row.
fn are_clashes(problem: &Problem, rows: &[&str]) -> bool {
    for option in 0..problem.options() as u16 {
        match rows.get(usize::from(option)) {
            Some(row) if is_row(problem, option, row.as_bytes()) => {}
            _ => return false,
        }
    }
    problem.options() == rows.len()
}

/// Whether options go together where they share x in one colour, and else don't where they share x or y.
fn are_prefixes(problem: &Problem) -> bool {
    is_prefix(problem, &[1, 0, 2])
        && !is_prefix(problem, &[0, 3])
        && !is_prefix(problem, &[5, 3, 4])
        && problem.options() == 7
        && is_live(problem, &[0, 1], 2)
        && !is_live(problem, &[0, 1], 4)
        && !is_live(problem, &[5], 2)
}

#[test]
fn colours_and_clashes(rt: HostRuntime) {
    let problem = problem_of(&rt, rt.alloc(), TEXT);
    assert!(rt; is_coloured(&problem));
    assert!(rt; is_coloured(&problem.copy().expect(&rt, "memory")));
    assert!(rt; are_clashes(&problem, CLASHES));
    assert!(rt; are_prefixes(&problem));
}

#[test]
fn verdicts_over_colours(rt: HostRuntime) {
    let problem = problem_of(&rt, rt.alloc(), TEXT);
    for (options, verdict) in VERDICTS.iter() {
        assert!(rt; check_cover(&problem, options) == *verdict, "{options:?}");
    }
}
