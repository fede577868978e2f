//! Reasons that are found and reasons that are given by hand.
//!
//! Of the bugs of `cover_reasons` that are kept outside the gate, `a_watch_ends_the_search_for_a_reason` finds
//! `weights_are_found_to_the_end` and `kinds_are_looked_at_to_the_end`, and `a_watch_ends_the_pivots` finds
//! `pivots_are_made_to_the_end`.
//!
//! Of the bugs of `fractional_room` that are kept outside the gate, `small_reasons` finds `a_need_is_taken_for_room`.

use cover_problem::Problem;
use cover_reasons::{
    Endless, Reason, ReasonWatch, Room, Weights, excludes, find_fractional_room_until, find_reason,
    find_reason_until, find_room, find_weights, is_too_little,
};
use dlx_reader::read_problem;
use known_problems::{board, langford, lessons, tetrominoes, triples};
use std::alloc::{AllocError, Global};
use std::process::Abort;
use std::test::Fail;

/// Problems by numbers.
#[derive(Clone, Copy)]
enum Family {
    /// Pairs of 1 to n, the two of d with d places between them.
    Langford(u8),
    /// A board of n by n without two opposite corners, by dominoes.
    Board(u8),
    /// A board of n by n, by tetrominoes like a T.
    Tetrominoes(u8),
    /// Each pair of n points in one triple.
    Triples(u8),
    /// So many lessons of one teacher, of so many periods each, in so many periods.
    Lessons(u8, u8, u8),
}

/// What is found.
#[derive(Clone, Copy, PartialEq, Eq, Debug)]
enum Found {
    /// Weights modulo a number.
    Modulo(u32),
    /// Needs and room, each added up.
    Needs(u64, u64),
    /// No reason.
    Nothing,
}

static CASES: [(Family, Found); 19] = [
    (Family::Langford(4), Found::Nothing),
    (Family::Langford(5), Found::Modulo(2)),
    (Family::Langford(8), Found::Nothing),
    (Family::Langford(13), Found::Modulo(2)),
    (Family::Langford(14), Found::Modulo(2)),
    (Family::Board(6), Found::Needs(18, 16)),
    (Family::Board(8), Found::Needs(32, 30)),
    (Family::Board(20), Found::Needs(200, 198)),
    (Family::Tetrominoes(4), Found::Nothing),
    (Family::Tetrominoes(6), Found::Modulo(8)),
    (Family::Tetrominoes(10), Found::Modulo(8)),
    (Family::Triples(9), Found::Nothing),
    (Family::Triples(10), Found::Modulo(2)),
    (Family::Triples(11), Found::Modulo(3)),
    (Family::Lessons(24, 1, 24), Found::Nothing),
    (Family::Lessons(25, 1, 24), Found::Needs(25, 24)),
    (Family::Lessons(5, 2, 10), Found::Nothing),
    (Family::Lessons(6, 2, 10), Found::Needs(12, 10)),
    (Family::Lessons(4, 3, 10), Found::Needs(12, 10)),
];

fn text_of(alloc: Global, family: Family) -> Result<String, AllocError> {
    match family {
        Family::Langford(size) => langford(alloc, size),
        Family::Board(size) => board(alloc, size),
        Family::Tetrominoes(size) => tetrominoes(alloc, size),
        Family::Triples(size) => triples(alloc, size),
        Family::Lessons(count, length, periods) => lessons(alloc, count, length, periods),
    }
}

fn problem_of<R: Abort>(rt: &R, alloc: Global, text: &str) -> Problem {
    read_problem(alloc, text.as_bytes())
        .expect(rt, "a problem")
        .problem
}

fn whole(amounts: &[u16]) -> u64 {
    let mut whole: u64 = 0;
    for amount in amounts {
        whole = whole.saturating_add(u64::from(*amount));
    }
    whole
}

fn found_of(reason: Option<Reason>) -> Found {
    match reason {
        Some(Reason::Weighed(weights)) => Found::Modulo(weights.modulus()),
        Some(Reason::TooLittleRoom(room)) => {
            Found::Needs(whole(room.needs()), whole(room.rooms()))
        }
        None => Found::Nothing,
    }
}

fn found_in<R: Abort>(rt: &R, alloc: Global, text: &str) -> Found {
    let problem = problem_of(rt, alloc, text);
    found_of(find_reason(alloc, &problem).expect(rt, "memory"))
}

#[test]
fn families(rt: HostRuntime) -> Result<(), Fail> {
    for (family, found) in &CASES {
        let text = text_of(rt.alloc(), *family)?;
        assert_eq!(rt; found_in(&rt, rt.alloc(), text.as_str()), *found);
    }
    Ok(())
}

/// A watch that lets a search go on for so many looks, and counts them.
#[derive(Drop)]
struct Patience {
    most: u64,
    looks: u64,
}

impl ReasonWatch for Patience {
    fn look(&mut self) -> bool {
        self.looks = self.looks.saturating_add(1);
        self.looks > self.most
    }
}

/// What is found before so many looks are over, and how many there were.
fn found_within<R: Abort>(rt: &R, alloc: Global, problem: &Problem, most: u64) -> (Found, u64) {
    let mut watch = Patience { most, looks: 0 };
    let reason = find_reason_until(alloc, problem, &mut watch).expect(rt, "memory");
    (found_of(reason), watch.looks)
}

/// The courts: it is asked before each pivot, and at the last one's there are no multipliers yet.
#[test]
fn a_watch_ends_the_pivots(rt: HostRuntime) -> Result<(), Fail> {
    let alloc = rt.alloc();
    let problem = problem_of(&rt, alloc, SMALL[8].0);
    let (whole, looks) = found_within(&rt, alloc, &problem, u64::MAX);
    assert_eq!(rt; whole, Found::Needs(6, 5));
    let (late, _) = found_within(&rt, alloc, &problem, looks.saturating_sub(1));
    assert_eq!(rt; late, Found::Nothing);
    Ok(())
}

/// Problems of which something is found by weights, by the periods of a teacher, and by the sides of a board.
static ENDED: [(Family, Found); 3] = [
    (Family::Tetrominoes(6), Found::Modulo(8)),
    (Family::Lessons(25, 1, 24), Found::Needs(25, 24)),
    (Family::Board(6), Found::Needs(18, 16)),
];

#[test]
fn a_watch_ends_the_search_for_a_reason(rt: HostRuntime) -> Result<(), Fail> {
    for (family, found) in &ENDED {
        let text = text_of(rt.alloc(), *family)?;
        let problem = problem_of(&rt, rt.alloc(), text.as_str());
        let (whole, looks) = found_within(&rt, rt.alloc(), &problem, u64::MAX);
        assert_eq!(rt; whole, *found);
        let (early, _) = found_within(&rt, rt.alloc(), &problem, 0);
        assert_eq!(rt; early, Found::Nothing);
        if let Found::Modulo(_) = found {
            // (it is asked before each option; at the last of these looks there are no weights yet)
            assert!(rt; looks >= problem.options() as u64);
            let (late, _) = found_within(&rt, rt.alloc(), &problem, looks.saturating_sub(1));
            assert_eq!(rt; late, Found::Nothing);
        }
    }
    Ok(())
}

/// Small problems, and what is found of them.
static SMALL: [(&str, Found); 13] = [
    // an item in no option
    ("a b\na\n", Found::Needs(1, 0)),
    // two options that share a secondary item
    ("a b | x\na x\nb x\n", Found::Needs(2, 1)),
    // they give it one colour, so both may be taken
    ("a b | x\na x:1\nb x:1\n", Found::Nothing),
    // a secondary item can stay uncovered
    ("a b | x\na x\nb\n", Found::Nothing),
    // three primary items that need the same two primary items
    (
        "a b c x y\na x\na y\nb x\nb y\nc x\nc y\n",
        Found::Needs(3, 2),
    ),
    // three things of which each option names two
    ("a b c\na b\na c\nb c\n", Found::Modulo(2)),
    // each of two lessons needs the hall, whoever teaches it
    (
        "a b | hall ann bob\na hall ann\na hall bob\nb hall ann\nb hall bob\n",
        Found::Needs(2, 1),
    ),
    // there is a cover
    ("a b c\na b\nc\n", Found::Nothing),
    // each of three teams needs two of three courts or the hall, so 2 each: courts have room 1, the hall 2
    (
        "a b c | x y z h\na x y\na x z\na y z\na h\nb x y\nb x z\nb y z\nb h\nc x y\nc x z\nc y z\nc h\n",
        Found::Needs(6, 5),
    ),
    // nine cells by pieces like an L, each of which has a corner, which needs 2, and two others, with room 1, or no
    // corner
    (
        "a b c d e f g h i\na b d\na b e\na d e\nb d e\nb c e\nb c f\nb e f\nc e f\nd e g\nd e h\nd g h\ne g h\ne f h\ne f i\ne h i\nf h i\n",
        Found::Needs(8, 5),
    ),
    // c takes Ann's Monday, d takes Bob's, so both want the room on Tuesday: a, b, c and d need 1, and Ann's and Bob's
    // Monday and the room's Tuesday have room 1
    (
        "a b c d | A1 A2 B1 B2 T1 T2\na A1 T1\na A2 T2\nb B1 T1\nb B2 T2\nc A1\nd B1\n",
        Found::Needs(4, 3),
    ),
    // the same with a cover: Bob has another one
    (
        "a b c d | A1 A2 B1 B2 T1 T2\na A1 T1\na A2 T2\nb B1 T1\nb B2 T2\nc A1\nd B2\n",
        Found::Nothing,
    ),
    // the courts once more, where options give each court one colour, so that it has no room
    (
        "a b c | x y z h\na x:1 y:1\na x:1 z:1\na y:1 z:1\na h\nb x:1 y:1\nb x:1 z:1\nb h\nc x:1 y:1\nc h\n",
        Found::Nothing,
    ),
];

#[test]
fn small_reasons(rt: HostRuntime) -> Result<(), Fail> {
    for (text, found) in &SMALL {
        assert_eq!(rt; found_in(&rt, rt.alloc(), *text), *found);
    }
    Ok(())
}

/// The modulus of the weights that are found, 0 where there are none.
fn modulus_of<R: Abort>(rt: &R, alloc: Global, problem: &Problem, moduli: &[u8]) -> u32 {
    let found = find_weights(alloc, problem, moduli).expect(rt, "memory");
    match found {
        Some(weights) => weights.modulus(),
        None => 0,
    }
}

/// A problem with three items, and of the seven options over these the ones of a set.
fn small_text(alloc: Global, options: u32) -> Result<String, AllocError> {
    let mut text = String::from_str(alloc, "a b c")?;
    for option in 1..8u32 {
        if options / (1 << option) % 2 == 1 {
            text.push_str("\n")?;
            for (bit, name) in ["a ", "b ", "c "].iter().enumerate() {
                if option / (1 << bit) % 2 == 1 {
                    text.push_str(name)?;
                }
            }
        }
    }
    Ok(text)
}

/// Whether there are weights modulo this number, by trying all.
fn has_weights(alloc: Global, problem: &Problem, modulus: u8) -> Result<bool, AllocError> {
    let modulus = modulus.max(2);
    for first in 0..u16::from(modulus) {
        for second in 0..u16::from(modulus) {
            for third in 0..u16::from(modulus) {
                let list = vec![in alloc; first, second, third]?;
                if excludes(problem, &Weights::from_parts(u32::from(modulus), list)) {
                    return Ok(true);
                }
            }
        }
    }
    Ok(false)
}

/// Of each problem with three items weights are found where there are any.
#[test]
fn small_problems(rt: HostRuntime) -> Result<(), Fail> {
    for options in 0..128u32 {
        let text = small_text(rt.alloc(), 2 * options)?;
        let problem = problem_of(&rt, rt.alloc(), text.as_str());
        for modulus in [2u8, 3, 4, 5, 8] {
            let found = modulus_of(&rt, rt.alloc(), &problem, &[modulus]) != 0;
            assert!(rt; found == has_weights(rt.alloc(), &problem, modulus)?);
        }
    }
    Ok(())
}

/// Weights by hand, right and wrong, with a secondary item.
#[test]
fn weights_by_hand(rt: HostRuntime) -> Result<(), Fail> {
    let alloc = rt.alloc();
    let problem = problem_of(&rt, alloc, "a b c | x\na b\nb c x\n");
    assert!(rt; excludes(&problem, &Weights::from_parts(3, vec![in alloc; 1, 2, 1]?)));
    assert!(rt;
        excludes(
            &problem,
            &Weights::from_parts(65536, vec![in alloc; 1, 65535, 1]?)
        )
    );
    assert!(rt; !excludes(&problem, &Weights::from_parts(3, vec![in alloc; 1, 2]?)));
    assert!(rt;
        !excludes(
            &problem,
            &Weights::from_parts(3, vec![in alloc; 1, 2, 1, 0]?)
        )
    );
    assert!(rt; !excludes(&problem, &Weights::from_parts(3, vec![in alloc; 0, 0, 0]?)));
    assert!(rt; !excludes(&problem, &Weights::from_parts(2, vec![in alloc; 1, 0, 0]?)));
    Ok(())
}

/// Room by hand, right and wrong: one lesson too many, with a secondary item, and one that options give colours.
#[test]
fn rooms_by_hand(rt: HostRuntime) -> Result<(), Fail> {
    let alloc = rt.alloc();
    let problem = problem_of(
        &rt,
        alloc,
        "a b c | x y z\na x z:1\nb x\nb y\nc y z:1\na y\n",
    );
    let needs = [1u16, 1, 1];
    assert!(rt; is_little(&problem, alloc, &needs, &[0, 0, 0, 1, 1])?);
    assert!(rt; is_little(&problem, alloc, &[2, 2, 2], &[0, 0, 0, 2, 2])?);
    assert!(rt; !is_little(&problem, alloc, &needs, &[0, 0, 0, 1, 2])?);
    assert!(rt; !is_little(&problem, alloc, &needs, &[0, 0, 0, 1, 0])?);
    assert!(rt; !is_little(&problem, alloc, &[1, 1, 0], &[0, 0, 0, 1, 1])?);
    assert!(rt; !is_little(&problem, alloc, &[2, 1, 1], &[0, 0, 0, 1, 1])?);
    assert!(rt; find_room(alloc, &problem)?.is_some());
    Ok(())
}

/// Multipliers by hand, right and wrong: each of three teams needs two of three courts or the hall, which is worth two.
#[test]
fn multipliers_by_hand(rt: HostRuntime) -> Result<(), Fail> {
    let alloc = rt.alloc();
    let text =
        "a b c | x y z h\na x y\na x z\na y z\na h\nb x y\nb x z\nb y z\nb h\nc x y\nc x z\nc y z\nc h\n";
    let problem = problem_of(&rt, alloc, text);
    assert!(rt; is_little(&problem, alloc, &[2, 2, 2], &[0, 0, 0, 1, 1, 1, 2])?);
    assert!(rt; !is_little(&problem, alloc, &[2, 2, 2], &[0, 0, 0, 1, 1, 1, 1])?);
    assert!(rt; !is_little(&problem, alloc, &[1, 1, 1], &[0, 0, 0, 1, 1, 1, 2])?);
    let room = find_fractional_room_until(alloc, &problem, &mut Endless)?;
    assert!(rt; found_of(room.map(|room| Reason::TooLittleRoom(room))) == Found::Needs(6, 5));
    Ok(())
}

/// Where there is a cover no room is too little: not that of an item with a colour, and a secondary item needs none.
#[test]
fn covers_have_room(rt: HostRuntime) -> Result<(), Fail> {
    let alloc = rt.alloc();
    let shared = problem_of(&rt, alloc, "a b | x\na x:1\nb x:1\n");
    assert!(rt; !is_little(&shared, alloc, &[1, 1], &[0, 0, 1])?);
    let unused = problem_of(&rt, alloc, "a | x\na\n");
    assert!(rt; !is_little(&unused, alloc, &[0, 1], &[])?);
    assert!(rt; !is_little(&unused, alloc, &[1, 1], &[1])?);
    Ok(())
}

/// Whether this room is too little.
fn is_little(
    problem: &Problem,
    alloc: Global,
    needs: &[u16],
    rooms: &[u16],
) -> Result<bool, AllocError> {
    let room = Room::from_parts(needs.to_vec(alloc)?, rooms.to_vec(alloc)?);
    Ok(is_too_little(problem, &room))
}
