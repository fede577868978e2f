//! How much a worker searches: a script of what it asks and learns, and when work is short.
//!
//! Of the bugs of `site_limits` that are kept outside the gate, `hunger` finds `nobody_is_ever_hungry`.
//!
//! Of the bugs of `udp_node` that are kept outside the gate, `who_asks_in_vain` finds `who_asks_in_vain_is_not_heard`.

use self::Step::{Asks, Ends, Keeps};
use super::lone::{HERE, OTHER};
use brancher::Outcome;
use node_core::Reply;
use packet_wire::{Body, Packet};
use std::alloc::{AllocError, Global};
use std::test::Fail;
use udp_node::{Hunger, Pace, Quota, asks_in_vain};

/// What happens to a pace.
#[derive(Clone, Copy)]
enum Step {
    /// It is asked for the visits of a prefix of this length, where the site is hungry or not: the answer.
    Asks(usize, bool, u64),
    /// A search of a prefix of this length ended so, after so many visits.
    Ends(usize, Outcome, u64),
    /// It is asked for the quota of a prefix of this length and so many visits: the answer's visits, and the most.
    Keeps(usize, u64, u64, u64),
}

/// A worker among others, with a base of 1,000.
static AMONG_OTHERS: [Step; 30] = [
    Asks(0, true, 1_000),
    Asks(0, false, 1_000),
    Asks(3, true, 200),
    // nothing is known of its length, nor of the next
    Asks(3, false, 200),
    // from a small job that is spent nothing is learnt
    Ends(4, Outcome::Spent, 200),
    Asks(4, false, 200),
    // one of length 4 is thought to take eight times as much: 30,000, which isn't too much; and of length 6 8 visits
    // more
    Ends(5, Outcome::Barren, 3_750),
    Asks(5, false, 240_000),
    Asks(4, false, 240_000),
    Asks(3, false, 200),
    Ends(7, Outcome::Barren, 3_751),
    Asks(6, false, 200),
    // spent: it is thought to take 480,000, more than 30,000, and what stands behind it to take long as well
    Ends(3, Outcome::Spent, 240_000),
    Asks(3, false, 200),
    Asks(4, false, 200),
    Ends(4, Outcome::Spent, 200),
    Asks(4, false, 200),
    // three quarters of 432,000 and a quarter of 100; it is wary no more
    Ends(3, Outcome::Barren, 100),
    Asks(3, false, 200),
    Asks(4, false, 240_000),
    // 40,248,001 visits were made: a 1,024th of them is 39,304
    Ends(8, Outcome::Barren, 40_000_000),
    Asks(8, false, 200),
    Asks(4, false, 314_432),
    Ends(99, Outcome::Barren, 5),
    Asks(99, false, 314_432),
    // where states are kept the first search gets more, a large one may, and a small one gets no more
    Keeps(0, 1_000, 24_000, 16_000_000),
    Keeps(4, 240_000, 240_000, 16_000_000),
    Keeps(4, 201, 201, 16_000_000),
    Keeps(4, 200, 200, 200),
    Keeps(1, 20_000_000, 20_000_000, 20_000_000),
];

/// What is thought to take too long is searched again once it was thought to take a tenth less often enough.
static FORGETS: [Step; 8] = [
    Ends(2, Outcome::Spent, 18_000),
    Ends(1, Outcome::Barren, 100),
    Asks(2, false, 200),
    Asks(2, false, 200),
    Asks(2, false, 240_000),
    Asks(2, false, 240_000),
    Ends(2, Outcome::Cover, 1),
    Asks(2, false, 240_000),
];

/// The only worker of the only node.
static ALONE: [Step; 4] = [
    Asks(0, false, u64::MAX),
    Asks(7, true, u64::MAX),
    Asks(7, false, u64::MAX),
    Keeps(0, u64::MAX, u64::MAX, u64::MAX),
];

/// With a base of 1 each job gets one visit.
static ONE_VISIT: [Step; 7] = [
    Asks(0, false, 1),
    Asks(4, true, 1),
    Ends(4, Outcome::Barren, 9_000),
    Asks(4, false, 1),
    Asks(99, false, 1),
    Keeps(0, 1, 1, 1),
    // (it is searched again where names are spent)
    Keeps(0, 16, 16, 16),
];

/// Whether the pace answers so.
fn is_answered(pace: &mut Pace, step: Step) -> bool {
    match step {
        Asks(length, is_hungry, visits) => {
            let hunger = Hunger::new();
            hunger.starve(u64::from(is_hungry));
            pace.visits(length, &hunger) == visits
        }
        Ends(length, outcome, visits) => {
            pace.note(length, outcome, visits);
            true
        }
        Keeps(length, given, visits, most) => pace.quota(length, given) == Quota { visits, most },
    }
}

/// The number of the first step, if any, that is answered otherwise by a pace of this base, alone or not, for prefixes
/// of up to 9 options.
fn first_wrong(
    alloc: Global,
    (base, alone, steps): (u64, bool, &[Step]),
) -> Result<Option<usize>, AllocError> {
    let mut pace = Pace::new(alloc, base, alone, 10)?;
    for (number, step) in steps.iter().enumerate() {
        if !is_answered(&mut pace, *step) {
            return Ok(Some(number));
        }
    }
    Ok(None)
}

/// How many scripts there are.
const SCRIPTS: usize = 6;

/// A script, with the base of its pace and whether that is alone.
fn script(number: usize) -> (u64, bool, &'static [Step]) {
    match number {
        0 => (1_000, false, &AMONG_OTHERS),
        1 => (1_000, false, &FORGETS),
        2 => (1_000, true, &ALONE),
        3 => (1, false, &ONE_VISIT),
        4 => (1, true, &ONE_VISIT),
        _ => (0, false, &ONE_VISIT),
    }
}

#[test]
fn paces(rt: HostRuntime) -> Result<(), Fail> {
    for number in 0..SCRIPTS {
        let wrong = first_wrong(rt.alloc(), script(number))?;
        assert_eq!(rt; wrong, None, "script {number}");
    }
    Ok(())
}

/// It is felt until two jobs were split.
#[test]
fn hunger(rt: HostRuntime) {
    let hunger = Hunger::new();
    assert!(rt; !hunger.is_felt());
    hunger.starve(2);
    for is_felt in [true, true, false, false] {
        assert_eq!(rt; hunger.is_felt(), is_felt);
        hunger.feed();
    }
}

/// A worker of the site asks in vain, another site does, and nobody does.
#[test]
fn who_asks_in_vain(rt: HostRuntime) {
    let to_other = |body| Packet {
        from: HERE,
        to: OTHER,
        body,
    };
    let (refusal, theft) = ([to_other(Body::NoWork)], [to_other(Body::Steal)]);
    assert!(rt; asks_in_vain(&Reply::Idle, &[]));
    assert!(rt; asks_in_vain(&Reply::Moved, &refusal));
    assert!(rt; !asks_in_vain(&Reply::Moved, &theft));
}
