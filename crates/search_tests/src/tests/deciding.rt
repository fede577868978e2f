//! Searches without a limit that end soon only since they go past the states that they meet again.
//!
//! Of the bugs of `decider` that are kept outside the gate, `states_are_found_again_without_a_limit` finds
//! `only_the_root_is_looked_up`. Of the bugs of `live_sets` that are kept outside the gate, `long_keys_are_found_again`
//! finds `long_keys_are_not_written`.

ghost use Rattle.std.specs.Prelude.{true};

use super::keeping::{BOARD_OF_8, BOARD_OF_12};
use super::texts::problem_of;
use brancher::{STATE_BYTES, Tables, Watch};
use decider::{Decider, Decision};
use std::alloc::Global;
use std::process::Abort;

/// A watch that stops a search when it looks for the last of so many times: once in 1,024 prefixes.
#[derive(Drop)]
struct Looking {
    left: u64,
}

impl Watch for Looking {
    ghost may_stop = { true };

    fn look(&mut self, _chosen: &[u16], _left: u64) -> bool {
        self.left = self.left.saturating_sub(1);
        self.left == 0
    }
}

/// Whether a search over these tables sees that there is no cover before its watch has looked so often.
fn sees_none(alloc: Global, tables: &Tables<'_>, looks: u64) -> bool {
    let Ok(mut decider) = Decider::new(alloc, tables, STATE_BYTES) else {
        return false;
    };
    let mut watch = Looking { left: looks };
    matches!(decider.decide(&mut watch), Decision::Barren(_))
}

/// Boards, with how many looks a search has over sets, and by links.
static BOARDS: [(&str, u64, u64); 2] = [(BOARD_OF_8, 20, 20), (BOARD_OF_12, 200, 200)];

#[test]
fn states_are_found_again_without_a_limit(rt: HostRuntime) {
    for (text, over_sets, by_links) in &BOARDS {
        let problem = problem_of(&rt, rt.alloc(), text);
        let sets = Tables::of_sets(rt.alloc(), &problem).expect(&rt, "memory");
        assert!(rt; sees_none(rt.alloc(), &sets, *over_sets));
        assert!(rt; sees_none(rt.alloc(), &Tables::of_links(&problem), *by_links));
    }
}

/// The board of eight by eight with a secondary item and 250 options of one more item: a key is the live options then,
/// in six words.
fn with_long_keys<R: Abort>(rt: &R, alloc: Global) -> String {
    let (cells, dominoes) = BOARD_OF_8.split_once('\n').expect(rt, "a line of items");
    let mut text = format!(in alloc; "{cells} z | x\n{dominoes}").expect(rt, "memory");
    for _ in 0..250 {
        text.push_str("\nz").expect(rt, "memory");
    }
    text
}

#[test]
fn long_keys_are_found_again(rt: HostRuntime) {
    let text = with_long_keys(&rt, rt.alloc());
    let problem = problem_of(&rt, rt.alloc(), &text);
    let sets = Tables::of_sets(rt.alloc(), &problem).expect(&rt, "memory");
    assert!(rt; sees_none(rt.alloc(), &sets, 20));
}
