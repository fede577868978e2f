//! Decisions, and their ends.

use crate::assignment::Assignment;
use crate::heap::Heap;
use crate::layout::Layout;
use crate::packed::Packed;
use crate::trail::{Cause, Trail, Truth};

/// Chooses the most active option of which nothing is known. Returns false if there is none.
pub fn decide(layout: &Layout, assigned: &mut Assignment, heap: &mut Heap) -> bool {
    for _ in 0..=u16::MAX {
        let Some(option) = heap.pop() else {
            return false;
        };
        let literal = Packed::chosen(option);
        if assigned.trail.truth(literal) == Truth::Open {
            choose(layout, assigned, option);
            return true;
        }
    }
    false
}

/// What is to be done with options that are given.
pub enum Given {
    /// All of them are chosen.
    Chosen,
    /// This one is to be chosen next.
    Next(u16),
    /// This one was left, as it can't be together with those before it.
    Excluded(u16),
}

/// Looks at given options, each of which has a level of its own from the first one on, whether it was decided there or
/// followed before.
pub fn next_given(trail: &mut Trail, given: &[u16]) -> Given {
    for _ in given {
        let Some(option) = given.get(trail.level() as usize) else {
            return Given::Chosen;
        };
        match trail.truth(Packed::chosen(*option)) {
            Truth::True => trail.begin_level(),
            Truth::Open => return Given::Next(*option),
            Truth::False => return Given::Excluded(*option),
        }
    }
    Given::Chosen
}

/// Chooses an option of which nothing is known.
pub fn choose(layout: &Layout, assigned: &mut Assignment, option: u16) {
    assigned.trail.begin_level();
    assigned.set(layout, Packed::chosen(option), Cause::Decision);
}

/// Takes back all above a level.
pub fn go_back(layout: &Layout, assigned: &mut Assignment, heap: &mut Heap, level: u16) {
    for _ in 0..u16::MAX {
        let Some(literal) = assigned.take_back(layout, level) else {
            break;
        };
        heap.insert(literal.option());
    }
    assigned.trail.end_levels(level);
}
