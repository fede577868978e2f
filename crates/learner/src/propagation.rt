//! Unit propagation over items, clashes and learned clauses.
//!
//! Three kinds of clauses, each in the form that is cheapest for it. An item all of whose options but one are left
//! chooses that one, by a counter for each item. A chosen option leaves all that clash with it, by a walk over its
//! items. Learned clauses have two watched literals (Chaff).

use crate::assignment::Assignment;
use crate::layout::{Layout, Naming};
use crate::packed::Packed;
use crate::store::Store;
use crate::tables::{at, put};
use crate::trail::{Cause, Trail, Truth};
use crate::watches::{NO_NODE, Watches, clause_of, side_of};

/// What becomes of a node when the literal that it watches is false.
enum Visit {
    /// It stays.
    Kept,
    /// It watches this literal from now on.
    Moved(Packed),
    /// All literals of its clause are false.
    Falsified,
}

/// Returns an option of the item that isn't left, if there is one.
fn option_not_left(layout: &Layout, trail: &Trail, item: u16) -> Option<u16> {
    for naming in layout.options_of(item) {
        if trail.truth(Packed::left(naming.number)) != Truth::True {
            return Some(naming.number);
        }
    }
    None
}

/// Looks at an item of which one option or none is not left. Returns the clause that is falsified, if one is.
fn look_at_item(layout: &Layout, assigned: &mut Assignment, item: u16) -> Option<Cause> {
    if assigned.counts.is_covered(item) {
        return None;
    }
    if assigned.counts.count(item) == 0 {
        return Some(Cause::Item(item));
    }
    let option = option_not_left(layout, &assigned.trail, item)?;
    let literal = Packed::chosen(option);
    if assigned.trail.truth(literal) == Truth::Open {
        assigned.set(layout, literal, Cause::Item(item));
    }
    None
}

/// Looks at all items that are due.
fn look_at_items(layout: &Layout, assigned: &mut Assignment) -> Option<Cause> {
    for _ in 0..u64::MAX {
        let item = assigned.counts.take_due()?;
        let falsified = look_at_item(layout, assigned, item);
        if falsified.is_some() {
            return falsified;
        }
    }
    None
}

/// Leaves the other options of an item of a chosen option, but for those that give the item the same colour.
fn leave_others(
    layout: &Layout,
    assigned: &mut Assignment,
    option: u16,
    own: Naming,
) -> Option<Cause> {
    for other in layout.options_of(own.number) {
        let literal = Packed::left(other.number);
        let truth = assigned.trail.truth(literal);
        if truth == Truth::True || other.number == option {
            continue;
        }
        if own.colour != 0 && own.colour == other.colour {
            continue;
        }
        let cause = Cause::Clash(option, other.number);
        if truth == Truth::False {
            return Some(cause);
        }
        assigned.set(layout, literal, cause);
    }
    None
}

/// Leaves all options that clash with a chosen one.
fn leave_clashing(layout: &Layout, assigned: &mut Assignment, option: u16) -> Option<Cause> {
    for own in layout.items_of(option) {
        let falsified = leave_others(layout, assigned, option, *own);
        if falsified.is_some() {
            return falsified;
        }
    }
    None
}

/// Returns the place of a literal behind the first two of a clause that isn't false.
#[inline(always)]
fn place_to_watch(trail: &Trail, row: &[Packed]) -> Option<usize> {
    for (place, literal) in row.iter().enumerate() {
        if place >= 2 && trail.truth(*literal) != Truth::False {
            return Some(place);
        }
    }
    None
}

/// Looks for another literal to watch in a clause, and puts it in the place of the one that is false.
fn rewatch(trail: &Trail, row: &mut [Packed], side: usize) -> Option<Packed> {
    let place = place_to_watch(trail, row)?;
    let literal = at(row, place, Packed::NONE);
    let own = at(row, side, Packed::NONE);
    put(row, place, own);
    put(row, side, literal);
    Some(literal)
}

/// Looks at a clause of which a watched literal became false.
fn look_at_clause(
    layout: &Layout,
    assigned: &mut Assignment,
    watches: &mut Watches,
    store: &mut Store,
    node: u32,
) -> Visit {
    let clause = clause_of(node);
    let side = side_of(node);
    let Some(row) = store.row_mut(clause) else {
        return Visit::Kept;
    };
    let other = at(row, side ^ 1, Packed::NONE);
    watches.set_blocker(node, other);
    let truth = assigned.trail.truth(other);
    if truth == Truth::True {
        return Visit::Kept;
    }
    if let Some(literal) = rewatch(&assigned.trail, row, side) {
        return Visit::Moved(literal);
    }
    if truth == Truth::False {
        return Visit::Falsified;
    }
    assigned.set(layout, other, Cause::Clause(clause));
    Visit::Kept
}

/// Looks at the clauses that watch a literal, which became false.
fn visit_watches(
    layout: &Layout,
    assigned: &mut Assignment,
    watches: &mut Watches,
    store: &mut Store,
    literal: Packed,
) -> Option<Cause> {
    let mut previous = NO_NODE;
    let mut node = watches.first(literal);
    // (each node is visited once)
    for _ in 0..watches.nodes() {
        if node == NO_NODE {
            return None;
        }
        let own = watches.node(node);
        if assigned.trail.truth(own.blocker) == Truth::True {
            previous = node;
            node = own.next;
            continue;
        }
        match look_at_clause(layout, assigned, watches, store, node) {
            Visit::Kept => previous = node,
            Visit::Moved(to) => {
                watches.unlink(literal, previous, own.next);
                let blocker = watches.node(node).blocker;
                watches.link(to, node, blocker);
            }
            Visit::Falsified => return Some(Cause::Clause(clause_of(node))),
        }
        node = own.next;
    }
    None
}

/// Does what follows from a literal that became true.
fn follow(
    layout: &Layout,
    assigned: &mut Assignment,
    watches: &mut Watches,
    store: &mut Store,
    literal: Packed,
) -> Option<Cause> {
    if !literal.is_left() {
        let falsified = leave_clashing(layout, assigned, literal.option());
        if falsified.is_some() {
            return falsified;
        }
    }
    visit_watches(layout, assigned, watches, store, literal.negated())
}

/// Makes true all that follows from what is true. Returns a clause that is falsified, if one is; then some that follows
/// may be left out.
pub fn propagate(
    layout: &Layout,
    assigned: &mut Assignment,
    watches: &mut Watches,
    store: &mut Store,
) -> Option<Cause> {
    for _ in 0..u64::MAX {
        let falsified = look_at_items(layout, assigned);
        if falsified.is_some() {
            assigned.counts.clear_due();
            return falsified;
        }
        let literal = assigned.trail.next()?;
        let falsified = follow(layout, assigned, watches, store, literal);
        if falsified.is_some() {
            assigned.counts.clear_due();
            return falsified;
        }
    }
    None
}
