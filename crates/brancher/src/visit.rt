//! The search loop: Knuth's Algorithm X (TAOCP 7.2.2.1), depth first, over any store of live options.
//!
//! The store names the branch item: of the uncovered primary items the one with the fewest live options (minimum
//! remaining values), the first one of equal. The loop chooses that item's live options one after the other, in the
//! order of the file. Where none is left it backtracks. There is no recursion: the stack is the list of chosen options,
//! and the store knows by which item each was chosen. So the item is covered once for all its options, as in Knuth's
//! loop; `bench/TRIED.md` has what that saves.
//!
//! Fuel counts visits (nodes of the search tree), not time. So problem, prefix and fuel alone say what a search comes
//! to, on any machine and at any site. A watch may still stop it by the clock, and then no contract says when.
//!
//! `pause` is for a search that keeps states: between two trials it runs this plain loop, and takes over again once so
//! little fuel is left.

ghost use Rattle.std.specs.Prelude.{◌≡◌, ◌+◌, ◌≤◌, ◌⊎◌, ℕ, length, true};
ghost use Rattle.cover_problem.specs.Prefix.{is_prefix};
ghost use Rattle.cover_problem.specs.Problem.{IsProblem};
ghost use Rattle.cover_problem.specs.Search.{first, visits};
ghost use Rattle.choices.specs.Choices.{Choices};
ghost use Rattle.brancher.specs.Reach.{IsBarrenAt, IsOnward, IsReached};
ghost use Rattle.brancher.specs.Visit.{IsVisit};

use crate::branching::put_prefix;
use crate::watch::{EVERY, Watch};
use choices::Branching;

/// How a visit of a prefix ended.
#[derive(Clone, Copy, Debug, PartialEq, Eq)]
pub enum Visit {
    /// The chosen options are the first cover.
    Found,
    /// There is none, and so much fuel is left.
    Barren(u64),
    /// The fuel was spent.
    Spent,
    /// It was stopped, and so much fuel is left: it takes more visits than were made.
    Stopped(u64),
}

/// Puts a prefix in place of what is chosen, and visits it and what is below it.
pub fn visit_below<B: Branching, W: Watch>(
    state: &mut B,
    prefix: &[u16],
    fuel: u64,
    watch: &mut W,
) -> Visit
    requires { is_prefix (B.choices state.old).problem prefix.now ≡ true }
    ensures problem { (B.choices state.new).problem ≡ (B.choices state.old).problem }
    ensures lawful { IsProblem (B.choices state.old).problem }
    ensures visit { IsVisit (first (B.choices state.old).problem prefix.now)
        (visits (B.choices state.old).problem prefix.now) fuel prefix.now
        (B.choices state.new).chosen result }
    ensures stopped { (left : ℕ) → result ≡ Visit.Stopped left → W.may_stop ≡ true }
{
    // (for what the getter says: that the problem is lawful)
    state.problem();
    put_prefix(state, prefix);
    // (0 is no pause: where nothing is left, the fuel is spent)
    visit_prefix(state, fuel, 0, watch)
}

/// Visits the prefix that is chosen, and what is below it. The chosen options come back, or are the first cover. It
/// also stops where no more than `pause` is left: then another visit may go on at what is chosen. However it ends, the
/// watch hears then how many visits it made.
pub(crate) fn visit_prefix<B: Branching, W: Watch>(
    state: &mut B,
    fuel: u64,
    pause: u64,
    watch: &mut W,
) -> Visit
    ensures problem { (B.choices state.new).problem ≡ (B.choices state.old).problem }
    ensures visit { IsVisit (first (B.choices state.old).problem (B.choices state.old).chosen)
        (visits (B.choices state.old).problem (B.choices state.old).chosen) fuel
        (B.choices state.old).chosen (B.choices state.new).chosen result }
    ensures back { (rest : ℕ) → result ≡ Visit.Barren rest →
        B.choices state.new ≡ B.choices state.old }
    ensures stopped { (left : ℕ) → result ≡ Visit.Stopped left →
        (W.may_stop ≡ true) ⊎ (left ≤ pause) }
    ensures reached { (left : ℕ) → result ≡ Visit.Stopped left → (1 ≤ left)
        × IsReached (B.choices state.old) fuel (B.choices state.new) left }
{
    let base = state.chosen().len();
    let mut left = fuel;
    while left > pause {
        // (by what is left, which needs no counter; of a power of two the remainder is a mask)
        if left % EVERY == 0 && watch.look(state.chosen(), left) {
            watch.made(fuel.saturating_sub(left), left);
            return Visit::Stopped(left);
        }
        let Some(item) = state.branch_item() else {
            watch.made(fuel.saturating_sub(left), left);
            return Visit::Found;
        };
        left -= 1;
        if state.choose_first(item).is_none() && !choose_onward(state, base) {
            watch.made(fuel.saturating_sub(left), left);
            return Visit::Barren(left);
        }
    }
    watch.made(fuel.saturating_sub(left), left);
    if left > 0 {
        Visit::Stopped(left)
    } else {
        Visit::Spent
    }
}

/// Takes choices back, the last one first, until one has an option that comes next, which is chosen in its place. False
/// where none has: then only the first `base` choices are left, which are never taken back.
#[inline(always)]
fn choose_onward<B: Branching>(state: &mut B, base: usize) -> bool
    requires { length (B.choices state.old).chosen
        ≤ base + length (B.choices state.old).branches }
    ensures { (root : Choices) (fuel left : ℕ) → base ≡ length root.chosen →
        IsBarrenAt root fuel (B.choices state.old) left →
        IsOnward root fuel left (B.choices state.new) result }
{
    while state.chosen().len() > base {
        if state.choose_next().is_some() {
            return true;
        }
    }
    false
}
