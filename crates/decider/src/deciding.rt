//! The search without a limit: each prefix decides by its children, one after the other (TAOCP 7.2.2.1).
//!
//! A recursion, and not the loop of `brancher` with a fuel that may be lacking: the proof of that was begun, and saved
//! too little (docs/DECISIONS.md). It is no deeper than a prefix is long. Backtracking, branch item and kept states are
//! as there.

ghost use Rattle.std.specs.Prelude.{◌≡◌, IfSome};
ghost use Rattle.brancher.specs.Keeping.{IsKnown};
ghost use Rattle.decider.specs.Deciding.{HaveNoCover, IsDecided};

use crate::decision::Decision;
use crate::trace::Trace;
use brancher::{Kept, Watch};
use choices::Branching;

/// Decides whether there is a cover below the chosen options. They come back, or are the first cover. The trace hears
/// of each step. It counts the prefixes that it comes to in `steps`.
pub fn decide<B: Branching, W: Watch, T: Trace>(
    state: &mut B,
    watch: &mut W,
    trace: &mut T,
    kept: &mut Kept,
    steps: &mut u64,
) -> Decision
    requires { HaveNoCover (B.choices state.old).problem kept.old.states }
    ensures problem { (B.choices state.new).problem ≡ (B.choices state.old).problem }
    ensures decided { IsDecided W.may_stop (B.choices state.old) (B.choices state.new) result }
    ensures kept { HaveNoCover (B.choices state.old).problem kept.new.states }
{
    // (for what the getter says: that the problem is lawful)
    state.problem();
    // (there is no fuel, so a watch hears what is left of the greatest)
    if kept.is_watch_due(watch) && watch.look(state.chosen(), u64::MAX.saturating_sub(*steps)) {
        return Decision::Stopped;
    }
    let Some(item) = state.branch_item() else {
        return Decision::Found;
    };
    *steps = steps.saturating_add(1);
    kept.made(1);
    watch.made(1, u64::MAX.saturating_sub(*steps));
    let looks = !kept.is_beyond(state.chosen().len());
    if let Some(number) = known(state, kept, looks)
        && let Some(visits) = trace.meets(number)
    {
        return Decision::Barren(visits);
    }
    trace.branches(item);
    let mut visits = 1u64;
    let mut next = state.choose_first(item);
    while next.is_some() {
        // (each call has one more option chosen, so the recursion is no deeper than a prefix is long: at most 1,000)
        match decide(state, watch, trace, kept, steps) {
            // (no fuel bounds the sum, so it saturates: the number is in no clause)
            Decision::Barren(count) => visits = visits.saturating_add(count),
            ended => return ended,
        }
        next = state.choose_next();
    }
    // (as asked before the children, also if a trial began or ended below)
    let is_kept = looks && !kept.is_early();
    if is_kept {
        // (a trace's number stands in place of the visits. Nothing proved depends on it, but the worth of what is kept
        // and what trials count as saved go by it)
        kept.keep(state, trace.keeps(state.chosen().len(), visits));
    }
    Decision::Barren(visits)
}

/// The number with which the chosen options are kept, if they are and states are looked for here.
#[inline(always)]
fn known<B: Branching>(state: &B, kept: &mut Kept, looks: bool) -> Option<u64>
    ensures unchanged { kept.new ≡ kept.old }
    ensures known { IfSome result (IsKnown (B.choices state.now).problem
        (B.choices state.now).chosen kept.old.states) }
{
    if looks { kept.look(state) } else { None }
}
