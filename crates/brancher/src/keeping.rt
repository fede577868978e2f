//! A visit that keeps which states it found barren, and goes past those that it meets again.
//!
//! Programs for games call such a table a transposition table, and its entries are nogoods of constraint programming.
//! Below prefixes of one state the search is the same (`alike_prefixes_are_searched_alike`), so the visits that are
//! kept with a state are those that a search below would count, and no answer changes.
//!
//! A state is found by its whole key, since a hash alone could make one with a cover seem barren. The key is made for
//! each look, from the marks or planes of items: to keep it up to date at each choice would cost time even where
//! nothing repeats. Where looks don't pay (as `Trials` finds), a plain loop searches, pauses for the next trial and
//! goes on. It doesn't note how many visits were left at each prefix on its way, so the states of these aren't kept.

ghost use Rattle.std.specs.Prelude.{◌≡◌, Bool, ◌+◌, ◌<◌, ◌≤◌, ℕ, List, length, false, None, Some, true, IfSome, slice_index};
ghost use Rattle.cover_problem.specs.Branching.{branch_item};
ghost use Rattle.cover_problem.specs.Prefix.{is_covered, is_prefix};
ghost use Rattle.cover_problem.specs.Problem.{IsProblem};
ghost use Rattle.cover_problem.specs.Search.{first, visits};
ghost use Rattle.choices.specs.Choices.{Choices};
ghost use Rattle.brancher.specs.Keeping.{AreBarren, AreKept, IsBarrenIn, IsEntered, IsNoteOf, IsPassed, IsTurned};
ghost use Rattle.brancher.specs.Stepping.{IsStep};
ghost use Rattle.brancher.specs.Visit.{IsVisit};

use crate::branching::put_prefix;
use crate::kept::Kept;
use crate::search_step::SearchStep;
use crate::visit::{Visit, visit_prefix};
use crate::watch::Watch;
use choices::Branching;

/// Puts a prefix in place of what is chosen, and visits it and what is below it; states that are kept are not visited
/// again.
pub(crate) fn visit_below_keeping<B: Branching, W: Watch>(
    state: &mut B,
    prefix: &[u16],
    fuel: u64,
    watch: &mut W,
    kept: &mut Kept,
) -> Visit
    requires prefix { is_prefix (B.choices state.old).problem prefix.now ≡ true }
    requires kept { AreKept (B.choices state.old).problem kept.old }
    ensures problem { (B.choices state.new).problem ≡ (B.choices state.old).problem }
    ensures lawful { IsProblem (B.choices state.old).problem }
    ensures visit { IsVisit (first (B.choices state.old).problem prefix.now)
        (visits (B.choices state.old).problem prefix.now) fuel prefix.now
        (B.choices state.new).chosen result }
    ensures stopped { (left : ℕ) → result ≡ Visit.Stopped left → W.may_stop ≡ true }
    ensures kept { AreKept (B.choices state.old).problem kept.new }
{
    // (for what the getter says: that the problem is lawful)
    state.problem();
    put_prefix(state, prefix);
    visit_keeping(state, fuel, watch, kept)
}

/// Visits the prefix that is chosen, and what is below it. The chosen options come back, or are the first cover.
fn visit_keeping<B: Branching, W: Watch>(
    state: &mut B,
    fuel: u64,
    watch: &mut W,
    kept: &mut Kept,
) -> Visit
    requires { AreKept (B.choices state.old).problem kept.old }
    ensures problem { (B.choices state.new).problem ≡ (B.choices state.old).problem }
    ensures visit { IsVisit (first (B.choices state.old).problem (B.choices state.old).chosen)
        (visits (B.choices state.old).problem (B.choices state.old).chosen) fuel
        (B.choices state.old).chosen (B.choices state.new).chosen result }
    ensures stopped { (left : ℕ) → result ≡ Visit.Stopped left → W.may_stop ≡ true }
    ensures kept { AreKept (B.choices state.old).problem kept.new }
{
    let base = state.chosen().len();
    let mut left = fuel;
    while left > 0 {
        match step(state, base, left, watch, kept) {
            SearchStep::On(rest) => left = rest,
            SearchStep::End(visit) => return visit,
        }
    }
    Visit::Spent
}

/// Goes on from the chosen options, at which something is left, to what comes next.
#[inline(always)]
fn step<B: Branching, W: Watch>(
    state: &mut B,
    base: usize,
    left: u64,
    watch: &mut W,
    kept: &mut Kept,
) -> SearchStep
    requires left { 0 < left }
    requires items { length (B.choices state.old).chosen
        ≤ base + length (B.choices state.old).branches }
    requires room { (B.choices state.old).problem.primary < length kept.old.entered }
    ensures room { length kept.new.entered ≡ length kept.old.entered }
    ensures step { (root : Choices) (fuel : ℕ) → base ≡ length root.chosen →
        AreBarren root.problem kept.old.states →
        IsEntered root fuel kept.old.entered (B.choices state.old) left →
        AreBarren root.problem kept.new.states
        × IsStep W.may_stop root fuel kept.new.entered left (B.choices state.new) result }
{
    // (for what the getter says: that the problem is lawful)
    state.problem();
    if kept.is_watch_due(watch) && watch.look(state.chosen(), left) {
        return SearchStep::End(Visit::Stopped(left));
    }
    if kept.is_beyond(state.chosen().len()) {
        return step_plainly(state, base, left, watch, kept);
    }
    let Some(item) = state.branch_item() else {
        return SearchStep::End(Visit::Found);
    };
    kept.made(1);
    let Some((rest, chosen)) = pass(state, item, left, kept) else {
        return SearchStep::End(Visit::Spent);
    };
    watch.made(1, rest);
    if chosen {
        SearchStep::On(rest)
    } else {
        turn(state, base, rest, kept)
    }
}

/// How many visits may be made until the next trial, or until the watch looks.
fn stretch<W: Watch>(watch: &W, kept: &Kept) -> u64
    ensures { 0 < result }
{
    // (one visit at least, else the search would make no progress)
    kept.until_trial().min(watch.wait().max(1))
}

/// Visits what is below the chosen options without a look for states, up to the next trial.
fn step_plainly<B: Branching, W: Watch>(
    state: &mut B,
    base: usize,
    left: u64,
    watch: &mut W,
    kept: &mut Kept,
) -> SearchStep
    requires left { 0 < left }
    requires items { length (B.choices state.old).chosen
        ≤ base + length (B.choices state.old).branches }
    requires room { (B.choices state.old).problem.primary < length kept.old.entered }
    ensures room { length kept.new.entered ≡ length kept.old.entered }
    ensures step { (root : Choices) (fuel : ℕ) → base ≡ length root.chosen →
        AreBarren root.problem kept.old.states →
        IsEntered root fuel kept.old.entered (B.choices state.old) left →
        AreBarren root.problem kept.new.states
        × IsStep W.may_stop root fuel kept.new.entered left (B.choices state.new) result }
{
    // (for what the getter says: that the problem is lawful)
    state.problem();
    let depth = state.chosen().len();
    let pause = left.saturating_sub(stretch(watch, kept));
    match visit_prefix(state, left, pause, watch) {
        Visit::Barren(rest) => {
            kept.made(left.saturating_sub(rest));
            turn(state, base, rest, kept)
        }
        // (this is the pause: a watch stops a visit only while more is left)
        Visit::Stopped(rest) if rest <= pause => {
            kept.made(left.saturating_sub(rest));
            // (the plain loop notes nothing, so from here on the notes are of prefixes that the search has left)
            kept.forget_from(depth);
            SearchStep::On(rest)
        }
        Visit::Stopped(rest) => {
            kept.made(left.saturating_sub(rest));
            SearchStep::End(Visit::Stopped(rest))
        }
        Visit::Found => SearchStep::End(Visit::Found),
        Visit::Spent => {
            kept.made(left);
            SearchStep::End(Visit::Spent)
        }
    }
}

/// Goes past the chosen options, whose branch item is given: to their first child, unless they have none or are known
/// to be barren. Answers how much is left then, and whether a child is chosen; none where it would be more than there
/// is.
#[inline(always)]
fn pass<B: Branching>(state: &mut B, item: u16, left: u64, kept: &mut Kept) -> Option<(u64, bool)>
    requires left { 0 < left }
    requires room { (B.choices state.old).problem.primary < length kept.old.entered }
    requires item { branch_item (B.choices state.old).problem (B.choices state.old).chosen
        ≡ Some item }
    requires named { item < length (B.choices state.old).problem.names }
    requires uncovered { is_covered (B.choices state.old).problem (B.choices state.old).chosen item
        ≡ false }
    ensures unchanged { IfSome result (λ passed. passed.1 ≡ false →
        B.choices state.new ≡ B.choices state.old) }
    ensures spent { result ≡ None → B.choices state.new ≡ B.choices state.old }
    ensures states { kept.new.states ≡ kept.old.states }
    ensures room { length kept.new.entered ≡ length kept.old.entered }
    ensures passed { (root : Choices) (fuel : ℕ) →
        AreBarren (B.choices state.old).problem kept.old.states →
        IsEntered root fuel kept.old.entered (B.choices state.old) left →
        IsPassed root fuel kept.new.entered (B.choices state.new) left result }
{
    // (for what the getter says: that the problem is lawful)
    state.problem();
    // (before its own visit is taken off, which is one of those that are kept with it)
    kept.note(state.chosen().len(), left);
    if let Some(count) = kept.look(state) {
        // (a search that makes these visits would be spent, too: kept states change no outcome)
        if count > left {
            return None;
        }
        return Some((left - count, false));
    }
    Some((left - 1, state.choose_first(item).is_some()))
}

/// Goes on from choices that are barren with all below, or ends where these were all.
#[inline(always)]
fn turn<B: Branching>(state: &mut B, base: usize, left: u64, kept: &mut Kept) -> SearchStep
    requires items { length (B.choices state.old).chosen
        ≤ base + length (B.choices state.old).branches }
    requires room { length (B.choices state.old).chosen < length kept.old.entered }
    ensures room { length kept.new.entered ≡ length kept.old.entered }
    ensures step { (root : Choices) (fuel before : ℕ) (may_stop : Bool) → base ≡ length root.chosen →
        left < before → AreBarren root.problem kept.old.states →
        IsBarrenIn root fuel kept.old.entered (B.choices state.old) left →
        AreBarren root.problem kept.new.states
        × IsStep may_stop root fuel kept.new.entered before (B.choices state.new) result }
{
    if turn_onward(state, base, left, kept) {
        SearchStep::On(left)
    } else {
        SearchStep::End(Visit::Barren(left))
    }
}

/// Takes choices back, the last one first, until one has an option that comes next, which is chosen in its place; what
/// is left is kept as barren. False where none has: then only the first `base` choices are left, which are never taken
/// back.
#[inline(always)]
fn turn_onward<B: Branching>(state: &mut B, base: usize, left: u64, kept: &mut Kept) -> bool
    requires items { length (B.choices state.old).chosen
        ≤ base + length (B.choices state.old).branches }
    requires room { length (B.choices state.old).chosen < length kept.old.entered }
    ensures entered { kept.new.entered ≡ kept.old.entered }
    ensures turned { (root : Choices) (fuel : ℕ) → base ≡ length root.chosen →
        AreBarren root.problem kept.old.states →
        IsBarrenIn root fuel kept.old.entered (B.choices state.old) left →
        AreBarren root.problem kept.new.states
        × IsTurned root fuel kept.old.entered left (B.choices state.new) result }
{
    while state.chosen().len() > base {
        if state.choose_next().is_some() {
            return true;
        }
        // (the choice is taken back now, so this is the prefix above it, all of whose children are barren)
        keep_barren(state, left, kept);
    }
    false
}

/// Keeps that there is no cover below the chosen options, and how many visits that took, where it is noted what was
/// left when they were come to, and unless the search is in its first visits.
#[inline(always)]
fn keep_barren<B: Branching>(state: &B, left: u64, kept: &mut Kept)
    requires { length (B.choices state.now).chosen < length kept.old.entered }
    ensures entered { kept.new.entered ≡ kept.old.entered }
    ensures barren { AreBarren (B.choices state.now).problem kept.old.states →
        first (B.choices state.now).problem (B.choices state.now).chosen ≡ None →
        IsNoteOf kept.old.entered (length (B.choices state.now).chosen)
        (visits (B.choices state.now).problem (B.choices state.now).chosen + left) →
        AreBarren (B.choices state.now).problem kept.new.states }
{
    // (for what the getter says: that the problem is lawful)
    state.problem();
    if kept.is_early() {
        return;
    }
    if let Some(visits) = kept.since(state.chosen().len(), left) {
        kept.keep(state, visits);
    }
}
