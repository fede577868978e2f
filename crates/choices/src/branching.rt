//! Options that are chosen one after the other, and taken back.

ghost use Rattle.std.specs.Prelude.{◌≡◌, ℕ, ◌<◌, ◌≤◌, length, true, false, IfSome, IsTrue, slice_get};
ghost use Rattle.cover_problem.specs.Branching.{branch_item, IsOpen};
ghost use Rattle.cover_problem.specs.Onward.{live_options_from};
ghost use Rattle.cover_problem.specs.Prefix.{is_covered, is_live, is_prefix};
ghost use Rattle.cover_problem.specs.Problem.{IsProblem};
ghost use Rattle.choices.specs.Keys.{IsKey};
ghost use Rattle.choices.specs.Choices.{Choices, with_child, with_child_if, with_choice, IsChild, IsNextChoice};

use cover_problem::Problem;

/// The chosen options of a problem, over which a search branches on items: of an uncovered item each live option that
/// names it is chosen in turn (TAOCP 7.2.2.1). No call takes memory.
pub trait Branching: Drop {
    // (items are part of a state since links depend on them: the item of a choice was covered before the others of its
    // option)
    /// The problem, the chosen options, and the item by which each was chosen.
    ghost choices: { Self → Choices };

    /// The problem.
    fn problem(&self) -> &Problem
        ensures problem { result.now ≡ (choices self.now).problem }
        ensures lawful { IsProblem (choices self.now).problem };

    /// The chosen options, in the order of the choices.
    fn chosen(&self) -> &[u16]
        ensures chosen { result.now ≡ (choices self.now).chosen }
        ensures prefix { is_prefix (choices self.now).problem (choices self.now).chosen ≡ true };

    /// The uncovered primary item with fewest live options, the first of those; none where all are covered.
    fn branch_item(&self) -> Option<u16>
        ensures item { result ≡ branch_item (choices self.now).problem (choices self.now).chosen }
        ensures uncovered { IfSome result
            (IsOpen (choices self.now).problem (choices self.now).chosen) }
        ensures named { IfSome result
            (λ item. item < length (choices self.now).problem.names) };

    /// How many words a key has: at most 1,024; 0 where there are no keys.
    fn key_words(&self) -> usize
        ensures { result ≤ 1024 };

    /// Writes the key of the chosen options into the words, if there are as many as a key has and the branch item, if
    /// there is one, has a live option. Answers whether it did. Below prefixes with equal keys the search is the same.
    fn write_key(&self, words: &mut [u64]) -> bool
        ensures { IsTrue result → IsKey (choices self.now).problem
            (choices self.now).chosen words.new };

    /// Chooses a live option, by its first primary item.
    fn choose(&mut self, option: u16)
        requires option { option < length (choices self.old).problem.options }
        requires live { is_live (choices self.old).problem (choices self.old).chosen option ≡ true }
        ensures { choices self.new ≡ with_choice (choices self.old) option };

    /// Chooses the first live option that names an uncovered item, by that item. Answers the option; where there is
    /// none, nothing changes.
    fn choose_first(&mut self, item: u16) -> Option<u16>
        requires item { item < length (choices self.old).problem.names }
        requires uncovered { is_covered (choices self.old).problem (choices self.old).chosen item
            ≡ false }
        ensures first { result ≡ slice_get
            (live_options_from (choices self.old).problem (choices self.old).chosen item 0) 0 }
        ensures child { IfSome result
            (IsChild (choices self.old).problem (choices self.old).chosen item) }
        ensures chosen { choices self.new ≡ with_child_if (choices self.old) item result };

    // (one call, not an undo and a choice: so by links the item is covered once for all its options)
    /// Chooses, in place of the option that was chosen last, the next one that was live and names the item by which
    /// that one was chosen. Answers the option; where none follows, the choice is taken back.
    fn choose_next(&mut self) -> Option<u16>
        requires { 0 < length (choices self.old).chosen }
        ensures { (before : Choices) (item option : ℕ) →
            choices self.old ≡ with_child before item option →
            IsNextChoice before item option result (choices self.new) };

    /// Takes the last choice back, and answers it.
    fn undo(&mut self) -> u16
        requires { 0 < length (choices self.old).chosen }
        ensures { (item : ℕ) × (choices self.old ≡ with_child (choices self.new) item result) };
}
