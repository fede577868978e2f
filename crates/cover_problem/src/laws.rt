//! What holds of the definitions: each function is a law, and does nothing.

ghost use Rattle.std.specs.Prelude.{◌≡◌, ℕ, ◌+◌, ◌<◌, ◌≤◌, List, [], ◌∷◌, length, count_by, Bool, true, false, Option, Some, None};
ghost use Rattle.std.specs.List.{AllByRecursion, list_any};
ghost use Rattle.cover_problem.specs.Problem.{IsProblem, Problem as ProblemValue, items_of, names_item};
ghost use Rattle.cover_problem.specs.Numbers.{is_in, is_distinct};
ghost use Rattle.cover_problem.specs.declared.limits.TheConstants.{MOST_ITEMS};
ghost use Rattle.cover_problem.specs.ExactCover.{IsExactCover, uses, in_order};
ghost use Rattle.cover_problem.specs.Prefix.{IsBarren, is_prefix, agree, clash, is_covered, is_live, extends, InFileOrder, IsCoverOver};
ghost use Rattle.cover_problem.specs.Alike.{AreAlike, AreAsLive, IsAlive, followed_by};
ghost use Rattle.cover_problem.specs.Branching.{branch_item, children, is_choice, IsOpen, IsFirstFewest};
ghost use Rattle.cover_problem.specs.Search.{first_some, visits_until, first, visits, outcome, Covers, Barren, Spent};
ghost use Rattle.cover_problem.specs.Examples.{small, coloured};

// (the bodies are empty: the prover finds each proof by the name of its law, and a call of a law brings in its clauses
// at no cost)
/// The branch item is the uncovered primary item with fewest live options, and the first of those. A prefix without one
/// is complete.
pub fn branch_item_is_first_fewest()
    ensures item { (problem : ProblemValue) (prefix : List ℕ) (item : ℕ) →
        branch_item problem prefix ≡ Some item → IsFirstFewest problem prefix item }
    ensures complete { (problem : ProblemValue) (prefix : List ℕ) (item : ℕ) →
        branch_item problem prefix ≡ None → IsOpen problem prefix item → ⊥ }
{}

/// First and visits by those of the children, with no bound.
pub fn search_by_children()
    ensures complete { (problem : ProblemValue) (prefix : List ℕ) →
        branch_item problem prefix ≡ None → first problem prefix ≡ Some prefix }
    ensures first { (problem : ProblemValue) (prefix : List ℕ) (item : ℕ) →
        branch_item problem prefix ≡ Some item → first problem prefix
        ≡ first_some (first problem) (children problem prefix) }
    ensures visits { (problem : ProblemValue) (prefix : List ℕ) →
        visits problem prefix ≡ 1 + visits_until (first problem) (visits problem)
        (children problem prefix) }
{}

/// Prefixes at which the same options are live and the same primary items uncovered are searched alike: by as many
/// visits, to no cover or to one that puts the same options behind both.
pub fn alike_prefixes_are_searched_alike()
    ensures visits { (problem : ProblemValue) (prefix other : List ℕ) →
        AreAlike problem prefix other → visits problem prefix ≡ visits problem other }
    ensures first { (problem : ProblemValue) (prefix other : List ℕ) →
        AreAlike problem prefix other → (rest : Option (List ℕ))
        × (first problem prefix ≡ followed_by prefix rest)
        × (first problem other ≡ followed_by other rest) }
    ensures barren { (problem : ProblemValue) (prefix other : List ℕ) →
        AreAlike problem prefix other → first problem prefix ≡ None → first problem other ≡ None }
{}

/// Where each uncovered primary item has a live option, the live options tell which ones are uncovered. Each has one
/// where the branch item does.
pub fn live_options_tell_what_is_uncovered()
    ensures alike { (problem : ProblemValue) (prefix other : List ℕ) →
        AreAsLive problem prefix other → IsAlive problem prefix → IsAlive problem other →
        AreAlike problem prefix other }
    ensures alive { (problem : ProblemValue) (prefix : List ℕ) (item option : ℕ) →
        branch_item problem prefix ≡ Some item → option < length problem.options →
        is_choice problem prefix item option ≡ true → IsAlive problem prefix }
{}

/// Where all items are primary, the uncovered ones tell which options are live.
pub fn uncovered_items_tell_what_is_live()
    ensures { (problem : ProblemValue) (prefix other : List ℕ) → IsProblem problem →
        problem.primary ≡ length problem.names →
        ((item : ℕ) → item < problem.primary →
        is_covered problem prefix item ≡ is_covered problem other item) →
        AreAlike problem prefix other }
{}

/// What a search finds is an exact cover that extends the prefix, and where it finds none there is none.
pub fn first_is_an_exact_cover()
    ensures found { (problem : ProblemValue) (prefix cover : List ℕ) →
        is_prefix problem prefix ≡ true → first problem prefix ≡ Some cover →
        IsCoverOver problem prefix cover }
    ensures barren { (problem : ProblemValue) (prefix : List ℕ) →
        first problem prefix ≡ None → IsBarren problem prefix }
{}

/// Each exact cover that extends a prefix extends exactly one child of it.
pub fn one_child_of_each_cover()
    ensures { (problem : ProblemValue) (chosen : ℕ → Bool) (prefix : List ℕ) (item : ℕ) →
        IsExactCover problem chosen →
        extends chosen prefix ≡ true → branch_item problem prefix ≡ Some item →
        count_by (extends chosen) (children problem prefix) ≡ 1 }
{}

/// Two options of an exact cover do not clash.
pub fn covers_have_no_clash()
    ensures { (problem : ProblemValue) (chosen : ℕ → Bool) (o p : ℕ) → IsExactCover problem chosen →
        chosen o ≡ true → chosen p ≡ true → (o ≡ p → ⊥) → clash problem o p ≡ false }
{}

/// A live option names no covered primary item. An option is live exactly where it agrees with each option of the
/// prefix on every item that both name.
pub fn live_options_agree()
    ensures primary { (problem : ProblemValue) (prefix : List ℕ) (option item : ℕ) →
        is_live problem prefix option ≡ true → item < problem.primary →
        names_item problem option item ≡ true → is_covered problem prefix item ≡ false }
    ensures agree { (problem : ProblemValue) (prefix : List ℕ) (option chosen item : ℕ) →
        is_live problem prefix option ≡ true → is_in prefix chosen ≡ true →
        names_item problem chosen item ≡ true → names_item problem option item ≡ true →
        agree problem chosen option item ≡ true }
    ensures live { (problem : ProblemValue) (prefix : List ℕ) (option : ℕ) →
        ((chosen item : ℕ) → is_in prefix chosen ≡ true → names_item problem chosen item ≡ true →
        names_item problem option item ≡ true → agree problem chosen option item ≡ true) →
        is_live problem prefix option ≡ true }
{}

/// Without colours two options clash where they have an item in common, and an exact cover names no item twice.
pub fn without_colours()
    ensures clash { (problem : ProblemValue) (o p : ℕ) → IsProblem problem →
        length problem.colour_names ≡ 0 → o < length problem.options →
        clash problem o p ≡ list_any (λ item. names_item problem p item) (items_of problem o) }
    ensures once { (problem : ProblemValue) (chosen : ℕ → Bool) (item : ℕ) → IsProblem problem →
        length problem.colour_names ≡ 0 → IsExactCover problem chosen →
        uses problem chosen item ≤ 1 }
{}

/// How often a list without repeats names an item is how often its set does.
pub fn uses_of_a_list()
    ensures { (problem : ProblemValue) (options : List ℕ) (item : ℕ) → is_distinct options ≡ true →
        ((o : ℕ) → is_in options o ≡ true → o < length problem.options) →
        uses problem (is_in options) item ≡ count_by (λ o. names_item problem o item) options }
{}

/// The options of a list, taken in file order, are in file order, and none of them stands there twice.
pub fn in_order_is_in_file_order()
    ensures { (problem : ProblemValue) (options : List ℕ) →
        InFileOrder problem (in_order problem options) }
{}

/// A prefix has no more options than there are primary items, which are at most 1,000.
pub fn prefixes_are_short()
    ensures { (problem : ProblemValue) (prefix : List ℕ) →
        IsProblem problem → is_prefix problem prefix ≡ true → length prefix ≤ MOST_ITEMS }
{}

/// The children of a prefix are prefixes.
pub fn children_are_prefixes()
    ensures { (problem : ProblemValue) (prefix : List ℕ) → is_prefix problem prefix ≡ true →
        AllByRecursion (λ child. is_prefix problem child ≡ true) (children problem prefix) }
{}

/// What a search finds is a prefix, and has an option: there is a primary item to cover.
pub fn first_is_a_prefix()
    ensures prefix { (problem : ProblemValue) (prefix cover : List ℕ) →
        is_prefix problem prefix ≡ true →
        first problem prefix ≡ Some cover → is_prefix problem cover ≡ true }
    ensures some { (problem : ProblemValue) (prefix cover : List ℕ) → IsProblem problem →
        is_prefix problem prefix ≡ true → first problem prefix ≡ Some cover → 1 ≤ length cover }
{}

/// The search of a small problem.
pub fn small_search()
    ensures first { first small [] ≡ Some (3 ∷ 4 ∷ 0 ∷ []) }
    ensures visits { visits small [] ≡ 6 }
    ensures found { outcome small [] 6 ≡ Covers (3 ∷ 4 ∷ 0 ∷ []) }
    ensures spent { outcome small [] 5 ≡ Spent }
{}

/// The search of a small problem with colours: of the two options that could come first, one leads nowhere, since the
/// option that is then left gives an item another colour; the other leads to the cover, whose options share a colour.
pub fn coloured_search()
    ensures problem { IsProblem coloured }
    ensures barren { first coloured (0 ∷ []) ≡ None }
    ensures first { first coloured [] ≡ Some (3 ∷ 1 ∷ []) }
    ensures visits { visits coloured [] ≡ 4 }
{}
