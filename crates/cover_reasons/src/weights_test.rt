//! Whether weights exclude an exact cover.

ghost use Rattle.std.specs.Prelude.{◌≡◌, ℕ, ◌<◌, ◌%◌, List, [], length, true, None};
ghost use Rattle.std.specs.List.{sum_by, list_all};
ghost use Rattle.cover_problem.specs.Prefix.{IsBarren};
ghost use Rattle.cover_problem.specs.Problem.{option_numbers};
ghost use Rattle.cover_problem.specs.Search.{first};
ghost use Rattle.cover_reasons.specs.Weights.{excludes, is_zero, option_weight, whole_weight, weight_of};

use crate::laws::weights_exclude_covers;
use crate::weights::Weights;
use cover_problem::Problem;

/// What these items weigh together, modulo the modulus.
fn weight_of_items(weights: &Weights, items: &[u16]) -> u32
    ensures { result ≡ sum_by (weight_of weights.now) items.now % weights.now.modulus }
{
    let modulus = weights.modulus();
    let mut weight = 0;
    for item in items {
        // (reduced at each step, so the sum stays below 131,072 however many items there are)
        weight = (weight + u32::from(weights.of(*item))) % modulus;
    }
    weight
}

/// Returns what all items weigh together, modulo the modulus.
pub fn whole_weight(weights: &Weights) -> u32
    ensures { result ≡ whole_weight weights.now % weights.now.modulus }
{
    let modulus = weights.modulus();
    let mut whole = 0;
    for weight in weights.as_slice() {
        whole = (whole + u32::from(*weight)) % modulus;
    }
    whole
}

/// Returns whether an option weighs 0 modulo the modulus.
pub fn is_balanced(problem: &Problem, weights: &Weights, option: u16) -> bool
    requires { option < length problem.now.options }
    ensures { result ≡ is_zero weights.now (option_weight problem.now weights.now option) }
{
    weight_of_items(weights, problem.option(option)) == 0
}

/// Whether each option weighs 0.
fn are_balanced(problem: &Problem, weights: &Weights) -> bool
    ensures { result ≡ list_all (λ option. is_zero weights.now
        (option_weight problem.now weights.now option)) (option_numbers problem.now) }
{
    (0..problem.options() as u16).all(|option| is_balanced(problem, weights, option))
}

/// Whether they are weights of primary items, each option weighs 0, and all items together don't.
fn is_reason(problem: &Problem, weights: &Weights) -> bool
    ensures { result ≡ excludes problem.now weights.now }
{
    if weights.as_slice().len() > problem.primary() {
        return false;
    }
    if whole_weight(weights) == 0 {
        return false;
    }
    are_balanced(problem, weights)
}

/// Whether the weights show that the problem has no exact cover: primary items alone have weights, each option weighs 0
/// modulo the modulus, and all items together don't. Where they show it, no prefix has a cover, and a search finds
/// none.
///
/// It takes no memory, and time of the order of the options' items.
pub fn excludes(problem: &Problem, weights: &Weights) -> bool
    ensures excluded { result ≡ excludes problem.now weights.now }
    ensures barren { result ≡ true → (prefix : List ℕ) → IsBarren problem.now prefix }
    ensures none { result ≡ true → first problem.now [] ≡ None }
{
    weights_exclude_covers();
    problem.recall_rules();
    is_reason(problem, weights)
}
