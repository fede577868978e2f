//! Prefixes with one option more.

ghost use Rattle.std.specs.Prelude.{◌≡◌, ◌++◌, ◌∷◌, []};
ghost use Rattle.cover_problem.specs.Prefix.{is_prefix};

use cover_problem::{Problem, is_live, is_prefix};

/// Whether the options are a prefix with this one behind them. It takes no memory.
pub(crate) fn is_longer(problem: &Problem, prefix: &[u16], option: u16) -> bool
    ensures { result ≡ is_prefix problem.now (prefix.now ++ option ∷ []) }
{
    if !is_prefix(problem, prefix) {
        return false;
    }
    // (what a packet has may be beyond the options of this problem)
    if problem.options() <= option as usize {
        return false;
    }
    is_live(problem, prefix, option)
}
