//! What other searches of the problem found, kept as if this one had found it.

ghost use Rattle.std.specs.Prelude.{◌≡◌, None, ℕ, true};
ghost use Rattle.cover_problem.specs.Prefix.{is_prefix};
ghost use Rattle.cover_problem.specs.Search.{first, visits};
ghost use Rattle.brancher.specs.Keeping.{AreKept};

use crate::branching::put_prefix;
use crate::kept::Kept;
use choices::Branching;

/// Puts a prefix in place of what is chosen, below which there is no cover, and keeps that, and how many visits it
/// takes.
pub(crate) fn keep_shared<B: Branching>(state: &mut B, prefix: &[u16], count: u64, kept: &mut Kept)
    requires prefix { is_prefix (B.choices state.old).problem prefix.now ≡ true }
    requires barren { first (B.choices state.old).problem prefix.now ≡ None }
    requires count { visits (B.choices state.old).problem prefix.now ≡ count }
    requires kept { AreKept (B.choices state.old).problem kept.old }
    ensures problem { (B.choices state.new).problem ≡ (B.choices state.old).problem }
    ensures kept { AreKept (B.choices state.old).problem kept.new }
{
    // (for what the getter says: that the problem is lawful)
    state.problem();
    put_prefix(state, prefix);
    kept.keep(state, count);
}
