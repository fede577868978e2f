//! Whether a case has no more live options than another one, those counted that name some items.

ghost use Rattle.std.specs.Prelude.{◌≡◌, ℕ, true, length};
ghost use Rattle.cover_problem.specs.Problem.{names_item};
ghost use Rattle.option_sets.specs.Sets.{has};
ghost use Rattle.cover_certificates.specs.Cases.{has_item};

use crate::items::Items;
use crate::tables::Tables;
use crate::words::is_row_spared;

/// Returns whether each option that names one of the items and is live is in another set, too.
pub(crate) fn are_spared(tables: &Tables, items: &Items, live: &[u64], other: &[u64]) -> bool
    requires { length items.now ≡ tables.now.primary }
    ensures { result ≡ true → (i x : ℕ) → has_item items.now i ≡ true →
        names_item tables.now x i ≡ true → has live.now x ≡ true → has other.now x ≡ true }
{
    for item in 0..tables.primary() as u16 {
        if items.has(item) && !is_row_spared(tables.sets().row(item), live, other) {
            return false;
        }
    }
    true
}
