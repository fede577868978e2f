//! Of each option the set of those that it leaves.

ghost use Rattle.std.specs.Prelude.{◌≡◌, ◌*◌, ◌-◌, ◌^◌, length, IfOk};
ghost use Rattle.std.specs.List.{All};
ghost use Rattle.option_sets.specs.Sets.{words_of};
ghost use Rattle.option_sets.specs.ClashTables.{AreKept, AreAllKept};

use crate::clash_tables::ClashTables;
use std::alloc::{AllocError, Global};

/// Of a problem with more options than this no such sets are kept: they would take more than 8 MB, a bit for each pair
/// of options. Chosen, not measured.
const MOST_KEPT: usize = 8192;

/// Of each option the set of those that it leaves, one behind the other, or of a large problem an empty list. The only
/// error is out of memory.
pub fn kept_sets(alloc: Global, tables: &ClashTables) -> Result<Vec<u64>, AllocError>
    ensures { IfOk result (λ kept. AreKept tables.now kept.items) }
{
    let options = tables.problem().options();
    if options > MOST_KEPT {
        return Ok(Vec::new(alloc));
    }
    // (bits past the last option stay: a kept set is only met with live options, which never have them)
    let mut kept = vec![in alloc; u64::MAX; options * tables.words()]?;
    bar_each(tables, &mut kept);
    Ok(kept)
}

/// Makes the sets of all options, one behind the other and each full, what each option leaves.
fn bar_each(tables: &ClashTables, sets: &mut [u64])
    requires long { length sets.old ≡ length tables.now.options * words_of tables.now }
    requires full { All (λ word. word ≡ 2 ^ 64 - 1) sets.old }
    ensures { AreAllKept tables.now sets.new }
{
    let words = tables.words();
    for option in 0..tables.problem().options() {
        let start = option * words;
        tables.bar(option as u16, &mut sets[start..start + words]);
    }
}
