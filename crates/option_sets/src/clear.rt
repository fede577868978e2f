//! How options leave a set, word by word.

ghost use Rattle.std.specs.Prelude.{◌≡◌, ℕ, ◌<◌, length, not, ◌&&◌};
ghost use Rattle.std.specs.List.{All};
ghost use Rattle.std.specs.List.Sorted.{IsStrictlyIncreasing};
ghost use Rattle.option_sets.specs.Sets.{has, row_has, places};
ghost use Rattle.option_sets.specs.Rows.{IsPart};

use crate::word::Word;

/// Takes the options of a row out of a set.
pub fn clear_row(set: &mut [u64], row: &[Word])
    requires { All (λ w. w.place < length set.old) row.now }
    ensures { (x : ℕ) → has set.new x ≡ (has set.old x && not (row_has row.now x)) }
{
    for word in row {
        set[word.place as usize] &= !word.bits;
    }
}

/// Takes the options of a row out of a set, but those of a second row, whose words stand at places of the first one's.
pub fn clear_row_but(set: &mut [u64], row: &[Word], kept: &[Word])
    requires inside { All (λ w. w.place < length set.old) row.now }
    requires row { IsStrictlyIncreasing (places row.now) }
    requires kept { IsStrictlyIncreasing (places kept.now) }
    requires part { IsPart kept.now row.now }
    ensures { (x : ℕ) → has set.new x
        ≡ (has set.old x && not (row_has row.now x && not (row_has kept.now x))) }
{
    // (places rise in both rows, and each of the second is one of the first: so one pass meets all words of both)
    let mut next = 0;
    for word in row {
        let place = word.place as usize;
        if next < kept.len() && kept[next].place == word.place {
            set[place] &= !(word.bits & !kept[next].bits);
            next += 1;
        } else {
            set[place] &= !word.bits;
        }
    }
}

/// Makes a set what two others have in common.
#[inline(always)]
pub fn meet(first: &[u64], second: &[u64], set: &mut [u64])
    requires first { length first.now ≡ length set.old }
    requires second { length second.now ≡ length set.old }
    ensures { (x : ℕ) → has set.new x ≡ (has first.now x && has second.now x) }
{
    for place in 0..set.len() {
        set[place] = first[place] & second[place];
    }
}
