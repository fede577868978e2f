//! The options that are left to be tried at an item: those of a word, and those of the words behind it.

ghost use Rattle.std.specs.Prelude.{◌≡◌, ◌≤◌, [], length, IsTrue};
ghost use Rattle.live_sets.specs.Trying.{AreBehind, IsTrying, IsBehind, IsFirstWord, IsNext, IsNextAt};

use option_sets::Word;

/// Options that name an item and are not tried yet, in file order: the lowest bits of a word first, then the words
/// behind it.
#[derive(Clone, Copy)]
pub struct Untried<'a> {
    /// Which word of the set.
    pub place: u16,
    /// Those of its options that are left, all of them live.
    pub bits: u64,
    /// The words behind it, of options that may be live or not.
    pub later: &'a [Word],
}

impl<'a> Untried<'a> {
    /// All options of a row.
    #[inline(always)]
    pub fn of_row(row: &'a [Word]) -> Untried<'a>
        ensures place { result.place ≡ 0 }
        ensures bits { result.bits ≡ 0 }
        ensures later { result.later.now ≡ row.now }
    {
        Untried {
            place: 0,
            bits: 0,
            later: row,
        }
    }

    /// Whether nothing is left.
    #[inline(always)]
    pub fn is_empty(&self) -> bool
        ensures bits { IsTrue result → self.now.bits ≡ 0 }
        ensures later { IsTrue result → self.now.later.now ≡ [] }
    {
        self.bits == 0 && self.later.is_empty()
    }

    /// The first option that is left and live, and those that are left behind it; none where none is.
    #[inline(always)]
    pub fn next(self, live: &[u64]) -> Option<(u16, Untried<'a>)>
        requires trying { IsTrying (length live.now) self }
        requires small { length live.now ≤ 1024 }
        ensures { IsNext self.entry live.now result }
    {
        if self.bits != 0 {
            return Some(self.lowest(live));
        }
        let word = first_word(self.later, live)?;
        Some(word.lowest(live))
    }

    /// The first option of the word, and those that are left behind it.
    #[inline(always)]
    fn lowest(self, live: &[u64]) -> (u16, Untried<'a>)
        requires trying { IsTrying (length live.now) self }
        requires some { 1 ≤ self.bits }
        requires small { length live.now ≤ 1024 }
        ensures { IsNextAt self.entry live.now result.0 result.1 }
    {
        // (the live options are a parameter for the contract alone)
        let bit = self.bits.trailing_zeros();
        let rest = Untried {
            place: self.place,
            bits: self.bits & !(1 << bit),
            later: self.later,
        };
        // (a set has at most 1,024 words, so the number has 16 bits)
        (self.place * 64 + bit as u16, rest)
    }
}

/// The first word of a row in which an option is live, without the other options of that word; none where there is
/// none.
pub fn first_word<'a>(row: &'a [Word], live: &[u64]) -> Option<Untried<'a>>
    requires { AreBehind (length live.now) row.now }
    ensures { IsFirstWord row.now live.now result }
{
    for index in 0..row.len() {
        let word = row[index];
        let bits = live[word.place as usize] & word.bits;
        if bits != 0 {
            return Some(Untried {
                place: word.place,
                bits,
                later: &row[index + 1..],
            });
        }
    }
    None
}

/// What is left of a row behind an option.
pub fn behind<'a>(row: &'a [Word], live: &[u64], option: u16) -> Untried<'a>
    requires row { AreBehind (length live.now) row.now }
    requires small { length live.now ≤ 1024 }
    ensures { IsBehind row.now live.now option result }
{
    let mut untried = Untried::of_row(row);
    // (each step goes on to a greater option, so there are no more steps than this)
    for _step in 0..usize::from(option) + 1 {
        match untried.next(live) {
            None => return untried,
            Some((next, rest)) => {
                if next > option {
                    return untried;
                }
                untried = rest;
            }
        }
    }
    untried
}
