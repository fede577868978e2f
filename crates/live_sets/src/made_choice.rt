//! What is kept of a choice.

ghost use Rattle.std.specs.Prelude.{◌≡◌};
ghost use Rattle.live_sets.specs.Rows.{untried_of};

use crate::untried::Untried;
use option_sets::Word;

/// A choice that was made: by which item, and what can be chosen in its place.
///
/// What can be chosen is held by its parts, beside the item: as a value of its own it would be padded, and each choice
/// writes one.
#[derive(Clone, Copy)]
pub struct MadeChoice<'a> {
    /// The item.
    pub item: u16,
    /// Which word of the item's set was reached.
    pub place: u16,
    /// Those of its options that come behind the one that is chosen, all of them live.
    pub bits: u64,
    /// The words behind it.
    pub later: &'a [Word],
}

impl<'a> MadeChoice<'a> {
    /// A choice by an item, of which it leaves some options.
    #[inline(always)]
    pub fn new(item: u16, untried: Untried<'a>) -> MadeChoice<'a>
        ensures item { result.item ≡ item }
        ensures untried { untried_of result ≡ untried.entry }
    {
        MadeChoice {
            item,
            place: untried.place,
            bits: untried.bits,
            later: untried.later,
        }
    }

    /// The options that name the item and come behind the one that is chosen.
    #[inline(always)]
    pub fn untried(&self) -> Untried<'a>
        ensures { result ≡ untried_of self.now }
    {
        Untried {
            place: self.place,
            bits: self.bits,
            later: self.later,
        }
    }
}
