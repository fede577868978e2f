//! The counts of at most 64 items, each below 256.

ghost use Rattle.std.specs.Prelude.{◌≡◌, ℕ, ◌+◌, ◌*◌, ◌<◌, ◌≤◌, ◌↔◌, false, None, IfSome};
ghost use Rattle.std.specs.Int.{bit_at};
ghost use Rattle.item_planes.specs.Counts.{count_at, high_at, limit_of, low_at, part_at, IsLeast, IsNarrowed};

use crate::digit::{least_digit, lowered};
use crate::digits::Digits;

/// The counts of at most 64 items, each below 256, and which of the items are uncovered: bit `i` is that of item `i`.
#[derive(Clone, Copy)]
pub struct Planes {
    /// The items that are uncovered.
    pub uncovered: u64,
    /// The lowest digit of each count.
    pub ones: u64,
    /// The second one.
    pub twos: u64,
    /// The third one.
    pub fours: u64,
    /// The fourth one.
    pub eights: u64,
    /// The fifth one.
    pub sixteens: u64,
    /// The sixth one.
    pub thirty_twos: u64,
    /// The seventh one.
    pub sixty_fours: u64,
    /// The highest one.
    pub one_twenty_eights: u64,
}

impl Planes {
    /// These items are uncovered, and all counts are 255.
    #[inline(always)]
    pub fn full(uncovered: u64) -> Planes
        ensures uncovered { result.uncovered ≡ uncovered }
        ensures part { (digits : Digits) (i : ℕ) → i < 64 → part_at digits result i + 1
            ≡ limit_of digits }
        ensures counts { (i : ℕ) → i < 64 → count_at result i ≡ 255 }
    {
        Planes {
            uncovered,
            ones: u64::MAX,
            twos: u64::MAX,
            fours: u64::MAX,
            eights: u64::MAX,
            sixteens: u64::MAX,
            thirty_twos: u64::MAX,
            sixty_fours: u64::MAX,
            one_twenty_eights: u64::MAX,
        }
    }

    /// What each count lacks of 255.
    #[inline(always)]
    pub fn complement(&self) -> Planes
        ensures uncovered { result.uncovered ≡ self.now.uncovered }
        ensures counts { (i : ℕ) → i < 64 → count_at result i + count_at self.now i ≡ 255 }
    {
        // (255 has all eight digits, so what a count lacks of it has just the digits that the count has not)
        Planes {
            uncovered: self.uncovered,
            ones: !self.ones,
            twos: !self.twos,
            fours: !self.fours,
            eights: !self.eights,
            sixteens: !self.sixteens,
            thirty_twos: !self.thirty_twos,
            sixty_fours: !self.sixty_fours,
            one_twenty_eights: !self.one_twenty_eights,
        }
    }

    /// How many digits the counts have.
    #[inline(always)]
    pub fn digits(&self) -> Digits
        ensures { (i : ℕ) → i < 64 → count_at self.now i < limit_of result }
    {
        if self.thirty_twos | self.sixty_fours | self.one_twenty_eights != 0 {
            Digits::Eight
        } else if self.eights | self.sixteens != 0 {
            Digits::Five
        } else {
            Digits::Three
        }
    }

    /// Takes one from the counts of these items, none of which is 0 in so many of its lowest digits.
    #[inline(always)]
    pub fn take(&mut self, items: u64, digits: Digits)
        requires { (i : ℕ) → i < 64 → bit_at items i ≤ part_at digits self.old i }
        ensures uncovered { self.new.uncovered ≡ self.old.uncovered }
        ensures part { (i : ℕ) → i < 64 → part_at digits self.new i + bit_at items i
            ≡ part_at digits self.old i }
        ensures counts { (i : ℕ) → i < 64 → count_at self.new i + bit_at items i
            ≡ count_at self.old i }
    {
        let eight = self.take_three(items);
        match digits {
            // (the borrow is 0: none of these counts is 0 by its three lowest digits)
            Digits::Three => {}
            Digits::Five => {
                self.take_two(eight);
            }
            Digits::Eight => self.take_five(eight),
        }
    }

    /// Takes one from what the three lowest digits of these items count; answers the borrow from the next ones.
    #[inline(always)]
    fn take_three(&mut self, items: u64) -> u64
        ensures uncovered { self.new.uncovered ≡ self.old.uncovered }
        ensures eights { self.new.eights ≡ self.old.eights }
        ensures sixteens { self.new.sixteens ≡ self.old.sixteens }
        ensures thirty_twos { self.new.thirty_twos ≡ self.old.thirty_twos }
        ensures sixty_fours { self.new.sixty_fours ≡ self.old.sixty_fours }
        ensures one_twenty_eights { self.new.one_twenty_eights ≡ self.old.one_twenty_eights }
        ensures part { (i : ℕ) → i < 64 → low_at self.new i + bit_at items i
            ≡ low_at self.old i + 8 * bit_at result i }
    {
        let (ones, two) = lowered(self.ones, items);
        let (twos, four) = lowered(self.twos, two);
        let (fours, eight) = lowered(self.fours, four);
        self.ones = ones;
        self.twos = twos;
        self.fours = fours;
        eight
    }

    /// Takes a borrow from the fourth and fifth digit; answers the borrow from the next ones.
    #[inline(always)]
    fn take_two(&mut self, eight: u64) -> u64
        ensures uncovered { self.new.uncovered ≡ self.old.uncovered }
        ensures ones { self.new.ones ≡ self.old.ones }
        ensures twos { self.new.twos ≡ self.old.twos }
        ensures fours { self.new.fours ≡ self.old.fours }
        ensures thirty_twos { self.new.thirty_twos ≡ self.old.thirty_twos }
        ensures sixty_fours { self.new.sixty_fours ≡ self.old.sixty_fours }
        ensures one_twenty_eights { self.new.one_twenty_eights ≡ self.old.one_twenty_eights }
        ensures part { (i : ℕ) → i < 64 → high_at Digits.Five self.new i + bit_at eight i
            ≡ high_at Digits.Five self.old i + 4 * bit_at result i }
    {
        let (eights, sixteen) = lowered(self.eights, eight);
        let (sixteens, thirty_two) = lowered(self.sixteens, sixteen);
        self.eights = eights;
        self.sixteens = sixteens;
        thirty_two
    }

    /// Takes a borrow from all digits above the third, which count as much.
    #[inline(always)]
    fn take_five(&mut self, eight: u64)
        requires { (i : ℕ) → i < 64 → bit_at eight i ≤ high_at Digits.Eight self.old i }
        ensures uncovered { self.new.uncovered ≡ self.old.uncovered }
        ensures ones { self.new.ones ≡ self.old.ones }
        ensures twos { self.new.twos ≡ self.old.twos }
        ensures fours { self.new.fours ≡ self.old.fours }
        ensures part { (i : ℕ) → i < 64 → high_at Digits.Eight self.new i + bit_at eight i
            ≡ high_at Digits.Eight self.old i }
    {
        let thirty_two = self.take_two(eight);
        let (thirty_twos, sixty_four) = lowered(self.thirty_twos, thirty_two);
        let (sixty_fours, one_twenty_eight) = lowered(self.sixty_fours, sixty_four);
        let (one_twenty_eights, _) = lowered(self.one_twenty_eights, one_twenty_eight);
        self.thirty_twos = thirty_twos;
        self.sixty_fours = sixty_fours;
        self.one_twenty_eights = one_twenty_eights;
    }

    /// Covers these items. The counts stay.
    #[inline(always)]
    pub fn cover(&mut self, items: u64)
        ensures uncovered { (i : ℕ) → i < 64 → (bit_at self.new.uncovered i ≡ 1)
            ↔ ((bit_at self.old.uncovered i ≡ 1) × (bit_at items i ≡ 0)) }
        ensures counts { (i : ℕ) → i < 64 → count_at self.new i ≡ count_at self.old i }
    {
        self.uncovered &= !items;
    }

    /// The uncovered item with the least count, the first of those, and its count, which has so many digits; none where
    /// all items are covered.
    #[inline(always)]
    pub fn least(&self, digits: Digits) -> Option<(u32, u32)>
        requires { (i : ℕ) → i < 64 → bit_at self.now.uncovered i ≡ 1
            → count_at self.now i < limit_of digits }
        ensures none { result ≡ None → self.now.uncovered ≡ 0 }
        ensures least { IfSome result (λ least. IsLeast self.now least.0 least.1) }
    {
        if self.uncovered == 0 {
            return None;
        }
        let (items, high) = self.least_high(self.uncovered, digits);
        let (items, four) = least_digit(items, self.fours);
        let (items, two) = least_digit(items, self.twos);
        let (items, one) = least_digit(items, self.ones);
        Some((items.trailing_zeros(), 8 * high + 4 * four + 2 * two + one))
    }

    /// Of some items those with the least count by the digits above the third, and what these digits count of eights.
    #[inline(always)]
    fn least_high(&self, items: u64, digits: Digits) -> (u64, u32)
        requires { 1 ≤ items }
        ensures few { result.1 < 32 }
        ensures least { IsNarrowed items (high_at digits self.now) result.0 result.1 }
    {
        match digits {
            Digits::Three => (items, 0),
            Digits::Five => self.least_two(items, 0),
            Digits::Eight => self.least_five(items),
        }
    }

    /// Of items whose counts have these higher digits those with the least count, and this count, by the fourth and
    /// fifth digit.
    #[inline(always)]
    fn least_two(&self, items: u64, high: u32) -> (u64, u32)
        requires some { 1 ≤ items }
        requires high { high < 8 }
        ensures few { result.1 < 4 * high + 4 }
        ensures least { (all : ℕ) (number : ℕ → ℕ) → IsNarrowed all number items high
            → IsNarrowed all (λ i. 4 * number i + high_at Digits.Five self.now i) result.0 result.1 }
    {
        let (items, sixteen) = least_digit(items, self.sixteens);
        let (items, eight) = least_digit(items, self.eights);
        (items, 4 * high + 2 * sixteen + eight)
    }

    /// The same by all digits above the third.
    #[inline(always)]
    fn least_five(&self, items: u64) -> (u64, u32)
        requires { 1 ≤ items }
        ensures few { result.1 < 32 }
        ensures least { IsNarrowed items (high_at Digits.Eight self.now) result.0 result.1 }
    {
        let (items, one_twenty_eight) = least_digit(items, self.one_twenty_eights);
        let (items, sixty_four) = least_digit(items, self.sixty_fours);
        let (items, thirty_two) = least_digit(items, self.thirty_twos);
        self.least_two(items, 4 * one_twenty_eight + 2 * sixty_four + thirty_two)
    }
}
