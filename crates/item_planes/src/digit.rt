//! One binary digit of all counts: bit `i` is that of item `i`.
//!
//! A half subtractor, 64 times side by side: the digit is the exclusive or with the borrow, and the next borrow is
//! where both are 1 then.

ghost use Rattle.std.specs.Prelude.{◌≡◌, ℕ, ◌+◌, ◌*◌, ◌<◌, ◌≤◌};
ghost use Rattle.std.specs.Int.{bit_at};
ghost use Rattle.item_planes.specs.Counts.{IsLeastDigit};

/// Takes a borrow from the digits; answers the digits, and the borrow from the next ones.
#[inline(always)]
pub fn lowered(digits: u64, borrow: u64) -> (u64, u64)
    ensures { (i : ℕ) → i < 64 → bit_at result.0 i + bit_at borrow i
        ≡ bit_at digits i + 2 * bit_at result.1 i }
{
    // (a digit that was 0 is 1 after a borrow, so the borrow goes on where both are 1: two instructions for 64 counts)
    let lower = digits ^ borrow;
    (lower, borrow & lower)
}

/// Of some items those whose digit is least, and this digit.
#[inline(always)]
pub fn least_digit(items: u64, digits: u64) -> (u64, u32)
    requires { 1 ≤ items }
    ensures { IsLeastDigit items digits result.0 result.1 }
{
    let zeros = items & !digits;
    if zeros != 0 { (zeros, 0) } else { (items, 1) }
}
