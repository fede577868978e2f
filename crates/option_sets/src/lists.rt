//! A list of numbers inside a list, which contracts see as a list.

ghost use Rattle.std.specs.Prelude.{◌≡◌};

use std::marker::Model;

/// The tints of an option, place by place beside its items.
#[derive(Drop)]
pub struct Tints {
    // (32 bits: options have up to 200,000 items together, so there may be more pairs than 16 bits count)
    numbers: Vec<u32>,
}

impl Model for Tints {
    ghost use Rattle.std.specs.Prelude.{ℕ, List};

    ghost Value = { List ℕ };

    ghost view = { λ t. t.numbers.items };
}

impl Tints {
    /// The list of these numbers.
    pub fn from_vec(numbers: Vec<u32>) -> Tints
        ensures { result ≡ numbers.items }
    {
        Tints { numbers }
    }

    /// The numbers in their order.
    #[inline(always)]
    pub fn as_slice(&self) -> &[u32]
        ensures { result.now ≡ self.now }
    {
        &self.numbers
    }
}
