//! A modulus, and a weight for each primary item.

ghost use Rattle.std.specs.Prelude.{◌≡◌, ◌<◌, ◌≤◌, length, slice_index_or};
ghost use Rattle.cover_reasons.specs.Weights.{weight_of};

use std::marker::Model;

/// The largest modulus: 2^16, so that weights below it have 16 bits.
pub const MOST_MODULUS: u32 = 65536;

/// A modulus of 2 to 65,536, and a weight for each of the first items.
#[derive(Debug, Drop)]
pub struct Weights {
    modulus: u32,
    list: Vec<u16>,
}

impl Model for Weights {
    ghost use Rattle.std.specs.Prelude.{◌≤◌};
    ghost use Rattle.cover_reasons.specs.Weights.{Weights as WeightsValue};

    ghost Value = { WeightsValue };

    ghost view = { λ w. record { modulus = w.modulus; list = w.list.items } };

    ghost invariant = { λ w. (2 ≤ w.modulus) × (w.modulus ≤ 65536) };
}

impl Weights {
    /// The weights of this list, in the order of the items, modulo this number.
    pub fn from_parts(modulus: u32, list: Vec<u16>) -> Weights
        requires least { 2 ≤ modulus }
        requires most { modulus ≤ 65536 }
        ensures { result ≡ record { modulus = modulus; list = list.items } }
    {
        Weights { modulus, list }
    }

    /// The modulus.
    pub fn modulus(&self) -> u32
        ensures modulus { result ≡ self.now.modulus }
        ensures least { 2 ≤ self.now.modulus }
        ensures most { self.now.modulus ≤ 65536 }
    {
        self.modulus
    }

    /// The weights, of the first items in their order.
    pub fn as_slice(&self) -> &[u16]
        ensures { result.now ≡ self.now.list }
    {
        &self.list
    }

    /// What an item weighs: nothing where it comes after those that have weights.
    pub fn of(&self, item: u16) -> u16
        ensures { result ≡ weight_of self.now item }
    {
        match self.list.get(item as usize) {
            Some(weight) => *weight,
            None => 0,
        }
    }
}
