//! The registry's view of membership, as a Members packet carries it: the number of node n is at index n - 1, and the
//! registry, which never restarts, isn't in it. It is a struct over a list, and not a list, since a contract sees of a
//! bare one its address and capacity, too.

ghost use Rattle.std.specs.Prelude.{◌≡◌, ℕ, List, IfOk};
ghost use Rattle.std.proofs.Common.{rules};
ghost use Rattle.std.specs.Cmp.Rules.{comparing};

use std::alloc::AllocError;
use std::marker::Model;

/// Incarnations of the nodes from 1 on, in their order.
#[derive(Debug, Drop)]
pub struct Incarnations {
    numbers: Vec<u32>,
}

impl Model for Incarnations {
    ghost Value = { List ℕ };

    ghost view = { λ i. i.numbers.items };
}

impl PartialEq for Incarnations {
    ghost use Rattle.std.specs.Prelude.{nat_eq};
    ghost use Rattle.std.specs.Cmp.Lexicographic.{pointwise};

    ghost eq = { λ a b. pointwise nat_eq a b };

    ghost laws = { Prim.search (comparing, rules) };

    fn eq(&self, other: &Incarnations) -> bool {
        self.numbers.as_slice() == other.numbers.as_slice()
    }
}

impl Eq for Incarnations {
    ghost laws = { Prim.search (comparing, rules) };
}

impl Clone for Incarnations {
    ghost is_clone = { λ a b. a ≡ b };

    fn clone(&self) -> Result<Self, AllocError> {
        let numbers = self.numbers.clone()?;
        Ok(Incarnations { numbers })
    }
}

impl Incarnations {
    /// The list of these incarnations.
    pub fn from_vec(numbers: Vec<u32>) -> Incarnations
        ensures { result ≡ numbers.items }
    {
        Incarnations { numbers }
    }

    /// The incarnations, as a list of the caller's.
    pub fn into_vec(self) -> Vec<u32>
        ensures { result.items ≡ self }
    {
        let Incarnations { numbers } = self;
        numbers
    }

    /// The incarnations in their order.
    pub fn as_slice(&self) -> &[u32]
        ensures { result.now ≡ self.now }
    {
        &self.numbers
    }

    /// An equal list; the only error is out of memory.
    pub fn copy(&self) -> Result<Incarnations, AllocError>
        ensures { IfOk result (λ copied. copied ≡ self.now) }
    {
        self.clone()
    }
}
