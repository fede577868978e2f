//! Children of one parent that are given together.

ghost use Rattle.std.specs.Prelude.{◌≡◌, IfOk};

use crate::site::Attempt;
use std::alloc::AllocError;
use std::marker::Model;

/// How many children may be given together, prescribed by the protocol: with them the longest packet has 2,095 bytes
/// (`packet_wire`). Chosen, not measured.
pub const MOST_SIBLINGS: usize = 8;

/// An own child that is given with others of its parent.
#[derive(Clone, Copy, Debug, PartialEq, Eq)]
pub struct Sibling {
    /// Its serial number.
    pub serial: u32,
    /// Its attempt, from 1.
    pub attempt: Attempt,
    /// The option that its prefix has behind its parent's.
    pub option: u16,
}

// (no bare Vec: a contract sees that with its pointer and capacity, so no copy of it would be equal)
/// Children of one parent, in the order in which they are given.
#[derive(Debug, Drop)]
pub struct Siblings {
    items: Vec<Sibling>,
}

impl Model for Siblings {
    ghost use Rattle.std.specs.Prelude.{List};
    ghost use Rattle.spawn_frame.specs.declared.siblings.Sibling.{Sibling as SiblingValue};

    ghost Value = { List SiblingValue };

    ghost view = { λ s. s.items.items };
}

impl PartialEq for Siblings {
    ghost use Rattle.std.specs.Prelude.{nat_eq};
    ghost use Rattle.std.specs.Cmp.{and_per, nat_eq_equiv, on_per, partial_equiv_from_equiv};
    ghost use Rattle.std.specs.Ordering.{eq_of_both, on};
    ghost use Rattle.std.specs.Cmp.Lexicographic.{lists_per, pointwise};

    ghost eq = { pointwise (eq_of_both (on (λ s. s.serial) nat_eq)
        (eq_of_both (on (λ s. s.attempt) nat_eq) (on (λ s. s.option) nat_eq))) };

    ghost laws = { lists_per (and_per (on_per (λ s. s.serial) (partial_equiv_from_equiv nat_eq_equiv))
        (and_per (on_per (λ s. s.attempt) (partial_equiv_from_equiv nat_eq_equiv))
        (on_per (λ s. s.option) (partial_equiv_from_equiv nat_eq_equiv)))) };

    fn eq(&self, other: &Siblings) -> bool {
        self.items.as_slice() == other.items.as_slice()
    }
}

impl Eq for Siblings {
    ghost use Rattle.std.specs.Cmp.{and_equiv, nat_eq_equiv, on_equiv};
    ghost use Rattle.std.specs.Cmp.Lexicographic.{lists_equiv};

    ghost laws = { lists_equiv (and_equiv (on_equiv (λ s. s.serial) nat_eq_equiv)
        (and_equiv (on_equiv (λ s. s.attempt) nat_eq_equiv)
        (on_equiv (λ s. s.option) nat_eq_equiv))) };
}

impl Clone for Siblings {
    ghost is_clone = { λ a b. a ≡ b };

    fn clone(&self) -> Result<Self, AllocError> {
        let items = self.items.clone()?;
        Ok(Siblings { items })
    }
}

impl Siblings {
    /// The list of these children.
    pub fn from_vec(items: Vec<Sibling>) -> Siblings
        ensures { result ≡ items.items }
    {
        Siblings { items }
    }

    /// The children in their order.
    pub fn as_slice(&self) -> &[Sibling]
        ensures { result.now ≡ self.now }
    {
        &self.items
    }

    /// An equal list; the only error is out of memory.
    pub fn copy(&self) -> Result<Siblings, AllocError>
        ensures { IfOk result (λ copied. copied ≡ self.now) }
    {
        self.clone()
    }
}
