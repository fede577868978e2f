//! Short lists inside public types, which contracts see as lists.

ghost use Rattle.std.specs.Prelude.{◌≡◌, ℕ, List, length, IfOk};
ghost use Rattle.std.proofs.Common.{rules};
ghost use Rattle.std.specs.Cmp.Rules.{comparing};

use std::alloc::AllocError;
use std::marker::Model;

/// The name of an item: its bytes, as they stand in the file.
#[derive(Debug, Drop)]
pub struct Name {
    // (in a contract a bare list is seen with its pointer and its room, so no copy would equal it)
    bytes: Vec<u8>,
}

impl Model for Name {
    ghost Value = { List ℕ };

    ghost view = { λ n. n.bytes.items };
}

impl PartialEq for Name {
    ghost use Rattle.std.specs.Prelude.{nat_eq};
    ghost use Rattle.std.specs.Cmp.Lexicographic.{pointwise};

    ghost eq = { λ a b. pointwise nat_eq a b };

    ghost laws = { Prim.search (comparing, rules) };

    fn eq(&self, other: &Name) -> bool {
        self.bytes.as_slice() == other.bytes.as_slice()
    }
}

impl Eq for Name {
    ghost laws = { Prim.search (comparing, rules) };
}

impl Clone for Name {
    ghost is_clone = { λ a b. a ≡ b };

    fn clone(&self) -> Result<Self, AllocError> {
        let bytes = self.bytes.clone()?;
        Ok(Name { bytes })
    }
}

impl Name {
    /// The name with these bytes.
    pub fn from_vec(bytes: Vec<u8>) -> Name
        ensures { result ≡ bytes.items }
    {
        Name { bytes }
    }

    /// Its bytes, as a list of the caller's.
    pub fn into_vec(self) -> Vec<u8>
        ensures { result.items ≡ self }
    {
        let Name { bytes } = self;
        bytes
    }

    /// Its bytes.
    pub fn as_slice(&self) -> &[u8]
        ensures { result.now ≡ self.now }
    {
        &self.bytes
    }

    /// An equal name; the only error is out of memory.
    pub fn copy(&self) -> Result<Name, AllocError>
        ensures { IfOk result (λ name. name ≡ self.now) }
    {
        self.clone()
    }
}

/// Numbers of items or of options, counted from 0.
#[derive(Debug, Drop)]
pub struct Numbers {
    numbers: Vec<u16>,
}

impl Model for Numbers {
    ghost Value = { List ℕ };

    ghost view = { λ n. n.numbers.items };
}

impl PartialEq for Numbers {
    ghost use Rattle.std.specs.Prelude.{nat_eq};
    ghost use Rattle.std.specs.Cmp.Lexicographic.{pointwise};

    ghost eq = { λ a b. pointwise nat_eq a b };

    ghost laws = { Prim.search (comparing, rules) };

    fn eq(&self, other: &Numbers) -> bool {
        self.numbers.as_slice() == other.numbers.as_slice()
    }
}

impl Eq for Numbers {
    ghost laws = { Prim.search (comparing, rules) };
}

impl Clone for Numbers {
    ghost is_clone = { λ a b. a ≡ b };

    fn clone(&self) -> Result<Self, AllocError> {
        let numbers = self.numbers.clone()?;
        Ok(Numbers { numbers })
    }
}

impl Numbers {
    /// The list of these numbers.
    pub fn from_vec(numbers: Vec<u16>) -> Numbers
        ensures { result ≡ numbers.items }
    {
        Numbers { numbers }
    }

    /// The numbers, as a list of the caller's.
    pub fn into_vec(self) -> Vec<u16>
        ensures { result.items ≡ self }
    {
        let Numbers { numbers } = self;
        numbers
    }

    /// The numbers in their order.
    pub fn as_slice(&self) -> &[u16]
        ensures { result.now ≡ self.now }
    {
        &self.numbers
    }

    /// An equal list; the only error is out of memory.
    pub fn copy(&self) -> Result<Numbers, AllocError>
        ensures { IfOk result (λ numbers. numbers ≡ self.now) }
    {
        self.clone()
    }
}
