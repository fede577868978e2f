//! MiniSat's numbering of literals (Eén and Sörensson): the sign is the lowest bit. So a literal is its own index in
//! lists by literals, and to negate it is one exclusive or.
//!
//! Sixteen bits are enough for 20,000 options, which make 40,000 literals. A stored literal takes two bytes, which is
//! what propagation reads.

use implied_clauses::Literal;

/// A literal in one number, by which lists are read: twice its option's number, and one more where the option is left
/// (MiniSat's form).
#[derive(Clone, Copy, PartialEq, Eq)]
pub struct Packed(u16);

impl Packed {
    /// The literal of no option.
    pub const NONE: Packed = Packed(u16::MAX);

    /// Returns the literal that says that the option is chosen.
    #[inline(always)]
    pub fn chosen(option: u16) -> Packed {
        // (a problem has 20,000 options at most, so nothing wraps)
        Packed(option.wrapping_mul(2))
    }

    /// Returns the literal that says that the option is left.
    #[inline(always)]
    pub fn left(option: u16) -> Packed {
        Packed(option.wrapping_mul(2) | 1)
    }

    /// Returns its option.
    #[inline(always)]
    pub fn option(self) -> u16 {
        self.0 >> 1
    }

    /// Returns whether it says that the option is left.
    #[inline(always)]
    pub fn is_left(self) -> bool {
        self.0 & 1 == 1
    }

    /// Returns the opposite literal.
    #[inline(always)]
    pub fn negated(self) -> Packed {
        Packed(self.0 ^ 1)
    }

    /// Returns its place in a list by literals.
    #[inline(always)]
    pub fn place(self) -> usize {
        self.0 as usize
    }

    /// Returns it as the kernel reads it.
    pub fn literal(self) -> Literal {
        if self.is_left() {
            Literal::Left(self.option())
        } else {
            Literal::Chosen(self.option())
        }
    }
}
