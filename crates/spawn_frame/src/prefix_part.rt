//! One step of a walk from a unit up to the root: prefixes are linked lists from child to parent, read from the end.

use crate::unit::Unit;

/// What the prefix of a unit is made of.
#[derive(Clone, Copy)]
pub enum PrefixPart<'a> {
    /// All of it: at a guest, and at the root, whose prefix is empty.
    Whole(&'a [u16]),
    /// The prefix of this unit, and this option behind it.
    Longer(Unit, u16),
}
