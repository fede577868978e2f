//! The part of a node that never changes once the links are built; what changes, above and below, is a `Link`.
//!
//! Knuth's program (TAOCP 7.2.2.1) puts an option's nodes side by side, with spacers between options. Here they stand
//! in a ring, so a walk through an option needs no test for a spacer. A place has eight bytes; `bench/TRIED.md` has
//! what that saves.

/// What stands at a node.
#[derive(Clone, Copy)]
pub struct Place {
    /// The node to the right in the row of its option; behind the last comes the first. A node of no option is its own.
    pub right: u32,
    /// The column: for a node of an option, the item that it stands for.
    pub item: u16,
    /// The colour that it gives its item, 0 for none.
    pub colour: u16,
}
