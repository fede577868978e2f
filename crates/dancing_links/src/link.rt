//! The links of a node.

/// The neighbours of a node in its column, by their numbers. A node that is out keeps those that it had.
#[derive(Clone, Copy)]
pub struct Link {
    /// The node above; 0 at a head.
    pub up: u32,
    /// The node below; 0 at a tail.
    pub down: u32,
}
