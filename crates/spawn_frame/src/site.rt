//! Names: sites, children and attempts.

/// The greatest number of a node, prescribed by the protocol; 0 is the registry's.
pub const LAST_NODE: u8 = 16;

/// The last attempt, after which no child is redone: the greatest number that a packet can tell.
pub const LAST_ATTEMPT: Attempt = 4_294_967_295;

// (the derived order compares fields from the first on: guests are sorted by node, incarnation and serial)
/// One node in one incarnation: each start of a node has a greater one.
#[derive(Clone, Copy, Debug, PartialEq, Eq, PartialOrd, Ord)]
pub struct Site {
    /// 0 for the registry, 1 to 16 for the nodes beside it.
    pub node: u8,
    /// From 1; always 1 at the registry.
    pub incarnation: u32,
}

/// A child of a search, named by the site that made it, whoever works on it.
#[derive(Clone, Copy, Debug, PartialEq, Eq, PartialOrd, Ord)]
pub struct ChildName {
    /// The site that made it.
    pub site: Site,
    /// How many children that site had made before.
    pub serial: u32,
}

/// By which attempt a child is done: 1 at first, and one more at each redo.
pub type Attempt = u32;
