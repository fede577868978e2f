//! The moves of the adversary: which site acts, which packet arrives, who restarts. `simulate` draws them at random;
//! tests write them down. What a worker found can't be chosen: the world searches by itself, so every Post is right.

use spawn_frame::{Job, Unit};

/// What its caller lets happen in a world; sites go by their nodes, the registry's being 0.
#[derive(Clone, Copy, Debug, PartialEq, Eq)]
pub enum WorldEvent {
    /// A worker of this node asks for work.
    Take(u8),
    /// A worker of this node has searched the prefix of a job with so much fuel; none counts as one.
    /// The world itself searches.
    Post(u8, Job, u64),
    /// A settled frame of this node gets its result.
    Finish(u8, Unit),
    /// This node asks the other one for work.
    Ask(u8, u8),
    /// The own child of this serial at this node is redone.
    Redo(u8, u32),
    /// This node says again what may have been lost.
    Again(u8),
    /// This node tells the registry that it is there.
    Greet(u8),
    /// The packet of this number, of all that were ever sent, from 0, comes to the present site of the node
    /// that it is for.
    Deliver(usize),
    /// This node restarts under this incarnation.
    Restart(u8, u32),
}
