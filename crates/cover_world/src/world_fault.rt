//! Why a world doesn't go on.

ghost use Rattle.std.specs.Prelude.{◌≡◌};
ghost use Rattle.cover_world.specs.Moves.{world_fault};
ghost use Rattle.cover_world.specs.declared.world_fault.WorldFault.TheVariants.{Memory};

use node_core::ActFault;
use std::alloc::AllocError;

/// Why an event of a world is refused. Whatever the fault is, the world stays as it was.
#[derive(Clone, Copy, Debug, PartialEq, Eq)]
pub enum WorldFault {
    /// There is no such node.
    NoSuchNode,
    /// No packet of that number was ever sent.
    NoSuchPacket,
    /// The incarnation isn't above the node's present one, or it is the registry that would restart.
    OldIncarnation,
    /// The site refuses the event, for another cause than that memory ran out.
    Core(ActFault),
    /// Memory ran out.
    Memory,
}

impl From<ActFault> for WorldFault {
    ghost from_gives = { λ f w. w ≡ world_fault f };

    fn from(fault: ActFault) -> WorldFault {
        match fault {
            ActFault::Memory => WorldFault::Memory,
            other => WorldFault::Core(other),
        }
    }
}

impl From<AllocError> for WorldFault {
    ghost from_gives = { λ _ w. w ≡ Memory };

    fn from(_e: AllocError) -> WorldFault {
        WorldFault::Memory
    }
}

/// Memory ran out in a run of a world: where it stopped.
#[derive(Clone, Copy, Debug, PartialEq, Eq)]
pub struct Starved {
    /// Which of the events it was, from 0; those before it were taken or passed over.
    pub at: usize,
    /// How many of those were taken.
    pub done: usize,
}
