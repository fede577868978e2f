//! Why incarnations aren't learnt.

ghost use Rattle.std.specs.Prelude.{◌≡◌};
ghost use Rattle.steal_return.specs.declared.learn_fault.LearnFault.TheVariants.{Memory};

use std::alloc::AllocError;

/// Why incarnations aren't learnt.
#[derive(Clone, Copy, Debug, PartialEq, Eq)]
pub enum LearnFault {
    /// A child that would have to be redone stands at its last attempt, 4,294,967,295.
    NamesSpent,
    /// Memory ran out.
    Memory,
}

impl From<AllocError> for LearnFault {
    ghost from_gives = { λ _ e. e ≡ Memory };

    fn from(_e: AllocError) -> LearnFault {
        LearnFault::Memory
    }
}
