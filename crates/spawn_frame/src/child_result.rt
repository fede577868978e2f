//! What goes up the tree: from a search or a frame to its parent's frame, and by Return and Accept between sites. A
//! child whose fuel ran out has no result; it becomes a frame.

ghost use Rattle.std.specs.Prelude.{◌≡◌, IfOk};

use cover_problem::Numbers;
use std::alloc::AllocError;

/// What the search of a child came to.
#[derive(Clone, Debug, Drop, PartialEq, Eq)]
pub enum ChildResult {
    /// An exact cover that extends the child's prefix, by the numbers of its options.
    Cover(Numbers),
    /// There is none.
    Empty,
}

impl ChildResult {
    /// An equal result; the only error is out of memory.
    pub fn copy(&self) -> Result<ChildResult, AllocError>
        ensures { IfOk result (λ copied. copied ≡ self.now) }
    {
        self.clone()
    }
}
