//! A clique, and the name of its item.

ghost use Rattle.std.specs.Prelude.{◌≡◌, IfOk};

use cover_problem::{Name, Numbers};
use std::alloc::AllocError;

/// Options of which each two clash, and the name of the item that stands for them.
#[derive(Debug, Drop)]
pub struct Clique {
    /// The name of an item that no option of the file has.
    pub name: Name,
    /// Numbers of options, counted from 0.
    pub options: Numbers,
}

impl Clique {
    /// An equal clique; the only error is out of memory.
    pub fn copy(&self) -> Result<Clique, AllocError>
        ensures { IfOk result (λ copied. copied ≡ self.now) }
    {
        Ok(Clique {
            name: self.name.copy()?,
            options: self.options.copy()?,
        })
    }
}
