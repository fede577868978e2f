//! Ghost data, so that contracts can say of each unit which prefix it has, although the program stores one option a
//! child.

ghost use Rattle.std.specs.Prelude.{◌≡◌, ◌++◌, ◌∷◌, ℕ, List, []};
ghost use Rattle.std.specs.Borrow.{ftrue};

use cover_problem::Numbers;
use std::marker::Model;

/// A prefix that only proofs read. It takes no memory, and its functions do nothing at run time.
///
/// By itself it is tied to nothing that is stored. The invariant of a table ties it: a guest's path is its stored
/// prefix, an own child's is its parent's with its stored option behind it, and the root's is empty. So the prefixes
/// that contracts see are those that the fields spell, and `prefix_into` is proved to read them from there.
#[derive(Drop)]
pub struct GhostPrefix {
    pub ghost options: { List ℕ },
}

impl Model for GhostPrefix {
    // (ghost data needs this line, which says that a path owns nothing)
    ghost also_owns = { λ _. ftrue };
}

// The check doesn't find this by itself of a struct with ghost data. It is proved in `Send.antt`: a path owns nothing.
unsafe impl Send for GhostPrefix {}

// The same; `Sync.antt` proves that what is shared of a path is nothing either.
unsafe impl Sync for GhostPrefix {}

impl GhostPrefix {
    /// The path of these options.
    pub fn of(_options: &Numbers) -> GhostPrefix
        ensures { result.options ≡ _options.now }
    {
        GhostPrefix {}
    }

    /// An equal path.
    pub fn copy(&self) -> GhostPrefix
        ensures { result.options ≡ self.now.options }
    {
        GhostPrefix {}
    }

    /// The path with one option more.
    pub fn with(&self, _option: &u16) -> GhostPrefix
        ensures { result.options ≡ self.now.options ++ _option.now ∷ [] }
    {
        GhostPrefix {}
    }
}
