//! Units that a table makes.

ghost use Rattle.std.specs.Prelude.{◌≡◌, ◌++◌, ◌∷◌, []};
ghost use Rattle.spawn_frame.specs.Works.{fresh_child, fresh_guest, root_child};

use crate::child::Child;
use crate::ghost_prefix::GhostPrefix;
use crate::guest::Guest;
use crate::site::{Attempt, ChildName};
use crate::unit::Unit;
use crate::work::Work;
use cover_problem::Numbers;
use std::alloc::Global;

/// The root of the search.
pub fn new_root(alloc: Global) -> Child
    ensures { result ≡ root_child }
{
    // (an empty list takes no memory; the root's ghost prefix has to be made from some list)
    let empty = Numbers::from_vec(Vec::new(alloc));
    Child {
        parent: None,
        option: 0,
        work: Work::new(GhostPrefix::of(&empty), 1),
    }
}

/// A child of a unit, with this prefix and the option.
pub fn new_child(unit: Unit, path: &GhostPrefix, option: u16) -> Child
    ensures { result ≡ fresh_child unit (path.now.options ++ option ∷ []) }
{
    Child {
        parent: Some(unit),
        option,
        work: Work::new(path.with(&option), 1),
    }
}

/// A guest with this prefix.
pub fn new_guest(name: ChildName, attempt: Attempt, prefix: Numbers) -> Guest
    ensures { result ≡ fresh_guest name attempt prefix }
{
    let path = GhostPrefix::of(&prefix);
    Guest {
        name,
        prefix,
        work: Work::new(path, attempt),
    }
}
