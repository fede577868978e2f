//! Own children as a tree of parent pointers: a prefix is read by going up, and children of one parent share it.
//!
//! A node may name a million of them in an incarnation, so their size matters; it is proved below.

use crate::unit::Unit;
use crate::work::Work;

// (one option in place of a list: a split copies no prefix, and a child's is read by steps from parent to parent)
/// An own child of a site. Its prefix is the one of its parent, and its own option behind it.
#[derive(Drop)]
pub struct Child {
    /// The unit that was split; the root has none.
    pub parent: Option<Unit>,
    /// The last option of its prefix; 0 at the root, whose prefix is empty.
    pub option: u16,
    /// The rest.
    pub work: Work,
}

// What a child takes: its parent 24, its option with its place 8, its work 72.
const _: () = prove!(size_of::<Child>() == 104);
