//! News of restarts, from a Members packet at a node or a Hello at the registry. Both are merged by the greater
//! incarnation of each node. That is idempotent and commutative, so lost, repeated and reordered packets do no harm (as
//! in a version vector).

use spawn_frame::Site;

/// What a site hears of the incarnations of nodes.
#[derive(Clone, Copy)]
pub enum News<'a> {
    /// At a site of this node, the incarnations of nodes 1, 2, ..: of each node but its own the later one is kept.
    Members(u8, &'a [u32]),
    /// A node is in this incarnation: the later incarnation of it is kept.
    Hello(Site),
}
