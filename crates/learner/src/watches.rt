//! For each literal the learned clauses that watch it: two literals of each clause are watched, and only where one of
//! them becomes false the clause is looked at (Moskewicz and others, "Chaff").
//!
//! Each clause has two nodes, one for each of its first two literals, which are linked by literals (as in PicoSAT), so
//! that nothing is allocated where a watch moves.

ghost use Rattle.std.specs.Prelude.{◌≤◌};

use crate::packed::Packed;
use crate::tables::{at, put};
use std::alloc::{AllocError, Global};

/// The end of a list.
pub const NO_NODE: u32 = u32::MAX;

/// That a clause watches a literal.
#[derive(Clone, Copy)]
pub struct Node {
    /// The next node of the same literal.
    pub next: u32,
    /// Another literal of the clause: where it is true there is nothing to do.
    pub blocker: Packed,
}

/// No node.
const NOTHING: Node = Node {
    next: NO_NODE,
    blocker: Packed::NONE,
};

/// The lists of nodes.
#[derive(Drop)]
pub struct Watches {
    /// Of each literal its first node.
    heads: Vec<u32>,
    /// Two nodes for each clause.
    nodes: Vec<Node>,
}

/// Returns the node by which a clause watches its first literal, or its second one.
#[inline(always)]
pub fn node_of(clause: u32, is_second: bool) -> u32 {
    clause.wrapping_mul(2) | u32::from(is_second)
}

/// Returns the clause of a node.
#[inline(always)]
pub fn clause_of(node: u32) -> u32 {
    node >> 1
}

/// Returns which of its literals a clause watches by this node: the one with number 0 or 1.
#[inline(always)]
pub fn side_of(node: u32) -> usize {
    (node & 1) as usize
}

impl Watches {
    /// No watches of the literals of so many options. The only error is out of memory.
    pub fn new(alloc: Global, options: usize) -> Result<Watches, AllocError>
        requires { options ≤ 20000 }
    {
        Ok(Watches {
            heads: vec![in alloc; NO_NODE; options * 2]?,
            nodes: Vec::new(alloc),
        })
    }

    /// Takes room for the nodes of clauses below this number. The only error is out of memory.
    pub fn reserve(&mut self, clauses: usize) -> Result<(), AllocError> {
        let nodes = clauses.wrapping_mul(2);
        if self.nodes.len() < nodes {
            self.nodes.resize(nodes, NOTHING)?;
        }
        Ok(())
    }

    /// Returns the first node of a literal.
    #[inline(always)]
    pub fn first(&self, literal: Packed) -> u32 {
        at(&self.heads, literal.place(), NO_NODE)
    }

    /// Returns what a node holds.
    #[inline(always)]
    pub fn node(&self, node: u32) -> Node {
        at(&self.nodes, node as usize, NOTHING)
    }

    /// Returns how many nodes there are.
    #[inline(always)]
    pub fn nodes(&self) -> usize {
        self.nodes.len()
    }

    /// Puts a node in front of a literal's list.
    #[inline(always)]
    pub fn link(&mut self, literal: Packed, node: u32, blocker: Packed) {
        let next = self.first(literal);
        put(&mut self.nodes, node as usize, Node { next, blocker });
        put(&mut self.heads, literal.place(), node);
    }

    /// Takes the node behind another one out of a literal's list; the first one where that is none.
    #[inline(always)]
    pub fn unlink(&mut self, literal: Packed, previous: u32, next: u32) {
        if previous == NO_NODE {
            put(&mut self.heads, literal.place(), next);
        } else {
            let own = self.node(previous);
            put(&mut self.nodes, previous as usize, Node { next, ..own });
        }
    }

    /// Notes another blocker.
    #[inline(always)]
    pub fn set_blocker(&mut self, node: u32, blocker: Packed) {
        let own = self.node(node);
        put(&mut self.nodes, node as usize, Node { blocker, ..own });
    }

    /// Empties all lists.
    pub fn clear(&mut self) {
        self.heads.fill(NO_NODE);
    }
}
