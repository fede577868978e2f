//! The incarnations of nodes that a site knows of.

ghost use Rattle.std.specs.Prelude.{◌≡◌, ◌<◌, ◌≤◌, IfOk, length, max, replicate, slice_index, suc};
ghost use Rattle.steal_return.specs.Invariant.{IsKnown};
ghost use Rattle.steal_return.specs.Members.{known_after, now_known, raised};
ghost use Rattle.steal_return.specs.Steals.{is_older};
ghost use Rattle.spawn_frame.specs.declared.site.TheConstants.{LAST_NODE};

use crate::news::News;
use spawn_frame::Site;
use std::alloc::{AllocError, Global};
use std::marker::Model;

/// The latest incarnation of each node that is known, the registry's first.
#[derive(Drop)]
pub struct Known {
    incarnations: Vec<u32>,
    alloc: Global,
}

impl Model for Known {
    ghost use Rattle.std.specs.Prelude.{List, ℕ};
    ghost use Rattle.steal_return.specs.Invariant.{IsKnown};

    ghost Value = { List ℕ };

    ghost view = { λ k. k.incarnations.items };

    ghost invariant = { λ k. IsKnown k.incarnations.items };
}

impl Known {
    /// The first incarnation of the registry and of each of so many nodes; the only error is out of memory.
    pub fn start(alloc: Global, nodes: u8) -> Result<Known, AllocError>
        requires { nodes ≤ LAST_NODE }
        ensures { IfOk result (λ known. known ≡ replicate (suc nodes) 1) }
    {
        let incarnations = vec![in alloc; 1; nodes as usize + 1]?;
        Ok(Known {
            incarnations,
            alloc,
        })
    }

    /// How many nodes there are beside the registry, at most 16.
    pub fn nodes(&self) -> u8
        ensures { length self.now ≡ suc result }
    {
        // (the registry's incarnation is always there, and at most 16 others)
        (self.incarnations.len() - 1) as u8
    }

    /// The incarnations, the registry's first. The other clause says what is true of all that is known.
    pub fn as_slice(&self) -> &[u32]
        ensures value { result.now ≡ self.now }
        ensures known { IsKnown self.now }
    {
        &self.incarnations
    }

    /// The incarnation of a node, or of the registry at 0.
    pub fn of(&self, node: u8) -> u32
        requires { node < length self.now }
        ensures { result ≡ slice_index self.now node }
    {
        self.incarnations[node as usize]
    }

    /// Whether a later incarnation of the site's node is known.
    pub fn is_older(&self, site: Site) -> bool
        ensures { result ≡ is_older self.now site }
    {
        match self.incarnations.get(site.node as usize) {
            Some(incarnation) => site.incarnation < *incarnation,
            None => false,
        }
    }

    /// Whether a later incarnation of the site's node is known once this news is heard.
    pub fn will_outrun(&self, news: News<'_>, site: Site) -> bool
        ensures { result ≡ is_older (known_after news.entry self.now) site }
    {
        let known = self.as_slice();
        let node = site.node as usize;
        // (one entry, not the whole new list: this has to be answered where memory was refused, too)
        node < known.len() && site.incarnation < incarnation_after(known, news, node)
    }

    /// What is known once a site of the node `own` learns the incarnations of nodes 1, 2, ..; the only error is out of
    /// memory.
    pub fn learnt(&self, own: u8, incarnations: &[u32]) -> Result<Known, AllocError>
        ensures { IfOk result (λ learnt. learnt ≡ now_known own self.now incarnations.now) }
    {
        let learnt = later_incarnations(self.alloc, self.as_slice(), own, incarnations)?;
        Ok(Known {
            incarnations: learnt,
            alloc: self.alloc,
        })
    }

    /// Keeps the later incarnation of a node. It takes no memory.
    pub fn raise(&mut self, node: u8, incarnation: u32)
        requires { node < length self.old }
        ensures { self.new ≡ raised self.old node incarnation }
    {
        let node = node as usize;
        self.incarnations[node] = later_of(self.incarnations[node], incarnation);
    }
}

/// The incarnation of a node that is known once this news is heard.
fn incarnation_after(known: &[u32], news: News<'_>, node: usize) -> u32
    requires { node < length known.now }
    ensures { result ≡ slice_index (known_after news.entry known.now) node }
{
    match news {
        News::Members(own, incarnations) => later_incarnation(known, own, incarnations, node),
        News::Hello(from) => {
            if node == from.node as usize {
                later_of(known[node], from.incarnation)
            } else {
                known[node]
            }
        }
    }
}

/// The incarnation of a node that is known once those of nodes 1, 2, .. are learnt at a site of the node `own`.
fn later_incarnation(known: &[u32], own: u8, incarnations: &[u32], node: usize) -> u32
    requires { node < length known.now }
    ensures { result ≡ slice_index (now_known own known.now incarnations.now) node }
{
    let before = known[node];
    // (the registry never restarts, and a site ignores its own entry)
    if node == 0 || node == own as usize {
        return before;
    }
    match incarnations.get(node - 1) {
        Some(told) => later_of(before, *told),
        None => before,
    }
}

/// The later of two incarnations of a node.
fn later_of(first: u32, second: u32) -> u32
    ensures { result ≡ max first second }
{
    // (packets come late and out of order: an earlier incarnation lowers nothing)
    first.max(second)
}

/// All known incarnations then; the only error is out of memory.
fn later_incarnations(
    alloc: Global,
    known: &[u32],
    own: u8,
    incarnations: &[u32],
) -> Result<Vec<u32>, AllocError>
    requires { 0 < length known.now }
    ensures { IfOk result (λ learnt. learnt.items ≡ now_known own known.now incarnations.now) }
{
    let mut learnt = Vec::with_capacity(alloc, known.len())?;
    for node in 0..known.len() {
        learnt.push(later_incarnation(known, own, incarnations, node))?;
    }
    Ok(learnt)
}
