//! The links of all columns, built node by node.

ghost use Rattle.std.specs.Prelude.{◌≡◌, ◌<◌, ◌≤◌, ◌+◌, length, IfOk};
ghost use Rattle.std.specs.List.{range_with_len};
ghost use Rattle.dancing_links.specs.Building.{IsBuilt, IsBuilding};
ghost use Rattle.dancing_links.specs.Columns.{IsTable};

use crate::layout::Layout;
use crate::link::Link;
use std::alloc::{AllocError, Global};

/// The links of all nodes, each in its column; the only error is out of memory.
pub fn build_links(alloc: Global, layout: &Layout) -> Result<Vec<Link>, AllocError>
    requires { IsTable layout.now }
    ensures { IfOk result (λ links. IsBuilt layout.now links.items) }
{
    let heads = layout.heads();
    let count = layout.places().len();
    let mut links = Vec::new(alloc);
    links.resize(count, Link { up: 0, down: 0 })?;
    // (each column has only its head so far, whose number is that of the column)
    let mut lasts = numbers_below(alloc, heads)?;
    // (ascending, so options go down a column in file order, and its tail comes last)
    for node in heads..count {
        append(layout, &mut links, &mut lasts, node);
    }
    Ok(links)
}

/// The numbers below a bound, in order.
#[tactic(auto, using(crate::proofs::Laid::range_next))]
pub fn numbers_below(alloc: Global, bound: usize) -> Result<Vec<u32>, AllocError>
    requires { bound < 4294967296 }
    ensures { IfOk result (λ list. list.items ≡ range_with_len 0 bound) }
{
    let mut list = Vec::new(alloc);
    for number in 0..bound {
        list.push(number as u32)?;
    }
    Ok(list)
}

/// Links a node to the last one of its column so far, after which it is the last.
fn append(layout: &Layout, links: &mut [Link], lasts: &mut [u32], node: usize)
    requires node { (layout.now.heads ≤ node) × (node < length layout.now.places) }
    requires before { IsBuilding layout.now node lasts.old links.old }
    ensures after { IsBuilding layout.now (node + 1) lasts.new links.new }
{
    let places = layout.places();
    let column = places[node].item as usize;
    let above = lasts[column];
    links[above as usize].down = node as u32;
    links[node].up = above;
    lasts[column] = node as u32;
}
