//! How much of a search tree lies behind a search, as Knuth's DLX1 reports it: each child counts for an equal part of
//! its parent, and half of the last chosen option is taken to be done. It is rough where subtrees differ, but needs no
//! second search.

ghost use Rattle.std.specs.Prelude.{◌≡◌, ◌<◌, ◌≤◌, length, false, IfSome};
ghost use Rattle.cover_problem.specs.Prefix.{is_covered};

use brancher::choose_prefix;
use cover_problem::Problem;
use dancing_links::Links;
use std::alloc::{AllocError, Global};

/// Estimates which share of the tree below the empty prefix lies behind a search, as DLX1 reports it: each child of a
/// prefix counts for an equal part of what the prefix counts for, and half of the last chosen option is taken to be
/// done.
#[derive(Drop)]
pub struct TreeEstimate<'a> {
    /// Links of the estimate's own, so that the search's are left as they are.
    links: Links<'a>,
}

/// The rank of a child among the children of a prefix.
#[derive(Clone, Copy)]
struct ChildRank {
    /// How many children come before it.
    before: u64,
    /// How many children there are, from 1.
    children: u64,
}

/// The part of the tree below the chosen options, of `TreeEstimate::WHOLE`.
#[derive(Clone, Copy)]
struct Span {
    /// How much comes before it.
    before: u64,
    /// How much it counts for.
    part: u64,
}

impl<'a> TreeEstimate<'a> {
    /// What the whole tree counts for.
    pub const WHOLE: u64 = 1_000_000_000_000_000_000;

    /// Returns an estimate for searches of the problem; the only error is out of memory.
    pub fn new(alloc: Global, problem: &'a Problem) -> Result<TreeEstimate<'a>, AllocError> {
        Ok(TreeEstimate {
            links: Links::build(alloc, problem)?,
        })
    }

    /// Returns the share that lies behind a search that has chosen these options, of `WHOLE`; each part is rounded
    /// down. The options are read up to the first that is no child of those before it. It takes no memory.
    pub fn share(&mut self, chosen: &[u16]) -> u64 {
        self.share_below(0, chosen)
    }

    /// Returns how much of what counts for a prefix of this length lies behind a search of it that has chosen these
    /// options, of `WHOLE`.
    pub fn share_below(&mut self, length: usize, chosen: &[u16]) -> u64 {
        let span = self.span(length, chosen);
        // Nothing is known of what lies below the last option, so half of it counts as done.
        span.before.saturating_add(span.part / 2)
    }

    /// Returns how much a prefix counts for, of `WHOLE`, with all that is below it. It takes no memory.
    pub fn part(&mut self, prefix: &[u16]) -> u64 {
        self.span(prefix.len(), prefix).part
    }

    /// Chooses these options, up to the first that is no child of those before it, and returns the part of the tree
    /// below them. What comes before one of the first options, as many as the length says, isn't counted.
    fn span(&mut self, length: usize, chosen: &[u16]) -> Span {
        // (the links of the last call are emptied, not built once more, which would take memory)
        choose_prefix(&mut self.links, &[]);
        let mut span = Span {
            before: 0,
            part: TreeEstimate::WHOLE,
        };
        for (depth, option) in chosen.iter().enumerate() {
            let Some(rank) = self.choose_child(*option) else {
                break;
            };
            span.part /= rank.children;
            if depth >= length {
                // (fewer children come before than there are, so this is less than the part of the parent)
                let before = span.part.saturating_mul(rank.before);
                span.before = span.before.saturating_add(before);
            }
        }
        span
    }

    /// Chooses an option, if it is a child of those that are chosen, and returns its rank among the children.
    fn choose_child(&mut self, option: u16) -> Option<ChildRank>
        ensures { IfSome result (λ rank. 1 ≤ rank.children) }
    {
        let item = self.links.branch_item()?;
        let before = count_before(&self.links, item, option)?;
        let children = self.links.count(item) as u64;
        // (never so, as it was just met among the live options; choose asks for both, and the walk shows neither to the
        // prover)
        if usize::from(option) >= self.links.problem().options() || !self.links.is_live(option) {
            return None;
        }
        self.links.choose(option);
        Some(ChildRank {
            before,
            // (never 0, as the option is among them; the prover has it from here)
            children: children.max(1),
        })
    }
}

/// Returns how many live options of an uncovered item come before this one; none where it isn't one of them.
fn count_before(links: &Links<'_>, item: u16, option: u16) -> Option<u64>
    requires item { item < length links.now.problem.names }
    requires uncovered { is_covered links.now.problem links.now.chosen item ≡ false }
{
    let mut before = 0u64;
    for child in links.options_of(item) {
        if child == option {
            return Some(before);
        }
        before = before.saturating_add(1);
    }
    None
}
