//! An observer of a run, for lines of progress and the cause of an end. No answer depends on what it does. Threads call
//! it at the same time, hence by shared reference.

use crate::site_end::SiteEnd;
use brancher::Finding;

/// Follows what the sites of a run do, to report how far it has come and why it ended. What it isn't asked to do, it
/// leaves out.
pub trait Follower {
    /// A worker begins to search a prefix.
    fn begun(&self) {}

    /// A worker that searches a prefix of this length has chosen these options, and made so many visits. Called once in
    /// 1,024 visits at most.
    fn seen(&self, _length: usize, _chosen: &[u16], _made: u64) {}

    /// A worker has searched a prefix, and made so many visits.
    fn searched(&self, _finding: &Finding, _made: u64) {}

    /// A site's book has so many entries, of so many at most.
    fn recorded(&self, _entries: u64, _most: u64) {}

    /// The books of all sites take so many bytes together, of so many at most.
    fn grown(&self, _bytes: u64, _most: u64) {}

    /// The run ends with the site of this node, which ended so.
    fn ended(&self, _node: u8, _end: &SiteEnd) {}

    /// All sites have ended, and there is an answer or none.
    fn finished(&self, _is_answered: bool) {}
}
