//! All settings of a run in one value. The engines make it of a command's words, tests write it down, and each
//! incarnation of a node that restarts gets one of its own (`plan_of_incarnation` of udp_node).

use crate::timing::Timing;
use std::time::Duration;

/// How a run goes, and how its sites work.
#[derive(Clone, Copy, Debug, PartialEq, Eq)]
pub struct Plan {
    /// How many workers a node has, from 1 to 8.
    pub workers: u8,
    /// How many nodes there are beside the registry, from 1 to 16.
    pub nodes: u8,
    /// By how many visits the jobs of the run are measured, at least 1: `Pace` says how many each gets.
    pub fuel: u64,
    /// What the victims are drawn from.
    pub seed: u64,
    /// How many turns each thread has at most. Those in which it had nothing to do don't count, but the site's time has
    /// a limit, too.
    pub turns: u64,
    /// When a site acts although nothing came.
    pub timing: Timing,
    /// How many entries the book of a site may have, at least 1.
    pub entries: u64,
    /// How many bytes the books of all sites may take together.
    pub book_bytes: u64,
    /// How often node 1 restarts.
    pub restarts: u8,
    /// How long the run may last, if it is limited.
    pub limit: Option<Duration>,
}
