//! A hook for tests of concurrency: a gate that holds one worker until another has posted makes a schedule certain that
//! would else be a matter of luck. The program's own gates hold nobody back.

use crate::follower::Follower;
use spawn_frame::Job;

/// May hold a site's workers back, so that tests bring them into an order. Where nothing else is said, it lets all
/// pass.
pub trait Gate {
    /// Whether the worker may post the result of the job now; it is asked again each turn until it may. The call may
    /// wait.
    fn pass(&self, _worker: u8, _job: &Job) -> bool {
        true
    }

    /// The worker has posted the result of the job.
    fn posted(&self, _worker: u8, _job: &Job) {}
}

/// Lets all pass, and follows nothing.
#[derive(Clone, Copy, Debug, PartialEq, Eq)]
pub struct Open;

impl Gate for Open {}

impl Follower for Open {}
