//! What a Give carries, or one of the children of a GiveMany; at the thief it becomes a guest.

use crate::site::Attempt;
use cover_problem::Numbers;

/// A child that is given to a thief, as it is told of it.
#[derive(Debug, Drop)]
pub struct Gift {
    /// Its serial number at its owner.
    pub serial: u32,
    /// Its attempt, from 1.
    pub attempt: Attempt,
    /// Its prefix.
    pub prefix: Numbers,
}
