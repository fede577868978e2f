use crate::site::{Attempt, ChildName};
use crate::status::Status;

/// What a table holds of a guest.
#[derive(Clone, Copy)]
pub struct GuestView<'a> {
    /// Its name.
    pub name: ChildName,
    /// The options that are chosen.
    pub prefix: &'a [u16],
    /// Its attempt, from 1.
    pub attempt: Attempt,
    /// How far it is.
    pub status: &'a Status,
}
