use crate::site::Attempt;
use crate::status::Status;

/// What a table holds of a unit.
#[derive(Clone, Copy)]
pub struct UnitView<'a> {
    /// Its attempt, from 1.
    pub attempt: Attempt,
    /// How far it is.
    pub status: &'a Status,
}
