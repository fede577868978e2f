//! The owner's verdict on a Return, which makes retransmission harmless: a thief sends its result until it hears an
//! answer, so one may come twice, or after the child was redone. It enters once, at the attempt and from the thief that
//! the owner waits for; a later one is refused, or finds the child done and is answered with the result that it has. So
//! all thieves of a child settle on one result.
//!
//! The result is borrowed, so judging takes no memory: the core makes room for the answer before the result enters.

use spawn_frame::{Cause, ChildResult};

/// What the owner of a child finds of a result that is returned.
#[derive(Clone, Copy)]
pub enum Judged<'a> {
    /// The child is out to the sender at that attempt: the result may enter.
    Enters,
    /// The child is done, with this result.
    Holds(&'a ChildResult),
    /// The result is not taken.
    Refuses(Cause),
}
