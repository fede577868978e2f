//! The acknowledgement of a Return, positive or negative: either ends the thief's retransmission.
//!
//! `receive_return` makes it, which judges and enters in one. The cores don't: they call `judge` and `enter`, and write
//! the packet in between.

use spawn_frame::{Cause, ChildResult};

/// What the owner of a child answers to a result that is returned.
#[derive(Clone, Debug, Drop, PartialEq, Eq)]
pub enum ReturnReply {
    /// The child is done, with this result: the one that is returned, or another that came before it.
    Accept(ChildResult),
    /// The result is not taken.
    Refuse(Cause),
}
