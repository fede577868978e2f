//! Options of which each two clash: an exact cover has one of them at most. A problem with a further secondary item for
//! such a clique has the same exact covers, and reasons can count the item.
#![tactic(auto)]

mod adding;
mod clashes;
mod clique;
mod excluding;
mod growing;
mod growth;
mod laws;
mod making;
mod testing;

pub use adding::with_clique;
pub use clique::Clique;
pub use excluding::{RoomByCliques, find_room_by_cliques};
pub use growing::find_cliques;
pub use laws::{a_clique_is_chosen_once, cliques_keep_covers, one_clique_keeps_covers};
pub use making::with_cliques;
pub use testing::{clash_by_twos, is_clique};
