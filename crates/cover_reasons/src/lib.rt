//! Reasons why a problem has no exact cover that anybody can add up: weights of the primary items such that each option
//! weighs 0 modulo some number, and all primary items together don't; or too little room for what primary items need.
#![tactic(auto)]

mod bits;
mod demand;
mod fractional_finder;
mod kinds;
mod laws;
mod line;
mod matching;
mod neighbours;
mod null_space;
mod reason;
mod reason_finder;
mod reason_watch;
mod room;
mod room_finder;
mod room_test;
mod sides;
mod weights;
mod weights_finder;
mod weights_test;

pub use bits::Bits;
pub use demand::Demand;
pub use fractional_finder::find_fractional_room_until;
pub use laws::{lack_of_room_excludes_covers, reasons_exclude_covers, weights_exclude_covers};
pub use matching::Matching;
pub use reason::{Reason, holds_of};
pub use reason_finder::{
    find_fractional_reason_until, find_reason, find_reason_until, find_short_reason_until,
};
pub use reason_watch::{Endless, ReasonWatch, looks_at};
pub use room::Room;
pub use room_finder::{find_room, find_room_until};
pub use room_test::{fits, is_plain, is_too_little, whole_amount};
pub use weights::{MOST_MODULUS, Weights};
pub use weights_finder::find_weights;
pub use weights_test::{excludes, is_balanced, whole_weight};
