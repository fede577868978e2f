//! Secondary items that each exact cover uses: where primary items need all the room that they have, as the lessons of
//! a class that has no free period need each period. A problem with such items made primary has the same exact covers.
#![tactic(auto)]

mod classes;
mod demand;
mod enough;
mod excluding;
mod laws;
mod making;
mod order;
mod promoting;
mod room_finder;
mod spare;

pub use enough::is_just_enough;
pub use excluding::is_excluded_by_used_items;
pub use laws::{
    items_with_just_enough_room_are_used, promotion_keeps_covers, same_covers_have_the_same_none,
};
pub use making::{WithUsedItems, with_room, with_used_items, with_used_items_until};
pub use order::{Order, is_order};
pub use promoting::{promoted, promotes};
