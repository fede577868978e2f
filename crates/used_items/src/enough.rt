//! Whether room is just enough for what primary items need.

ghost use Rattle.std.specs.Prelude.{◌≡◌, ℕ, ◌≤◌, true};
ghost use Rattle.std.specs.List.{list_all};
ghost use Rattle.cover_problem.specs.Problem.{option_numbers};
ghost use Rattle.cover_reasons.specs.Room.{amount_of, fits};
ghost use Rattle.used_items.specs.Enough.{is_just_enough, IsAlwaysUsed};

use crate::laws::items_with_just_enough_room_are_used;
use cover_problem::Problem;
use cover_reasons::{Room, fits, whole_amount};

/// Whether each option fits.
fn all_fit(problem: &Problem, room: &Room) -> bool
    ensures { result ≡ list_all (λ option. fits problem.now room.now option)
        (option_numbers problem.now) }
{
    (0..problem.options() as u16).all(|option| fits(problem, room, option))
}

/// The same without the law.
fn is_filled(problem: &Problem, room: &Room) -> bool
    ensures { result ≡ is_just_enough problem.now room.now }
{
    if room.needs().len() > problem.primary() {
        return false;
    }
    if room.rooms().len() > problem.items() {
        return false;
    }
    if whole_amount(room.rooms()) > whole_amount(room.needs()) {
        return false;
    }
    all_fit(problem, room)
}

/// Whether this room is just enough for an exact cover of the problem: primary items alone need it, each option needs
/// no more than it has room for, that of items to which no option gives a colour, and all items together need as much
/// as there is room for. Then each exact cover names each item that has room once.
///
/// It takes no memory, and time of the order of the options' items.
pub fn is_just_enough(problem: &Problem, room: &Room) -> bool
    ensures enough { result ≡ is_just_enough problem.now room.now }
    ensures used { result ≡ true → (item : ℕ) → 1 ≤ amount_of room.now.rooms item →
        IsAlwaysUsed problem.now item }
{
    items_with_just_enough_room_are_used();
    problem.recall_rules();
    is_filled(problem, room)
}
