//! Whether room is too little for an exact cover.

ghost use Rattle.std.specs.Prelude.{◌≡◌, ℕ, ◌<◌, ◌≤◌, List, [], length, true, None};
ghost use Rattle.std.specs.List.{sum, sum_by, list_all};
ghost use Rattle.cover_problem.specs.Prefix.{IsBarren};
ghost use Rattle.cover_problem.specs.Problem.{IsProblem, option_numbers};
ghost use Rattle.cover_problem.specs.Search.{first};
ghost use Rattle.cover_reasons.specs.Room.{amount_of, option_amount, is_plain, fits, is_too_little};

use crate::laws::lack_of_room_excludes_covers;
use crate::room::Room;
use cover_problem::Problem;

/// What a list says of an item: 0 where it comes after those of the list.
fn amount_of(list: &[u16], item: u16) -> u16
    ensures { result ≡ amount_of list.now item }
{
    match list.get(item as usize) {
        Some(amount) => *amount,
        None => 0,
    }
}

/// What a list says of these items, together.
fn amount_of_items(list: &[u16], items: &[u16]) -> u64
    requires { length items.now ≤ 200000 }
    ensures { result ≡ sum_by (amount_of list.now) items.now }
{
    let mut amount = 0;
    for item in items {
        amount += u64::from(amount_of(list, *item));
    }
    amount
}

/// Returns what a list says of all items, together.
pub fn whole_amount(list: &[u16]) -> u64
    requires { length list.now ≤ 200000 }
    ensures { result ≡ sum list.now }
{
    let mut whole = 0;
    for amount in list {
        whole += u64::from(*amount);
    }
    whole
}

/// What a list says of an option's items, together.
fn option_amount(problem: &Problem, list: &[u16], option: u16) -> u64
    requires lawful { IsProblem problem.now }
    requires option { option < length problem.now.options }
    ensures { result ≡ option_amount problem.now list.now option }
{
    amount_of_items(list, problem.option(option))
}

/// Returns whether the option gives no colour to an item that has room.
pub fn is_plain(problem: &Problem, rooms: &[u16], option: u16) -> bool
    requires { option < length problem.now.options }
    ensures { result ≡ is_plain problem.now rooms.now option }
{
    let items = problem.option(option);
    let colours = problem.colours(option);
    for (place, item) in items.iter().enumerate() {
        // (an item with one colour may be in several options of a cover, each of which would use its room)
        if amount_of(rooms, *item) != 0 && colours[place] != 0 {
            return false;
        }
    }
    true
}

/// Returns whether the option needs no more than it has room for, and gives no colour to an item that has room.
pub fn fits(problem: &Problem, room: &Room, option: u16) -> bool
    requires lawful { IsProblem problem.now }
    requires option { option < length problem.now.options }
    ensures { result ≡ fits problem.now room.now option }
{
    let need = option_amount(problem, room.needs(), option);
    let amount = option_amount(problem, room.rooms(), option);
    need <= amount && is_plain(problem, room.rooms(), option)
}

/// Whether each option fits.
fn all_fit(problem: &Problem, room: &Room) -> bool
    ensures { result ≡ list_all (λ option. fits problem.now room.now option)
        (option_numbers problem.now) }
{
    (0..problem.options() as u16).all(|option| fits(problem, room, option))
}

/// Whether primary items alone need room, all need more than there is, and each option fits.
fn is_reason(problem: &Problem, room: &Room) -> bool
    ensures { result ≡ is_too_little problem.now room.now }
{
    // (a cover may leave a secondary item out, so what it needs need not be met)
    if room.needs().len() > problem.primary() {
        return false;
    }
    if room.rooms().len() > problem.items() {
        return false;
    }
    if whole_amount(room.rooms()) >= whole_amount(room.needs()) {
        return false;
    }
    all_fit(problem, room)
}

/// Whether this room is too little for an exact cover of the problem: primary items alone need it, each option needs no
/// more than it has room for, that of items to which no option gives a colour, and all items together need more than
/// there is room for. Where it is too little, no prefix has a cover, and a search finds none.
///
/// It takes no memory, and time of the order of the options' items, for each item of an option with a colour as much as
/// the option has items.
pub fn is_too_little(problem: &Problem, room: &Room) -> bool
    ensures too_little { result ≡ is_too_little problem.now room.now }
    ensures barren { result ≡ true → (prefix : List ℕ) → IsBarren problem.now prefix }
    ensures none { result ≡ true → first problem.now [] ≡ None }
{
    lack_of_room_excludes_covers();
    problem.recall_rules();
    is_reason(problem, room)
}
