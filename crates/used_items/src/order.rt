//! An order of a problem's items.

ghost use Rattle.std.specs.Prelude.{◌≡◌, ◌&&◌, ◌==◌, ◌≤◌, nat_lt, slice_index_or};
ghost use Rattle.std.specs.List.{list_all, range_with_len};
ghost use Rattle.used_items.specs.Orders.{item_at, place_of, stands, is_taken, is_order};

use std::marker::Model;

/// The items of a problem in an order, the place of each item in it, and how many of them are primary. Items and places
/// are counted from 0.
#[derive(Debug, Drop)]
pub struct Order {
    items: Vec<u16>,
    places: Vec<u16>,
    primary: usize,
}

impl Model for Order {
    ghost use Rattle.used_items.specs.Orders.{Order as OrderValue};

    ghost Value = { OrderValue };

    ghost view = { λ o. record {
      items = o.items.items;
      places = o.places.items;
      primary = o.primary;
    } };
}

/// The number at a place of a list, 0 past its end.
fn number_at(list: &[u16], place: u16) -> u16
    ensures { result ≡ slice_index_or list.now place 0 }
{
    match list.get(place as usize) {
        Some(number) => *number,
        None => 0,
    }
}

impl Order {
    /// The order with these items, these places of them, and so many primary ones. It may be none: `is_order` tells.
    pub fn from_parts(items: Vec<u16>, places: Vec<u16>, primary: usize) -> Order
        ensures { result
            ≡ record { items = items.items; places = places.items; primary = primary } }
    {
        Order {
            items,
            places,
            primary,
        }
    }

    /// The item at a place, 0 past the end.
    pub fn item_at(&self, place: u16) -> u16
        ensures { result ≡ item_at self.now place }
    {
        number_at(&self.items, place)
    }

    /// The place of an item, 0 where it has none.
    pub fn place_of(&self, item: u16) -> u16
        ensures { result ≡ place_of self.now item }
    {
        number_at(&self.places, item)
    }

    /// How many of the items are primary: the first ones.
    pub fn primary(&self) -> usize
        ensures { result ≡ self.now.primary }
    {
        self.primary
    }
}

/// Whether an item, one of so many, stands at its place.
fn stands(order: &Order, count: u16, item: u16) -> bool
    ensures { result ≡ stands order.now count item }
{
    let place = order.place_of(item);
    place < count && order.item_at(place) == item
}

/// Whether a place, one of so many, is that of its item.
fn is_taken(order: &Order, count: u16, place: u16) -> bool
    ensures { result ≡ is_taken order.now count place }
{
    let item = order.item_at(place);
    item < count && order.place_of(item) == place
}

/// Whether each item stands at its place.
fn all_stand(order: &Order, count: u16) -> bool
    ensures { result ≡ list_all (λ item. stands order.now count item) (range_with_len 0 count) }
{
    (0..count).all(|item| stands(order, count, item))
}

/// Whether each place is that of its item.
fn all_are_taken(order: &Order, count: u16) -> bool
    ensures { result ≡ list_all (λ place. is_taken order.now count place) (range_with_len 0 count) }
{
    (0..count).all(|place| is_taken(order, count, place))
}

/// Whether it is an order of so many items: each stands at a place of its own.
pub fn is_order(order: &Order, count: u16) -> bool
    ensures { result ≡ is_order order.now count }
{
    all_stand(order, count) && all_are_taken(order, count)
}
