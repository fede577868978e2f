//! The guests of a site.

ghost use Rattle.std.specs.Prelude.{◌≡◌, ℕ, suc, ◌+◌, ◌<◌, ◌≤◌, ◌^◌, if◌then◌else◌, [], insert, length, map, nat_lt, option_map, slice_get, slice_index, true, vec_capacity, vec_len, OnErr, OnOk, Some};
ghost use Rattle.std.specs.List.Sorted.{IsNonDecreasing};
ghost use Rattle.spawn_frame.specs.Guests.{change_place, open_of, open_places, places_with, places_without, put_gift, put_gifts, work_at, StaysOpen};
ghost use Rattle.spawn_frame.specs.Tables.{IsAscending};
ghost use Rattle.spawn_frame.specs.Works.{first_wanted, frame_says, guest_entry, split_work, with_heard, with_work_status, HearsFrom};

use crate::building::new_guest;
use crate::child_result::ChildResult;
use crate::gift::Gift;
use crate::guest::Guest;
use crate::heard::Heard;
use crate::site::{ChildName, Site};
use crate::status::Status;
use crate::unit::Unit;
use crate::units::{has_guest, place_behind};
use crate::wanted::Wanted;
use std::alloc::{AllocError, Global};
use std::marker::Model;

/// The guests of a site, each at its place. The places of the open ones are kept, so that a walk over these passes none
/// that ended.
#[derive(Drop)]
pub struct Guests {
    // (a guest that ended stays, so that its Give is ignored when it comes once more)
    items: Vec<Guest>,
    /// The places of the open ones, ascending.
    places: Vec<usize>,
}

impl Model for Guests {
    ghost use Rattle.std.specs.Prelude.{◌≡◌, List};
    ghost use Rattle.spawn_frame.specs.Guests.{open_places};
    ghost use Rattle.spawn_frame.specs.declared.guest.Guest.{Guest as GuestValue};

    ghost Value = { List GuestValue };

    ghost view = { λ g. g.items.items };

    ghost invariant = { λ g. g.places.items ≡ open_places g.items.items };
}

ghost use Rattle.spawn_frame.specs.Aborts.{is_open};

impl Guests {
    /// No guests. It costs nothing.
    pub fn new(alloc: Global) -> Guests
        ensures { result ≡ [] }
    {
        Guests {
            items: Vec::new(alloc),
            places: Vec::new(alloc),
        }
    }

    /// The guests, in order.
    pub fn as_slice(&self) -> &[Guest]
        ensures { result.now ≡ self.now }
    {
        self.items.as_slice()
    }

    /// How many are open. It costs nothing.
    pub fn open_count(&self) -> usize
        ensures { result ≡ length (open_of self.now) }
    {
        self.places.len()
    }

    /// The open one at a place among the open ones, from 0. It costs nothing.
    pub fn open_guest(&self, place: usize) -> &Guest
        requires { place < length (open_of self.now) }
        ensures { slice_get (open_of self.now) place ≡ Some result.now }
    {
        &self.items[self.places[place]]
    }

    /// The first one that is wanted. It costs a pass through the open ones.
    pub fn first(&self, wanted: Wanted) -> Option<Unit>
        ensures { result ≡ first_wanted wanted self.now }
    {
        for place in 0..self.open_count() {
            let guest = self.open_guest(place);
            if guest.work.is_wanted(wanted) {
                return Some(Unit::Guest(guest.name, guest.work.attempt));
            }
        }
        None
    }

    /// Puts an open guest at a place; those from there on move by one. The only error is out of memory, which changes
    /// nothing: it is taken before any change.
    pub fn insert(&mut self, place: usize, guest: Guest) -> Result<(), AllocError>
        requires within { place ≤ length self.old }
        requires begins { is_open guest.work.status ≡ true }
        ensures ok { OnOk result (self.new ≡ insert self.old place guest) }
        ensures err { OnErr result (self.new ≡ self.old) }
    {
        // (the room comes first, since it does no harm if the insert then fails)
        self.places.reserve(1)?;
        self.items.insert(place, guest)?;
        // There are no more guests than numbers of places, so each place may move on.
        let count = self.items.len();
        prove!(place < count);
        put_place(&mut self.places, place);
        Ok(())
    }

    /// Puts each of these children of a site at its place as a ready guest, unless it is there already. The only error
    /// is out of memory, which changes nothing: it is taken before any change.
    pub fn admit_each(&mut self, from: Site, gifts: Vec<Gift>) -> Result<(), AllocError>
        requires { IsAscending (map guest_entry self.old) }
        ensures ok { OnOk result (self.new ≡ put_gifts from gifts.items self.old) }
        ensures err { OnErr result (self.new ≡ self.old) }
    {
        let count = gifts.len();
        // (room for all, even for those that are there already: what follows can't fail, so all are admitted or none)
        self.items.reserve(count)?;
        self.places.reserve(count)?;
        put_gifts(&mut self.items, &mut self.places, from, gifts);
        Ok(())
    }

    /// Gives a guest another status, an open one only where it is open. It costs a search by halving where the guest
    /// ends.
    pub fn set_status(&mut self, place: usize, status: Status)
        requires within { place < length self.old }
        requires stays { StaysOpen status (work_at self.old place) }
        ensures { self.new ≡ change_place (with_work_status status) self.old place }
    {
        keep_place(&mut self.places, place, status.is_open());
        self.items[place].work.status = status;
    }

    /// Makes an open guest a frame of so many children, whose serials begin at the first.
    pub fn split(&mut self, place: usize, first: u32, count: u32)
        requires within { place < length self.old }
        requires stays { StaysOpen Status.Split (work_at self.old place) }
        requires some { 0 < count }
        requires fits { first + count < 2 ^ 32 }
        ensures { self.new ≡ change_place (split_work first count) self.old place }
    {
        // (a guest that is split stays open, so the places stay as they are)
        self.items[place].work.split(first, count);
    }

    /// Tells a frame the result of a child of it, and says whether it is settled now; what is no frame says `Open`.
    pub fn hear(&mut self, place: usize, child: u32, child_result: &ChildResult) -> Heard
        requires within { place < length self.old }
        requires hears { HearsFrom (work_at self.old place) }
        ensures guests { self.new
            ≡ change_place (with_heard child child_result.now) self.old place }
        ensures heard { result ≡ frame_says
            (option_map (with_heard child child_result.now) (work_at self.old place)) }
    {
        self.items[place].work.hear(child, child_result)
    }
}

/// Puts each of these children at its place, unless it is there already; there is room for all.
fn put_gifts(items: &mut Vec<Guest>, places: &mut Vec<usize>, from: Site, gifts: Vec<Gift>)
    requires open { places.old.items ≡ open_places items.old.items }
    requires ascending { IsAscending (map guest_entry items.old.items) }
    requires room { vec_len items.old + length gifts.items ≤ vec_capacity items.old }
    requires space { vec_len places.old + length gifts.items ≤ vec_capacity places.old }
    ensures items { items.new.items ≡ put_gifts from gifts.items items.old.items }
    ensures open { places.new.items ≡ open_places items.new.items }
{
    let mut left = gifts;
    // (from the end, as the definition does; a pop also gives the gift away, so its prefix moves into the guest)
    while let Some(gift) = left.pop() {
        put_gift(items, places, from, gift);
    }
}

/// Puts a child at its place, unless it is there already; there is room for it.
fn put_gift(items: &mut Vec<Guest>, places: &mut Vec<usize>, from: Site, gift: Gift)
    requires open { places.old.items ≡ open_places items.old.items }
    requires ascending { IsAscending (map guest_entry items.old.items) }
    requires room { vec_len items.old < vec_capacity items.old }
    requires space { vec_len places.old < vec_capacity places.old }
    ensures items { items.new.items ≡ put_gift from gift items.old.items }
    ensures open { places.new.items ≡ open_places items.new.items }
    ensures ascending { IsAscending (map guest_entry items.new.items) }
    ensures room { vec_len items.new + vec_capacity items.old
        ≤ vec_len items.old + 1 + vec_capacity items.new }
    ensures space { vec_len places.new + vec_capacity places.old
        ≤ vec_len places.old + 1 + vec_capacity places.new }
{
    let Gift {
        serial,
        attempt,
        prefix,
    } = gift;
    let name = ChildName { site: from, serial };
    if has_guest(items, name, attempt) {
        return;
    }
    let place = place_behind(items, name, attempt);
    put_guest(items, places, place, new_guest(name, attempt, prefix));
}

/// Puts an open guest at a place, for which there is room; those from there on move by one.
fn put_guest(items: &mut Vec<Guest>, places: &mut Vec<usize>, place: usize, guest: Guest)
    requires open { places.old.items ≡ open_places items.old.items }
    requires within { place ≤ length items.old.items }
    requires begins { is_open guest.work.status ≡ true }
    requires room { vec_len items.old < vec_capacity items.old }
    requires space { vec_len places.old < vec_capacity places.old }
    ensures items { items.new.items ≡ insert items.old.items place guest }
    ensures open { places.new.items ≡ open_places items.new.items }
    ensures room { vec_len items.new ≡ vec_len items.old + 1 }
    ensures kept { vec_capacity items.old ≤ vec_capacity items.new }
    ensures space { vec_len places.new ≡ vec_len places.old + 1 }
    ensures spared { vec_capacity places.old ≤ vec_capacity places.new }
{
    match items.insert(place, guest) {
        Ok(()) => {}
        Err(_) => unreachable!(),
    }
    let count = items.len();
    prove!(place < count);
    put_place(places, place);
}

/// Puts a place among these, which rise, and for which there is room; those from it on are one further then.
fn put_place(places: &mut Vec<usize>, place: usize)
    requires room { vec_len places.old < vec_capacity places.old }
    requires rising { IsNonDecreasing places.old.items }
    requires fits { (k : ℕ) → k < length places.old.items
        → slice_index places.old.items k + 1 < 2 ^ 64 }
    ensures places { places.new.items ≡ places_with place places.old.items }
    ensures len { vec_len places.new ≡ vec_len places.old + 1 }
    ensures capacity { vec_capacity places.old ≤ vec_capacity places.new }
{
    let from = place_from(places, place);
    move_on(&mut places[from..]);
    match places.insert(from, place) {
        Ok(()) => {}
        Err(_) => unreachable!(),
    }
}

/// Takes a place out of these, which rise, unless it stays.
fn keep_place(places: &mut Vec<usize>, place: usize, stays: bool)
    requires { IsNonDecreasing places.old.items }
    ensures { places.new.items
        ≡ (if stays then places.old.items else places_without place places.old.items) }
{
    if stays {
        return;
    }
    let from = place_from(places, place);
    if from < places.len() && places[from] == place {
        places.remove(from);
    }
}

/// Where the places, which rise, are at this one or behind it. It costs a search by halving.
fn place_from(places: &[usize], place: usize) -> usize
    requires { IsNonDecreasing places.now }
    ensures within { result ≤ length places.now }
    ensures before { (k : ℕ) → k < result → slice_index places.now k < place }
    ensures from { (k : ℕ) → result ≤ k → k < length places.now
        → place ≤ slice_index places.now k }
{
    places.partition_point(
        |other: &usize| -> bool
            ensures { result ≡ nat_lt other.now place }
        { *other < place },
    )
}

/// Moves these places on by one.
fn move_on(places: &mut [usize])
    requires { (k : ℕ) → k < length places.old → slice_index places.old k + 1 < 2 ^ 64 }
    ensures { places.new ≡ map suc places.old }
{
    for place in places.iter_mut() {
        *place += 1;
    }
}
