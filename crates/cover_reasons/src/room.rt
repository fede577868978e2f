//! What primary items need, and the room that items have for it.

ghost use Rattle.std.specs.Prelude.{◌≡◌};

use std::marker::Model;

/// What each of the first items needs, and for how much each of the first items has room.
#[derive(Debug, Drop)]
pub struct Room {
    needs: Vec<u16>,
    rooms: Vec<u16>,
}

impl Model for Room {
    ghost use Rattle.cover_reasons.specs.Room.{Room as RoomValue};

    ghost Value = { RoomValue };

    ghost view = { λ r. record { needs = r.needs.items; rooms = r.rooms.items } };
}

impl Room {
    /// The needs and the rooms of these lists, each in the order of the items.
    pub fn from_parts(needs: Vec<u16>, rooms: Vec<u16>) -> Room
        ensures { result ≡ record { needs = needs.items; rooms = rooms.items } }
    {
        Room { needs, rooms }
    }

    /// What the first items need, in their order.
    pub fn needs(&self) -> &[u16]
        ensures { result.now ≡ self.now.needs }
    {
        &self.needs
    }

    /// For how much the first items have room, in their order.
    pub fn rooms(&self) -> &[u16]
        ensures { result.now ≡ self.now.rooms }
    {
        &self.rooms
    }

    /// How many items need room or have some; one that does both counts twice.
    pub fn size(&self) -> usize {
        count_some(&self.needs).saturating_add(count_some(&self.rooms))
    }
}

/// How many of these amounts aren't 0.
fn count_some(amounts: &[u16]) -> usize {
    amounts.iter().filter(|amount| **amount != 0).count()
}
