//! Multipliers as whole numbers.

use crate::row::Row;
use cover_problem::Problem;
use std::alloc::{AllocError, Global};
use std::num::saturating_f64_to_u16;

/// How far a number may be from a whole one and yet is taken for it: a millionth, of the order of LP solvers'
/// tolerances. Chosen, not measured. What it spoils is lost and never believed: rooms are added up exactly.
const NEAR: f64 = 1e-6;

/// What each of the first items needs, and for how much each of the first items has room. Nothing is proved of these
/// numbers.
#[derive(Drop)]
pub struct Rounded {
    needs: Row,
    rooms: Row,
}

impl Rounded {
    /// No need and no room.
    pub(crate) fn new(alloc: Global, problem: &Problem) -> Result<Rounded, AllocError> {
        Ok(Rounded {
            needs: Row::zeros(alloc, problem.primary())?,
            rooms: Row::zeros(alloc, problem.items())?,
        })
    }

    /// Gives an item its multiplier: a need where it is more than 0, else room.
    pub(crate) fn set(&mut self, item: usize, multiplier: f64) {
        if multiplier > 0.0 {
            self.needs
                .put(item, saturating_f64_to_u16(multiplier + NEAR));
        } else {
            // (the next whole number, but for one that is hardly passed)
            self.rooms
                .put(item, saturating_f64_to_u16(1.0 - NEAR - multiplier));
        }
    }

    /// The needs and the rooms, as lists in the order of the items.
    pub fn into_parts(self) -> (Vec<u16>, Vec<u16>) {
        let Rounded { needs, rooms } = self;
        (needs.into_vec(), rooms.into_vec())
    }
}
