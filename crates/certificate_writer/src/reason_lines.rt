//! The line of a certificate that gives a reason.

use crate::text::push_number;
use cover_reasons::{Reason, Room, Weights};
use std::alloc::AllocError;

/// Adds the line of a reason to a text, without its end.
pub(crate) fn push_reason(text: &mut Vec<u8>, reason: &Reason) -> Result<(), AllocError> {
    match reason {
        Reason::Weighed(weights) => push_weights(text, weights),
        Reason::TooLittleRoom(room) => push_room(text, room),
    }
}

/// Adds a modulus and the weights of items.
fn push_weights(text: &mut Vec<u8>, weights: &Weights) -> Result<(), AllocError> {
    text.extend_from_slice(b"weights ")?;
    push_number(text, u64::from(weights.modulus()))?;
    push_pairs(text, weights.as_slice())
}

/// Adds how many items have needs, their needs, and the rooms of items.
fn push_room(text: &mut Vec<u8>, room: &Room) -> Result<(), AllocError> {
    text.extend_from_slice(b"room ")?;
    push_number(text, count_of(room.needs()))?;
    push_pairs(text, room.needs())?;
    push_pairs(text, room.rooms())
}

/// Returns how many items have an amount.
fn count_of(amounts: &[u16]) -> u64 {
    amounts.iter().filter(|amount| **amount != 0).count() as u64
}

/// Adds each item that has an amount, and the amount.
fn push_pairs(text: &mut Vec<u8>, amounts: &[u16]) -> Result<(), AllocError> {
    for (item, amount) in amounts.iter().enumerate() {
        if *amount > 0 {
            push_pair(text, item as u64, *amount)?;
        }
    }
    Ok(())
}

/// Adds an item and its amount.
fn push_pair(text: &mut Vec<u8>, item: u64, amount: u16) -> Result<(), AllocError> {
    text.push(b' ')?;
    push_number(text, item)?;
    text.push(b' ')?;
    push_number(text, u64::from(amount))
}
