//! The lines that give a reason.

ghost use Rattle.std.specs.Prelude.{◌≤◌, IfSome};

use crate::script::{cut, number_of, small_number_of};
use cover_reasons::{MOST_MODULUS, Reason, Room, Weights};
use std::alloc::{AllocError, Global};

/// Returns the reason that a line gives for a problem with so many items; none where it gives none. The only error is
/// out of memory.
pub(crate) fn reason_of(
    alloc: Global,
    line: &[u8],
    primary: usize,
    items: usize,
) -> Result<Option<Reason>, AllocError> {
    // (a space parts two words: none stands behind the last one)
    if line.last() == Some(&b' ') {
        return Ok(None);
    }
    let (word, rest) = cut(line, b' ');
    let (first, pairs) = cut(rest, b' ');
    let Some(number) = number_of(first) else {
        return Ok(None);
    };
    if word == b"weights".as_slice() {
        return weights_of(alloc, number, pairs, primary);
    }
    if word == b"room".as_slice() {
        return room_of(alloc, number, pairs, primary, items);
    }
    Ok(None)
}

/// Returns the weights that pairs give, modulo a number; the only error is out of memory.
fn weights_of(
    alloc: Global,
    modulus: u32,
    pairs: &[u8],
    primary: usize,
) -> Result<Option<Reason>, AllocError> {
    if modulus < 2 || modulus > MOST_MODULUS {
        return Ok(None);
    }
    let mut list = vec![in alloc; 0u16; primary]?;
    match fill(&mut list, pairs, pairs.len()) {
        Some([]) => Ok(Some(Reason::Weighed(Weights::from_parts(modulus, list)))),
        _ => Ok(None),
    }
}

/// Returns the needs that so many pairs give, and the rooms that the other pairs give; the only error is out of memory.
fn room_of(
    alloc: Global,
    needs: u32,
    pairs: &[u8],
    primary: usize,
    items: usize,
) -> Result<Option<Reason>, AllocError> {
    let mut needed = vec![in alloc; 0u16; primary]?;
    let Some(rest) = fill(&mut needed, pairs, needs as usize) else {
        return Ok(None);
    };
    let mut rooms = vec![in alloc; 0u16; items]?;
    match fill(&mut rooms, rest, rest.len()) {
        Some([]) => Ok(Some(Reason::TooLittleRoom(Room::from_parts(needed, rooms)))),
        _ => Ok(None),
    }
}

/// Writes the amounts of so many pairs, each of an item and its amount, to the items' places, and returns what stands
/// behind them; none where something else stands there.
fn fill<'a>(list: &mut [u16], pairs: &'a [u8], count: usize) -> Option<&'a [u8]> {
    let mut rest = pairs;
    for _ in 0..count {
        if rest.is_empty() {
            break;
        }
        let (item, behind) = cut(rest, b' ');
        let (amount, more) = cut(behind, b' ');
        match list.get_mut(small_number_of(item)? as usize) {
            Some(place) => *place = small_number_of(amount)?,
            None => return None,
        }
        rest = more;
    }
    Some(rest)
}
