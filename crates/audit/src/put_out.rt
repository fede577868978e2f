//! Whether a packet was put out, by a walk over all that is merged.

ghost use Rattle.std.specs.Prelude.{◌≡◌, length, Decides};
ghost use Rattle.audit.specs.Cursors.{IsAmong, IsPutOutBefore, PutOut};

use packet_wire::Packet;
use run_book::{Book, Entry, Run};

/// Whether an entry before the cursor of its book put the packet out.
pub fn was_put_out<J: Run>(books: &[Book<J>], cursors: &[usize], packet: &Packet) -> bool
    requires { length cursors.now ≡ length books.now }
    ensures { Decides result (PutOut books.now cursors.now packet.now) }
{
    for k in 0..books.len() {
        if has_put_out(&books[k], cursors[k], packet) {
            return true;
        }
    }
    false
}

/// Whether one of the book's first so many entries put the packet out.
fn has_put_out<J: Run>(book: &Book<J>, end: usize, packet: &Packet) -> bool
    ensures { Decides result (IsPutOutBefore book.now.entries end packet.now) }
{
    is_put_out_before(book.entries(), end, packet)
}

/// Whether one of the first so many entries put the packet out.
fn is_put_out_before(entries: &[Entry], end: usize, packet: &Packet) -> bool
    ensures { Decides result (IsPutOutBefore entries.now end packet.now) }
{
    for place in 0..end {
        // (never so of a cursor, which no requirement here says)
        if place >= entries.len() {
            return false;
        }
        if is_among(entries[place].packets(), packet) {
            return true;
        }
    }
    false
}

/// Whether the packet is one of these.
fn is_among(packets: &[Packet], packet: &Packet) -> bool
    ensures { Decides result (IsAmong packet.now packets.now) }
{
    for one in packets {
        if one.is_same(packet) {
            return true;
        }
    }
    false
}
