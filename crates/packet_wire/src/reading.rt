//! Reading packets from bytes.
//!
//! A packet has one spelling (a canonical encoding), and nothing else is read: no unknown kinds, no spare bytes, no two
//! ways to write a list. So equal packets are equal bytes, and bytes of a stranger that are no packet are seen as such.
//! What is refused is named by its first fault.

ghost use Rattle.std.specs.Prelude.{◌≡◌, true, IfOk, None, Ok};
ghost use Rattle.packet_wire.specs.Spelling.{spelling};
ghost use Rattle.packet_wire.specs.Reading.{Gives, body_at, cause_at, child_at, field_at, fields_at, give_many_at, header_at, incarnations_at, number_at, options_at, packet_at, parent_at, reading, result_at, sibling_at, siblings_at, site_at, start_at};
ghost use Rattle.packet_wire.specs.WellFormed.{is_counted, is_next_serial, is_option, is_well_formed};
ghost use Rattle.packet_wire.specs.declared.fault.WireFault.TheVariants.{Field};

use crate::fault::WireFault;
use crate::incarnations::Incarnations;
use crate::kind::Kind;
use crate::packet::{Body, Packet};
use crate::well_formed::{
    is_counted, is_incarnation_of, is_next_serial, is_node, is_node_count, is_option,
    is_option_count, is_parent_count, is_sibling_count,
};
use crate::writing::{MAGIC, SECOND_VERSION, VERSION};
use byteorder::{BigEndian, ByteOrder};
use cover_problem::Numbers;
use spawn_frame::{Attempt, Cause, ChildResult, Sibling, Siblings, Site};
use std::alloc::Global;

/// Reads a number of one byte, and returns the bytes after it.
#[tactic(auto, unfolding(crate::specs::Reading::number_at))]
fn u8_at(bytes: &[u8]) -> Result<(u8, &[u8]), WireFault>
    ensures { Gives (λ x. (x.0, x.1.now)) result (number_at 1 bytes.now) }
{
    match bytes {
        [] => Err(WireFault::Short),
        [number, rest @ ..] => Ok((*number, rest)),
    }
}

/// Reads a number of two bytes.
#[tactic(auto, unfolding(crate::specs::Reading::number_at))]
fn u16_at(bytes: &[u8]) -> Result<(u16, &[u8]), WireFault>
    ensures { Gives (λ x. (x.0, x.1.now)) result (number_at 2 bytes.now) }
{
    if bytes.len() < 2 {
        return Err(WireFault::Short);
    }
    Ok((BigEndian::read_u16(bytes), &bytes[2..]))
}

/// Reads a number of four bytes.
#[tactic(auto, unfolding(crate::specs::Reading::number_at))]
fn u32_at(bytes: &[u8]) -> Result<(u32, &[u8]), WireFault>
    ensures { Gives (λ x. (x.0, x.1.now)) result (number_at 4 bytes.now) }
{
    if bytes.len() < 4 {
        return Err(WireFault::Short);
    }
    Ok((BigEndian::read_u32(bytes), &bytes[4..]))
}

/// Reads what each packet begins with, and the kind.
#[tactic(auto, unfolding(crate::specs::Reading::start_at))]
fn start_at(bytes: &[u8]) -> Result<(Kind, &[u8]), WireFault>
    ensures { Gives (λ x. (x.0, x.1.now)) result (start_at bytes.now) }
{
    let (magic, rest) = u16_at(bytes)?;
    if magic != MAGIC {
        return Err(WireFault::Magic);
    }
    let (version, rest) = u8_at(rest)?;
    if !(version == VERSION || version == SECOND_VERSION) {
        return Err(WireFault::Version);
    }
    let (number, rest) = u8_at(rest)?;
    let Some(kind) = Kind::numbered(version, number) else {
        return Err(WireFault::Kind);
    };
    Ok((kind, rest))
}

/// Reads a node and its incarnation.
#[tactic(auto, unfolding(crate::specs::Reading::site_at))]
fn site_at(bytes: &[u8]) -> Result<(Site, &[u8]), WireFault>
    ensures { Gives (λ x. (x.0, x.1.now)) result (site_at bytes.now) }
{
    let (node, rest) = u8_at(bytes)?;
    if !is_node(node) {
        return Err(WireFault::Field);
    }
    let (incarnation, rest) = u32_at(rest)?;
    if !is_incarnation_of(node, incarnation) {
        return Err(WireFault::Field);
    }
    Ok((Site { node, incarnation }, rest))
}

/// What the header of a packet says.
#[derive(Clone, Copy)]
struct Header {
    kind: Kind,
    from: Site,
    to: Site,
}

/// Reads a header.
#[tactic(auto, unfolding(crate::specs::Reading::header_at))]
fn header_at(bytes: &[u8]) -> Result<(Header, &[u8]), WireFault>
    ensures { Gives (λ x. (x.0, x.1.now)) result (header_at bytes.now) }
{
    let (kind, rest) = start_at(bytes)?;
    let (from, rest) = site_at(rest)?;
    let (to, rest) = site_at(rest)?;
    // (refused here once, so that no step of a site has to ask who may send what)
    if !kind.is_routed(from, to) {
        return Err(WireFault::Field);
    }
    Ok((Header { kind, from, to }, rest))
}

/// Reads the number of an option.
fn option_at(bytes: &[u8]) -> Result<(u16, &[u8]), WireFault>
    ensures { Gives (λ x. (x.0, x.1.now)) result (field_at 2 is_option Field bytes.now) }
{
    let (option, rest) = u16_at(bytes)?;
    if !is_option(option) {
        return Err(WireFault::Field);
    }
    Ok((option, rest))
}

/// Reads so many numbers of options.
fn options_of(alloc: Global, count: u16, bytes: &[u8]) -> Result<(Vec<u16>, &[u8]), WireFault>
    ensures { Gives (λ x. (x.0.items, x.1.now)) result (fields_at 2 is_option count bytes.now) }
{
    // (the callers have tested the count, so forged bytes get room for 1,000 options at most)
    let mut options = Vec::with_capacity(alloc, count as usize)?;
    let mut rest = bytes;
    for _ in 0..count {
        let (option, after) = option_at(rest)?;
        options.push(option)?;
        rest = after;
    }
    Ok((options, rest))
}

/// Reads a list of at least so many options.
#[tactic(auto, unfolding(crate::specs::Reading::options_at))]
fn options_at(alloc: Global, least: usize, bytes: &[u8]) -> Result<(Numbers, &[u8]), WireFault>
    ensures { Gives (λ x. (x.0, x.1.now)) result (options_at least bytes.now) }
{
    let (count, rest) = u16_at(bytes)?;
    if !is_option_count(least, count as usize) {
        return Err(WireFault::Field);
    }
    let (options, rest) = options_of(alloc, count, rest)?;
    Ok((Numbers::from_vec(options), rest))
}

/// Reads an incarnation of a node, or an attempt.
fn counted_at(bytes: &[u8]) -> Result<(u32, &[u8]), WireFault>
    ensures { Gives (λ x. (x.0, x.1.now)) result (field_at 4 is_counted Field bytes.now) }
{
    let (number, rest) = u32_at(bytes)?;
    if !is_counted(number) {
        return Err(WireFault::Field);
    }
    Ok((number, rest))
}

/// Reads so many incarnations.
fn incarnations_of(alloc: Global, count: u8, bytes: &[u8]) -> Result<(Vec<u32>, &[u8]), WireFault>
    ensures { Gives (λ x. (x.0.items, x.1.now)) result (fields_at 4 is_counted count bytes.now) }
{
    let mut incarnations = Vec::with_capacity(alloc, count as usize)?;
    let mut rest = bytes;
    for _ in 0..count {
        let (incarnation, after) = counted_at(rest)?;
        incarnations.push(incarnation)?;
        rest = after;
    }
    Ok((incarnations, rest))
}

/// Reads the incarnations of the nodes.
#[tactic(auto, unfolding(crate::specs::Reading::incarnations_at))]
fn incarnations_at(alloc: Global, bytes: &[u8]) -> Result<(Incarnations, &[u8]), WireFault>
    ensures { Gives (λ x. (x.0, x.1.now)) result (incarnations_at bytes.now) }
{
    let (count, rest) = u8_at(bytes)?;
    if !is_node_count(count as usize) {
        return Err(WireFault::Field);
    }
    let (incarnations, rest) = incarnations_of(alloc, count, rest)?;
    Ok((Incarnations::from_vec(incarnations), rest))
}

/// Reads the serial number of a child, and an attempt.
#[tactic(auto, unfolding(crate::specs::Reading::child_at))]
fn child_at(bytes: &[u8]) -> Result<((u32, Attempt), &[u8]), WireFault>
    ensures { Gives (λ x. (x.0, x.1.now)) result (child_at bytes.now) }
{
    let (serial, rest) = u32_at(bytes)?;
    let (attempt, rest) = counted_at(rest)?;
    Ok(((serial, attempt), rest))
}

/// Reads the prefix of a parent.
#[tactic(auto, unfolding(crate::specs::Reading::parent_at))]
fn parent_at(alloc: Global, bytes: &[u8]) -> Result<(Numbers, &[u8]), WireFault>
    ensures { Gives (λ x. (x.0, x.1.now)) result (parent_at bytes.now) }
{
    let (count, rest) = u16_at(bytes)?;
    if !is_parent_count(count as usize) {
        return Err(WireFault::Field);
    }
    let (options, rest) = options_of(alloc, count, rest)?;
    Ok((Numbers::from_vec(options), rest))
}

/// Reads a serial number above the last one, if there was one.
fn next_serial_at(last: Option<u32>, bytes: &[u8]) -> Result<(u32, &[u8]), WireFault>
    ensures { Gives (λ x. (x.0, x.1.now)) result
        (field_at 4 (is_next_serial last) Field bytes.now) }
{
    let (serial, rest) = u32_at(bytes)?;
    if !is_next_serial(last, serial) {
        return Err(WireFault::Field);
    }
    Ok((serial, rest))
}

/// Reads a child among others.
#[tactic(auto, unfolding(crate::specs::Reading::sibling_at))]
fn sibling_at(last: Option<u32>, bytes: &[u8]) -> Result<(Sibling, &[u8]), WireFault>
    ensures { Gives (λ x. (x.0, x.1.now)) result (sibling_at last bytes.now) }
{
    // (serials rise, so no packet gives one child twice)
    let (serial, rest) = next_serial_at(last, bytes)?;
    let (attempt, rest) = counted_at(rest)?;
    let (option, rest) = option_at(rest)?;
    let sibling = Sibling {
        serial,
        attempt,
        option,
    };
    Ok((sibling, rest))
}

/// Reads so many children, whose serials rise.
fn siblings_of(alloc: Global, count: u8, bytes: &[u8]) -> Result<(Vec<Sibling>, &[u8]), WireFault>
    ensures { Gives (λ x. (x.0.items, x.1.now)) result (siblings_at None count bytes.now) }
{
    let mut siblings = Vec::with_capacity(alloc, count as usize)?;
    let mut rest = bytes;
    let mut last = None;
    for _ in 0..count {
        let (sibling, after) = sibling_at(last, rest)?;
        siblings.push(sibling)?;
        last = Some(sibling.serial);
        rest = after;
    }
    Ok((siblings, rest))
}

/// Reads a count, the prefix of a parent, and so many children.
#[tactic(auto, unfolding(crate::specs::Reading::give_many_at))]
fn give_many_at(alloc: Global, bytes: &[u8]) -> Result<((Numbers, Siblings), &[u8]), WireFault>
    ensures { Gives (λ x. ((x.0.0, x.0.1), x.1.now)) result (give_many_at bytes.now) }
{
    let (count, rest) = u8_at(bytes)?;
    if !is_sibling_count(count as usize) {
        return Err(WireFault::Field);
    }
    let (prefix, rest) = parent_at(alloc, rest)?;
    let (siblings, rest) = siblings_of(alloc, count, rest)?;
    Ok(((prefix, Siblings::from_vec(siblings)), rest))
}

/// Reads a result.
#[tactic(auto, unfolding(crate::specs::Reading::result_at))]
fn result_at(alloc: Global, bytes: &[u8]) -> Result<(ChildResult, &[u8]), WireFault>
    ensures { Gives (λ x. (x.0, x.1.now)) result (result_at bytes.now) }
{
    let (flag, rest) = u8_at(bytes)?;
    match flag {
        0 => Ok((ChildResult::Empty, rest)),
        1 => {
            let (options, rest) = options_at(alloc, 1, rest)?;
            Ok((ChildResult::Cover(options), rest))
        }
        _ => Err(WireFault::Field),
    }
}

/// Reads why a result is refused.
#[tactic(auto, unfolding(crate::specs::Reading::cause_at))]
fn cause_at(bytes: &[u8]) -> Result<(Cause, &[u8]), WireFault>
    ensures { Gives (λ x. (x.0, x.1.now)) result (cause_at bytes.now) }
{
    let (number, rest) = u8_at(bytes)?;
    match number {
        1 => Ok((Cause::Aborted, rest)),
        2 => Ok((Cause::Superseded, rest)),
        3 => Ok((Cause::Unknown, rest)),
        _ => Err(WireFault::Field),
    }
}

/// Reads the body of a Give.
#[tactic(auto, unfolding(crate::specs::Reading::body_at))]
fn give_at(alloc: Global, bytes: &[u8]) -> Result<(Body, &[u8]), WireFault>
    ensures { Gives (λ x. (x.0, x.1.now)) result (body_at Kind.Give bytes.now) }
{
    let ((serial, attempt), rest) = child_at(bytes)?;
    let (prefix, rest) = options_at(alloc, 0, rest)?;
    let body = Body::Give {
        serial,
        attempt,
        prefix,
    };
    Ok((body, rest))
}

/// Reads the body of a Return.
#[tactic(auto, unfolding(crate::specs::Reading::body_at))]
fn return_at(alloc: Global, bytes: &[u8]) -> Result<(Body, &[u8]), WireFault>
    ensures { Gives (λ x. (x.0, x.1.now)) result (body_at Kind.Return bytes.now) }
{
    let ((serial, attempt), rest) = child_at(bytes)?;
    let (result, rest) = result_at(alloc, rest)?;
    let body = Body::Return {
        serial,
        attempt,
        result,
    };
    Ok((body, rest))
}

/// Reads the body of an Accept.
#[tactic(auto, unfolding(crate::specs::Reading::body_at))]
fn accept_at(alloc: Global, bytes: &[u8]) -> Result<(Body, &[u8]), WireFault>
    ensures { Gives (λ x. (x.0, x.1.now)) result (body_at Kind.Accept bytes.now) }
{
    let ((serial, attempt), rest) = child_at(bytes)?;
    let (result, rest) = result_at(alloc, rest)?;
    let body = Body::Accept {
        serial,
        attempt,
        result,
    };
    Ok((body, rest))
}

/// Reads the body of a Refuse.
#[tactic(auto, unfolding(crate::specs::Reading::body_at))]
fn refuse_at(bytes: &[u8]) -> Result<(Body, &[u8]), WireFault>
    ensures { Gives (λ x. (x.0, x.1.now)) result (body_at Kind.Refuse bytes.now) }
{
    let ((serial, attempt), rest) = child_at(bytes)?;
    let (cause, rest) = cause_at(rest)?;
    let body = Body::Refuse {
        serial,
        attempt,
        cause,
    };
    Ok((body, rest))
}

/// Reads a body of this kind.
#[tactic(auto, unfolding(crate::specs::Reading::body_at))]
fn body_at(alloc: Global, kind: Kind, bytes: &[u8]) -> Result<(Body, &[u8]), WireFault>
    ensures { Gives (λ x. (x.0, x.1.now)) result (body_at kind bytes.now) }
{
    match kind {
        Kind::Hello => Ok((Body::Hello, bytes)),
        Kind::Members => {
            let (incarnations, rest) = incarnations_at(alloc, bytes)?;
            Ok((Body::Members(incarnations), rest))
        }
        Kind::Steal => Ok((Body::Steal, bytes)),
        Kind::Give => give_at(alloc, bytes),
        Kind::GiveMany => {
            let ((prefix, siblings), rest) = give_many_at(alloc, bytes)?;
            Ok((Body::GiveMany { prefix, siblings }, rest))
        }
        Kind::NoWork => Ok((Body::NoWork, bytes)),
        Kind::Return => return_at(alloc, bytes),
        Kind::Accept => accept_at(alloc, bytes),
        Kind::Refuse => refuse_at(bytes),
        Kind::Abort => {
            let ((serial, attempt), rest) = child_at(bytes)?;
            Ok((Body::Abort { serial, attempt }, rest))
        }
        Kind::Over => Ok((Body::Over, bytes)),
    }
}

/// Reads the packet at the front of the bytes.
#[tactic(auto, unfolding(crate::specs::Reading::packet_at))]
fn packet_at(alloc: Global, bytes: &[u8]) -> Result<(Packet, &[u8]), WireFault>
    ensures { Gives (λ x. (x.0, x.1.now)) result (packet_at bytes.now) }
{
    let (header, rest) = header_at(bytes)?;
    let (body, rest) = body_at(alloc, header.kind, rest)?;
    let packet = Packet {
        from: header.from,
        to: header.to,
        body,
    };
    Ok((packet, rest))
}

/// Reads a packet that all of the bytes are.
#[tactic(auto, unfolding(crate::specs::Reading::reading))]
fn whole_packet(alloc: Global, bytes: &[u8]) -> Result<Packet, WireFault>
    ensures { Gives (λ packet. packet) result (reading bytes.now) }
{
    let (packet, rest) = packet_at(alloc, bytes)?;
    // (else further bytes would make other spellings of the same packet)
    if !rest.is_empty() {
        return Err(WireFault::Trailing);
    }
    Ok(packet)
}

/// Reads the packet that the bytes are, all of them, as `write_packet` writes it.
///
/// An error other than `Memory` is the first fault from left to right: at each field `Short` where the bytes end before
/// the field does, and then `Magic`, `Version`, `Kind` or `Field` where its value is not allowed. A count, and each
/// number of a list, is a field. That the two sites go with the kind is tested behind the header, as a field of no
/// bytes. Memory is taken for the list alone.
pub fn read_packet(alloc: Global, bytes: &[u8]) -> Result<Packet, WireFault>
    // What is read is well-formed, and spelled so.
    ensures found { IfOk result (λ packet.
        (is_well_formed packet ≡ true) × (bytes.now ≡ spelling packet)) }

    // What is spelled so is read, unless memory runs out.
    ensures only { (p : Packet) → is_well_formed p ≡ true → bytes.now ≡ spelling p →
        Gives (λ packet. packet) result (Ok p) }

    // Which fault it is, field by field.
    ensures exact { Gives (λ packet. packet) result (reading bytes.now) }
{
    whole_packet(alloc, bytes)
}
