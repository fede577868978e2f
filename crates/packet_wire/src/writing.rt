//! Writing packets as bytes.

ghost use Rattle.std.specs.Prelude.{◌≡◌, ◌<◌, ◌++◌, length, true, OnOk, OnErr, IfOk};
ghost use Rattle.packet_wire.specs.Spelling.{body_text, cause_number, child_text, give_many_text, header_text, incarnations_text, number, numbers, options_text, result_text, sibling_text, siblings_text, site_text, spelling, start_text};
ghost use Rattle.packet_wire.specs.Kinds.{kind_of};
ghost use Rattle.packet_wire.specs.WellFormed.{is_body, is_result, is_well_formed};

use crate::kind::Kind;
use crate::packet::{Body, Packet};
use byteorder::{BigEndian, ByteOrder};
use spawn_frame::{Attempt, Cause, ChildResult, Sibling, Site};
use std::alloc::{AllocError, Global};

/// The number with which each packet begins: `CN` in ASCII.
pub const MAGIC: u16 = 0x434e;

/// The version of each packet but those that give several children.
pub const VERSION: u8 = 1;

/// The version of the packets that give several children.
pub const SECOND_VERSION: u8 = 2;

/// The most bytes that a packet has, a GiveMany: the header 14, the count of children 1, a prefix of 999 options 2 +
/// 1,998, eight children 80. A datagram has to have room for it (`LONGEST_DATAGRAM` of site_network).
pub const LONGEST_PACKET: usize = 2095;

/// Writes a number of one byte.
#[tactic(auto, unfolding(crate::specs::Spelling::number))]
fn write_u8(out: &mut Vec<u8>, value: u8) -> Result<(), AllocError>
    ensures { OnOk result (out.new.items ≡ out.old.items ++ number 1 value) }
{
    out.push(value)?;
    Ok(())
}

/// Writes a number of two bytes.
#[tactic(auto, unfolding(crate::specs::Spelling::number))]
fn write_u16(out: &mut Vec<u8>, value: u16) -> Result<(), AllocError>
    ensures { OnOk result (out.new.items ≡ out.old.items ++ number 2 value) }
{
    let mut cells = [0; 2];
    BigEndian::write_u16(&mut cells, value);
    out.extend_from_slice(&cells)
}

/// Writes a number of four bytes.
#[tactic(auto, unfolding(crate::specs::Spelling::number))]
fn write_u32(out: &mut Vec<u8>, value: u32) -> Result<(), AllocError>
    ensures { OnOk result (out.new.items ≡ out.old.items ++ number 4 value) }
{
    let mut cells = [0; 4];
    BigEndian::write_u32(&mut cells, value);
    out.extend_from_slice(&cells)
}

/// Writes what each packet begins with, and the kind.
fn write_start(out: &mut Vec<u8>, kind: Kind) -> Result<(), AllocError>
    ensures { OnOk result (out.new.items ≡ out.old.items ++ start_text kind) }
{
    write_u16(out, MAGIC)?;
    write_u8(out, kind.version())?;
    write_u8(out, kind.number())
}

/// Writes the node and its incarnation.
fn write_site(out: &mut Vec<u8>, site: Site) -> Result<(), AllocError>
    ensures { OnOk result (out.new.items ≡ out.old.items ++ site_text site) }
{
    write_u8(out, site.node)?;
    write_u32(out, site.incarnation)
}

/// Writes the header.
fn write_header(out: &mut Vec<u8>, kind: Kind, from: Site, to: Site) -> Result<(), AllocError>
    ensures { OnOk result (out.new.items ≡ out.old.items ++ header_text kind from to) }
{
    write_start(out, kind)?;
    write_site(out, from)?;
    write_site(out, to)
}

/// Writes numbers of two bytes.
fn write_options(out: &mut Vec<u8>, options: &[u16]) -> Result<(), AllocError>
    ensures { OnOk result (out.new.items ≡ out.old.items ++ numbers 2 options.now) }
{
    for option in options {
        write_u16(out, *option)?;
    }
    Ok(())
}

/// Writes a list of options, with its count.
fn write_option_list(out: &mut Vec<u8>, options: &[u16]) -> Result<(), AllocError>
    requires { length options.now < 65536 }
    ensures { OnOk result (out.new.items ≡ out.old.items ++ options_text options.now) }
{
    write_u16(out, options.len() as u16)?;
    write_options(out, options)
}

/// Writes numbers of four bytes.
fn write_incarnations(out: &mut Vec<u8>, incarnations: &[u32]) -> Result<(), AllocError>
    ensures { OnOk result (out.new.items ≡ out.old.items ++ numbers 4 incarnations.now) }
{
    for incarnation in incarnations {
        write_u32(out, *incarnation)?;
    }
    Ok(())
}

/// Writes the incarnations of the nodes, with their count.
fn write_members(out: &mut Vec<u8>, incarnations: &[u32]) -> Result<(), AllocError>
    requires { length incarnations.now < 256 }
    ensures { OnOk result (out.new.items ≡ out.old.items ++ incarnations_text incarnations.now) }
{
    write_u8(out, incarnations.len() as u8)?;
    write_incarnations(out, incarnations)
}

/// Writes the name of a child, and the attempt.
fn write_child(out: &mut Vec<u8>, serial: u32, attempt: Attempt) -> Result<(), AllocError>
    ensures { OnOk result (out.new.items ≡ out.old.items ++ child_text serial attempt) }
{
    write_u32(out, serial)?;
    write_u32(out, attempt)
}

/// Writes a child among others.
fn write_sibling(out: &mut Vec<u8>, sibling: Sibling) -> Result<(), AllocError>
    ensures { OnOk result (out.new.items ≡ out.old.items ++ sibling_text sibling) }
{
    write_u32(out, sibling.serial)?;
    write_u32(out, sibling.attempt)?;
    write_u16(out, sibling.option)
}

/// Writes children of one parent.
fn write_siblings(out: &mut Vec<u8>, siblings: &[Sibling]) -> Result<(), AllocError>
    ensures { OnOk result (out.new.items ≡ out.old.items ++ siblings_text siblings.now) }
{
    for sibling in siblings {
        write_sibling(out, *sibling)?;
    }
    Ok(())
}

/// Writes a count, the prefix of a parent, and so many children.
fn write_give_many(
    out: &mut Vec<u8>,
    prefix: &[u16],
    siblings: &[Sibling],
) -> Result<(), AllocError>
    requires prefix { length prefix.now < 65536 }
    requires siblings { length siblings.now < 256 }
    ensures { OnOk result (out.new.items
        ≡ out.old.items ++ give_many_text prefix.now siblings.now) }
{
    write_u8(out, siblings.len() as u8)?;
    write_option_list(out, prefix)?;
    write_siblings(out, siblings)
}

/// Writes a result.
fn write_result(out: &mut Vec<u8>, told: &ChildResult) -> Result<(), AllocError>
    requires { is_result told.now ≡ true }
    ensures { OnOk result (out.new.items ≡ out.old.items ++ result_text told.now) }
{
    match told {
        ChildResult::Empty => write_u8(out, 0),
        ChildResult::Cover(options) => {
            write_u8(out, 1)?;
            write_option_list(out, options.as_slice())
        }
    }
}

/// Writes why a result is refused.
fn write_cause(out: &mut Vec<u8>, cause: Cause) -> Result<(), AllocError>
    ensures { OnOk result (out.new.items ≡ out.old.items ++ number 1 (cause_number cause)) }
{
    let value = match cause {
        Cause::Aborted => 1,
        Cause::Superseded => 2,
        Cause::Unknown => 3,
    };
    write_u8(out, value)
}

/// Writes the body.
fn write_body(out: &mut Vec<u8>, body: &Body) -> Result<(), AllocError>
    requires { is_body body.now ≡ true }
    ensures { OnOk result (out.new.items ≡ out.old.items ++ body_text body.now) }
{
    match body {
        Body::Hello | Body::Steal | Body::NoWork | Body::Over => Ok(()),
        Body::Members(incarnations) => write_members(out, incarnations.as_slice()),
        Body::Give {
            serial,
            attempt,
            prefix,
        } => {
            write_child(out, *serial, *attempt)?;
            write_option_list(out, prefix.as_slice())
        }
        Body::GiveMany { prefix, siblings } => {
            write_give_many(out, prefix.as_slice(), siblings.as_slice())
        }
        Body::Return {
            serial,
            attempt,
            result,
        }
        | Body::Accept {
            serial,
            attempt,
            result,
        } => {
            write_child(out, *serial, *attempt)?;
            write_result(out, result)
        }
        Body::Refuse {
            serial,
            attempt,
            cause,
        } => {
            write_child(out, *serial, *attempt)?;
            write_cause(out, *cause)
        }
        Body::Abort { serial, attempt } => write_child(out, *serial, *attempt),
    }
}

/// The bytes of the packet.
fn spelling_of(alloc: Global, packet: &Packet) -> Result<Vec<u8>, AllocError>
    requires { is_well_formed packet.now ≡ true }
    ensures { IfOk result (λ text. text.items ≡ spelling packet.now) }
{
    // (room for the longest packet, so none of the writes below takes memory)
    let mut text = Vec::with_capacity(alloc, LONGEST_PACKET)?;
    write_header(&mut text, Kind::of(&packet.body), packet.from, packet.to)?;
    write_body(&mut text, &packet.body)?;
    Ok(text)
}

/// Appends the bytes of a well-formed packet, of which there are at most 2,095.
///
/// A header of 14 bytes has the magic `43 4e`, the version, the kind, and of the sender and the receiver each the node
/// in one byte and the incarnation in four. The version is 1 and the kind a number from 1 to 10 in the order of
/// [`Body`], where a `GiveMany` shares the number of `Give` and has the version 2.
///
/// The body follows: of `Members` the count in one byte and the incarnations in four each; of `GiveMany` the count of
/// the children in one byte, the parent's prefix, and of each child the serial number and the attempt in four bytes
/// each and the option in two; of the others that name a child its serial number and the attempt in four bytes each,
/// and then the prefix, the result, or the cause from 1 to 3. A list of options has its count and each number in two
/// bytes; a result is the byte 0 for none, or 1 and the list of the cover. The highest byte of a number is first.
///
/// The only error is out of memory. The list is then as it was.
pub fn write_packet(alloc: Global, packet: &Packet, out: &mut Vec<u8>) -> Result<(), AllocError>
    requires { is_well_formed packet.now ≡ true }
    ensures written { OnOk result (out.new.items ≡ out.old.items ++ spelling packet.now) }
    ensures kept { OnErr result (out.new.items ≡ out.old.items) }
{
    // (written apart, so that the caller's list never gets part of a packet)
    let text = spelling_of(alloc, packet)?;
    out.extend_from_slice(&text)
}
