//! Which packets have a spelling.

ghost use Rattle.std.specs.Prelude.{◌≡◌, None};
ghost use Rattle.std.specs.List.{list_all};
ghost use Rattle.packet_wire.specs.WellFormed.{are_incarnations, are_options, are_siblings, is_body, is_child, is_counted, is_incarnation_of, is_next_serial, is_node, is_node_count, is_option, is_option_count, is_parent, is_parent_count, is_result, is_sibling, is_sibling_count, is_site, is_well_formed};

use crate::kind::Kind;
use crate::packet::{Body, Packet};
use cover_problem::{MOST_ITEMS, MOST_OPTIONS};
use spawn_frame::{Attempt, ChildResult, LAST_NODE, MOST_SIBLINGS, Sibling, Site};

/// Whether it is a node's number, or 0 for the registry.
pub(crate) fn is_node(node: u8) -> bool
    ensures { result ≡ is_node node }
{
    node <= LAST_NODE
}

/// Whether it is an incarnation of a node, or an attempt.
pub(crate) fn is_counted(number: u32) -> bool
    ensures { result ≡ is_counted number }
{
    0 < number
}

/// Whether it is an incarnation of that node.
pub(crate) fn is_incarnation_of(node: u8, number: u32) -> bool
    ensures { result ≡ is_incarnation_of node number }
{
    is_counted(number) && (node != 0 || number == 1)
}

/// Whether it is a site.
fn is_site(site: Site) -> bool
    ensures { result ≡ is_site site }
{
    is_node(site.node) && is_incarnation_of(site.node, site.incarnation)
}

/// Whether it is the number of an option.
pub(crate) fn is_option(number: u16) -> bool
    ensures { result ≡ is_option number }
{
    // (the bound of all problems: bytes are read without one; a node tests a prefix, the registry a cover)
    usize::from(number) < MOST_OPTIONS
}

/// Whether a list of at least so many options may have this length: no prefix has more options than there are items.
pub(crate) fn is_option_count(least: usize, count: usize) -> bool
    ensures { result ≡ is_option_count least count }
{
    least <= count && count <= MOST_ITEMS
}

/// Whether each is the number of an option.
fn all_are_options(options: &[u16]) -> bool
    ensures { result ≡ list_all is_option options.now }
{
    options.iter().all(|option| is_option(*option))
}

/// Whether it is a list of at least so many options.
fn are_options(least: usize, options: &[u16]) -> bool
    ensures { result ≡ are_options least options.now }
{
    is_option_count(least, options.len()) && all_are_options(options)
}

/// Whether there may be so many incarnations.
pub(crate) fn is_node_count(count: usize) -> bool
    ensures { result ≡ is_node_count count }
{
    0 < count && count <= LAST_NODE as usize
}

/// Whether each is at least 1.
fn all_are_counted(numbers: &[u32]) -> bool
    ensures { result ≡ list_all is_counted numbers.now }
{
    numbers.iter().all(|number| is_counted(*number))
}

/// Whether they are the incarnations of the nodes from 1 on.
fn are_incarnations(incarnations: &[u32]) -> bool
    ensures { result ≡ are_incarnations incarnations.now }
{
    is_node_count(incarnations.len()) && all_are_counted(incarnations)
}

/// Whether it is a child at an attempt.
fn is_child(serial: u32, attempt: Attempt) -> bool
    ensures { result ≡ is_child serial attempt }
{
    // (any serial may be, since only the owner knows which ones it has named)
    is_counted(attempt)
}

/// Whether it is a result: a cover names an option.
fn is_result(told: &ChildResult) -> bool
    ensures { result ≡ is_result told.now }
{
    match told {
        ChildResult::Empty => true,
        // (every problem has a primary item, so a cover has an option)
        ChildResult::Cover(options) => are_options(1, options.as_slice()),
    }
}

/// Whether the prefix of a parent may have this length: a child has one option more.
pub(crate) fn is_parent_count(count: usize) -> bool
    ensures { result ≡ is_parent_count count }
{
    count < MOST_ITEMS
}

/// Whether it is the prefix of a parent.
fn is_parent(prefix: &[u16]) -> bool
    ensures { result ≡ is_parent prefix.now }
{
    is_parent_count(prefix.len()) && all_are_options(prefix)
}

/// Whether so many children may be given together.
pub(crate) fn is_sibling_count(count: usize) -> bool
    ensures { result ≡ is_sibling_count count }
{
    1 < count && count <= MOST_SIBLINGS
}

/// Whether the serial is above the last one, if there was one.
pub(crate) fn is_next_serial(last: Option<u32>, serial: u32) -> bool
    ensures { result ≡ is_next_serial last serial }
{
    match last {
        Some(last) => last < serial,
        None => true,
    }
}

/// Whether it is a child of a parent, behind the last one if there was one.
fn is_sibling(last: Option<u32>, sibling: Sibling) -> bool
    ensures { result ≡ is_sibling last sibling }
{
    is_next_serial(last, sibling.serial) && is_counted(sibling.attempt) && is_option(sibling.option)
}

/// Whether they are children of one parent, whose serials rise.
fn are_siblings(siblings: &[Sibling]) -> bool
    ensures { result ≡ are_siblings None siblings.now }
{
    let mut last = None;
    for sibling in siblings {
        if !is_sibling(last, *sibling) {
            return false;
        }
        last = Some(sibling.serial);
    }
    true
}

/// Whether each field of the body is allowed.
fn is_body(body: &Body) -> bool
    ensures { result ≡ is_body body.now }
{
    match body {
        Body::Hello | Body::Steal | Body::NoWork | Body::Over => true,
        Body::Members(incarnations) => are_incarnations(incarnations.as_slice()),
        Body::Give {
            serial,
            attempt,
            prefix,
        } => is_child(*serial, *attempt) && are_options(0, prefix.as_slice()),
        Body::GiveMany { prefix, siblings } => {
            is_sibling_count(siblings.as_slice().len())
                && is_parent(prefix.as_slice())
                && are_siblings(siblings.as_slice())
        }
        Body::Return {
            serial,
            attempt,
            result,
        }
        | Body::Accept {
            serial,
            attempt,
            result,
        } => is_child(*serial, *attempt) && is_result(result),
        Body::Refuse {
            serial,
            attempt,
            ..
        }
        | Body::Abort { serial, attempt } => is_child(*serial, *attempt),
    }
}

/// Whether the packet has a spelling.
///
/// Its sites are two of the registry and the nodes 1 to 16, with incarnations from 1 on and exactly 1 for the registry,
/// and go with the kind: a Hello is for the registry, a Members or Over from it, a Steal or Return from a node, and
/// each other packet for a node. Attempts and incarnations are at least 1; a Members has 1 to 16 of them. Lists have at
/// most 1,000 numbers of options, each at most 19,999, and a cover at least one. A GiveMany goes from a node to a node;
/// it has 2 to 8 children, whose serials rise, and the prefix of their parent has at most 999 options.
///
/// What a core puts out is so by its contract, so only tests and tools ask.
pub fn is_well_formed(packet: &Packet) -> bool
    ensures { result ≡ is_well_formed packet.now }
{
    is_site(packet.from)
        && is_site(packet.to)
        && Kind::of(&packet.body).is_routed(packet.from, packet.to)
        && is_body(&packet.body)
}
