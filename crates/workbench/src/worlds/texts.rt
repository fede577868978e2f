//! What happens in a world, in words.

use cover_problem::Numbers;
use packet_wire::Body;
use spawn_frame::{Attempt, Cause, ChildResult, Sibling, Site, Status, Unit};
use std::fmt;

/// A node in one incarnation.
#[derive(Clone, Copy)]
pub struct SiteText(pub Site);

impl fmt::Display for SiteText {
    fn fmt<W: fmt::Write>(&self, f: &mut fmt::Formatter<W>) -> fmt::Result {
        match self.0.node {
            0 => write!(f, "registry"),
            node => write!(f, "node {node} incarnation {}", self.0.incarnation),
        }
    }
}

/// A unit: an own child by its serial, a guest by its owner and serial, with the attempt.
#[derive(Clone, Copy)]
pub struct UnitText(pub Unit);

impl fmt::Display for UnitText {
    fn fmt<W: fmt::Write>(&self, f: &mut fmt::Formatter<W>) -> fmt::Result {
        match self.0 {
            Unit::Own(serial) => write!(f, "its child {serial}"),
            Unit::Guest(name, attempt) => {
                let owner = SiteText(name.site);
                let serial = name.serial;
                write!(f, "child {serial} of {owner}, attempt {attempt}")
            }
        }
    }
}

/// A list of options, by their numbers.
#[derive(Clone, Copy)]
pub struct OptionsText<'a>(pub &'a Numbers);

impl fmt::Display for OptionsText<'_> {
    fn fmt<W: fmt::Write>(&self, f: &mut fmt::Formatter<W>) -> fmt::Result {
        write!(f, "{:?}", self.0.as_slice())
    }
}

/// A result.
#[derive(Clone, Copy)]
pub struct ResultText<'a>(pub &'a ChildResult);

impl fmt::Display for ResultText<'_> {
    fn fmt<W: fmt::Write>(&self, f: &mut fmt::Formatter<W>) -> fmt::Result {
        match self.0 {
            ChildResult::Cover(options) => write!(f, "cover {}", OptionsText(options)),
            ChildResult::Empty => write!(f, "empty"),
        }
    }
}

/// A status.
#[derive(Clone, Copy)]
pub struct StatusText<'a>(pub &'a Status);

impl fmt::Display for StatusText<'_> {
    fn fmt<W: fmt::Write>(&self, f: &mut fmt::Formatter<W>) -> fmt::Result {
        match self.0 {
            Status::Ready => write!(f, "ready"),
            Status::Here => write!(f, "here"),
            Status::Split => write!(f, "split"),
            Status::Out(thief) => write!(f, "out to {}", SiteText(*thief)),
            Status::Done(came) => write!(f, "done: {}", ResultText(came)),
            Status::Aborted => write!(f, "aborted"),
            Status::Finished(came) => write!(f, "finished: {}", ResultText(came)),
            Status::Settled(came) => write!(f, "settled: {}", ResultText(came)),
            Status::Dropped => write!(f, "dropped"),
        }
    }
}

/// Writes children that are given together.
fn write_siblings<W: fmt::Write>(f: &mut fmt::Formatter<W>, siblings: &[Sibling]) -> fmt::Result {
    for Sibling {
        serial,
        attempt,
        option,
    } in siblings {
        write!(f, "; {serial}, attempt {attempt}, option {option}")?;
    }
    Ok(())
}

/// Writes what a packet of this kind says of a child.
fn write_child<W: fmt::Write, T: fmt::Display>(
    f: &mut fmt::Formatter<W>,
    kind: &str,
    serial: u32,
    attempt: Attempt,
    text: &T,
) -> fmt::Result {
    write!(f, "{kind} {serial}, attempt {attempt}, {text}")
}

/// What a packet says.
#[derive(Clone, Copy)]
pub struct BodyText<'a>(pub &'a Body);

impl fmt::Display for BodyText<'_> {
    fn fmt<W: fmt::Write>(&self, f: &mut fmt::Formatter<W>) -> fmt::Result {
        match self.0 {
            Body::Hello => write!(f, "Hello"),
            Body::Members(incarnations) => write!(f, "Members {:?}", incarnations.as_slice()),
            Body::Steal => write!(f, "Steal"),
            Body::NoWork => write!(f, "NoWork"),
            Body::Over => write!(f, "Over"),
            Body::Give {
                serial,
                attempt,
                prefix,
            } => write_child(f, "Give", *serial, *attempt, &OptionsText(prefix)),
            Body::GiveMany { prefix, siblings } => {
                write!(f, "GiveMany below {}", OptionsText(prefix))?;
                write_siblings(f, siblings.as_slice())
            }
            Body::Return {
                serial,
                attempt,
                result,
            } => write_child(f, "Return", *serial, *attempt, &ResultText(result)),
            Body::Accept {
                serial,
                attempt,
                result,
            } => write_child(f, "Accept", *serial, *attempt, &ResultText(result)),
            Body::Refuse {
                serial,
                attempt,
                cause,
            } => write_child(f, "Refuse", *serial, *attempt, &CauseText(*cause)),
            Body::Abort { serial, attempt } => write!(f, "Abort {serial}, attempt {attempt}"),
        }
    }
}

/// Why a result is refused.
#[derive(Clone, Copy)]
struct CauseText(Cause);

impl fmt::Display for CauseText {
    fn fmt<W: fmt::Write>(&self, f: &mut fmt::Formatter<W>) -> fmt::Result {
        match self.0 {
            Cause::Aborted => write!(f, "aborted"),
            Cause::Superseded => write!(f, "superseded"),
            Cause::Unknown => write!(f, "unknown"),
        }
    }
}
