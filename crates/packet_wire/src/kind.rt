//! The byte by which a packet says what it is, with its version. Version 2 has one kind, GiveMany, under the number of
//! Give.

ghost use Rattle.std.specs.Prelude.{◌≡◌};
ghost use Rattle.packet_wire.specs.Kinds.{is_routed, kind_number, kind_numbered, kind_of, kind_version};

use crate::packet::Body;
use crate::writing::{SECOND_VERSION, VERSION};
use spawn_frame::Site;

/// What sort of thing a packet says.
#[derive(Clone, Copy, Debug, PartialEq, Eq)]
pub(crate) enum Kind {
    Hello,
    Members,
    Steal,
    Give,
    GiveMany,
    NoWork,
    Return,
    Accept,
    Refuse,
    Abort,
    Over,
}

impl Kind {
    /// The kind of a body.
    pub(crate) fn of(body: &Body) -> Kind
        ensures { result ≡ kind_of body.now }
    {
        match body {
            Body::Hello => Kind::Hello,
            Body::Members(_) => Kind::Members,
            Body::Steal => Kind::Steal,
            Body::Give { .. } => Kind::Give,
            Body::GiveMany { .. } => Kind::GiveMany,
            Body::NoWork => Kind::NoWork,
            Body::Return { .. } => Kind::Return,
            Body::Accept { .. } => Kind::Accept,
            Body::Refuse { .. } => Kind::Refuse,
            Body::Abort { .. } => Kind::Abort,
            Body::Over => Kind::Over,
        }
    }

    /// The version of the packets of this kind.
    pub(crate) fn version(self) -> u8
        ensures { result ≡ kind_version self }
    {
        match self {
            Kind::GiveMany => SECOND_VERSION,
            _ => VERSION,
        }
    }

    /// The number that stands for the kind in its version.
    pub(crate) fn number(self) -> u8
        ensures { result ≡ kind_number self }
    {
        match self {
            Kind::Hello => 1,
            Kind::Members => 2,
            Kind::Steal => 3,
            Kind::Give | Kind::GiveMany => 4,
            Kind::NoWork => 5,
            Kind::Return => 6,
            Kind::Accept => 7,
            Kind::Refuse => 8,
            Kind::Abort => 9,
            Kind::Over => 10,
        }
    }

    /// The kind that a number stands for in a version, if any.
    pub(crate) fn numbered(version: u8, number: u8) -> Option<Kind>
        ensures { result ≡ kind_numbered version number }
    {
        if version == SECOND_VERSION {
            return if number == 4 {
                Some(Kind::GiveMany)
            } else {
                None
            };
        }
        match number {
            1 => Some(Kind::Hello),
            2 => Some(Kind::Members),
            3 => Some(Kind::Steal),
            4 => Some(Kind::Give),
            5 => Some(Kind::NoWork),
            6 => Some(Kind::Return),
            7 => Some(Kind::Accept),
            8 => Some(Kind::Refuse),
            9 => Some(Kind::Abort),
            10 => Some(Kind::Over),
            _ => None,
        }
    }

    /// Whether a packet of this kind goes from the one site to the other: they are two, and each is a node or the
    /// registry as the kind has it.
    pub(crate) fn is_routed(self, from: Site, to: Site) -> bool
        ensures { result ≡ is_routed self from to }
    {
        from.node != to.node
            && match self {
                Kind::Hello => to.node == 0,
                Kind::Members | Kind::Over => from.node == 0,
                // (the registry does no work of its own, so it neither steals nor returns)
                Kind::Steal | Kind::Return => from.node != 0,
                // (the registry has one child, the root, and nobody gives the registry work)
                Kind::GiveMany => from.node != 0 && to.node != 0,
                _ => to.node != 0,
            }
    }
}
