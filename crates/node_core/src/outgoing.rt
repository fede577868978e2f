//! Where the packets of an event go.

ghost use Rattle.std.specs.Prelude.{◌≡◌, ◌+◌, ◌∷◌, ◌≤◌, [], false, length, take, true, IfOk, OnErr, OnOk};
ghost use Rattle.node_core.specs.Outgoing.{loaded, IsReadyPacket, IsReady, Sends};
ghost use Rattle.node_core.specs.SiteView.{abort_packet, abort_packets};

use packet_wire::{Body, Packet};
use spawn_frame::{Out, Site};
use std::alloc::{AllocError, Global};
use std::marker::Model;

/// What an event puts out: its packets are appended to one list, or to two alike.
#[derive(Drop)]
pub struct Outgoing {
    packets: Vec<Packet>,
    copies: Vec<Packet>,
    both: bool,
}

impl Model for Outgoing {
    ghost use Rattle.std.specs.Prelude.{◌-◌, vec_capacity, vec_len};
    ghost use Rattle.node_core.specs.Outgoing.{Outgoing as OutgoingValue, room_in};

    ghost Value = { OutgoingValue };

    ghost view = { λ o. record {
      packets = o.packets.items;
      copies = o.copies.items;
      both = o.both;
      room = room_in (vec_capacity o.packets - vec_len o.packets)
          (vec_capacity o.copies - vec_len o.copies) o.both;
    } };
}

// (made before a step changes anything and put behind the change: the copy takes memory, the put doesn't)
/// A packet for each of the lists, ready to be put there.
#[derive(Drop)]
pub struct ReadyPacket {
    packet: Packet,
    copy: Option<Packet>,
}

impl Model for ReadyPacket {
    ghost use Rattle.std.specs.Prelude.{Option};
    ghost use Rattle.node_core.specs.Outgoing.{ReadyPacket as ReadyPacketValue};

    ghost Value = { ReadyPacketValue };

    ghost view = { λ l. record { packet = l.packet; copy = l.copy } };
}

impl Outgoing {
    /// The packets go to this list alone.
    pub fn one(alloc: Global, packets: Vec<Packet>) -> Outgoing
        ensures packets { result.packets ≡ packets.items }
        ensures both { result.both ≡ false }
    {
        Outgoing {
            packets,
            copies: Vec::new(alloc),
            both: false,
        }
    }

    /// The packets go to both lists.
    pub fn two(packets: Vec<Packet>, copies: Vec<Packet>) -> Outgoing
        ensures packets { result.packets ≡ packets.items }
        ensures copies { result.copies ≡ copies.items }
        ensures both { result.both ≡ true }
    {
        Outgoing {
            packets,
            copies,
            both: true,
        }
    }

    /// The lists, as the caller's again.
    pub fn into_lists(self) -> (Vec<Packet>, Vec<Packet>)
        ensures packets { result.0.items ≡ self.packets }
        ensures copies { result.1.items ≡ self.copies }
    {
        let Outgoing {
            packets,
            copies,
            both: _,
        } = self;
        (packets, copies)
    }

    /// Makes room for so many packets more in each list; the only error is out of memory.
    pub fn reserve(&mut self, more: usize) -> Result<(), AllocError>
        ensures same { Sends self.old [] self.new }
        ensures room { OnOk result (more ≤ self.new.room) }
    {
        self.packets.reserve(more)?;
        if self.both {
            self.copies.reserve(more)?;
        }
        Ok(())
    }

    /// A packet for each list; the only error is out of memory.
    pub fn load(&self, packet: Packet) -> Result<ReadyPacket, AllocError>
        ensures { IfOk result (IsReadyPacket self.now.both packet) }
    {
        let copy = if self.both {
            Some(packet.copy()?)
        } else {
            None
        };
        Ok(ReadyPacket { packet, copy })
    }

    /// Puts a packet into each list, which is asked to have room.
    pub fn put(&mut self, load: ReadyPacket)
        requires room { 1 ≤ self.old.room }
        requires load { IsReadyPacket self.old.both load.packet load }
        ensures sends { Sends self.old (load.packet ∷ []) self.new }
        ensures room { self.new.room + 1 ≡ self.old.room }
    {
        let ReadyPacket { packet, copy } = load;
        self.packets.push_reserved(packet);
        if let Some(copy) = copy {
            self.copies.push_reserved(copy);
        }
    }

    /// Puts a packet into each list if one is ready; the lists are asked to have room for one.
    pub fn put_ready(&mut self, load: Option<ReadyPacket>)
        requires room { 1 ≤ self.old.room }
        requires load { IsReady self.old.both load }
        ensures { Sends self.old (loaded load) self.new }
    {
        if let Some(load) = load {
            self.put(load);
        }
    }

    /// Puts a packet into each list; the only error is out of memory, and the lists are then as they were.
    pub fn send(&mut self, packet: Packet) -> Result<(), AllocError>
        ensures ok { OnOk result (Sends self.old (packet ∷ []) self.new) }
        ensures err { OnErr result (Sends self.old [] self.new) }
    {
        let load = self.load(packet)?;
        self.reserve(1)?;
        self.put(load);
        Ok(())
    }

    /// Tells the thieves of these children, in their order, that they are wanted no more. The lists are asked to have
    /// room.
    pub fn put_aborts(&mut self, site: Site, stolen: &[Out])
        requires { length stolen.now ≤ self.old.room }
        ensures sends { Sends self.old (abort_packets site stolen.now) self.new }
        ensures room { self.new.room + length stolen.now ≡ self.old.room }
    {
        for child in stolen {
            self.put_abort(site, *child);
        }
    }

    /// Tells the thief of a child that it is wanted no more.
    fn put_abort(&mut self, site: Site, child: Out)
        requires { 1 ≤ self.old.room }
        ensures sends { Sends self.old (abort_packet site child ∷ []) self.new }
        ensures room { self.new.room + 1 ≡ self.old.room }
    {
        self.packets.push_reserved(abort_packet(site, child));
        if self.both {
            // (made a second time, not copied: an Abort has no list, so this can't fail)
            self.copies.push_reserved(abort_packet(site, child));
        }
    }

    /// How many packets the first list has.
    pub fn count(&self) -> usize
        ensures { result ≡ length self.now.packets }
    {
        self.packets.len()
    }

    /// How many packets the lists have.
    pub fn lengths(&self) -> (usize, usize)
        ensures packets { result.0 ≡ length self.now.packets }
        ensures copies { result.1 ≡ length self.now.copies }
    {
        (self.packets.len(), self.copies.len())
    }

    /// Takes back what the lists have beyond these numbers of packets.
    pub fn cut(&mut self, lengths: (usize, usize))
        ensures packets { self.new.packets ≡ take lengths.0 self.old.packets }
        ensures copies { self.new.copies ≡ take lengths.1 self.old.copies }
    {
        self.packets.truncate(lengths.0);
        self.copies.truncate(lengths.1);
    }
}

/// The packet to the thief of a child that is wanted no more.
fn abort_packet(site: Site, child: Out) -> Packet
    ensures { result ≡ abort_packet site child }
{
    Packet {
        from: site,
        to: child.thief,
        body: Body::Abort {
            serial: child.serial,
            attempt: child.attempt,
        },
    }
}
