//! The thread of a site that receives.

ghost use Rattle.std.specs.Prelude.{◌≡◌, ◌≤◌, true, length, IfOk, IfSome};
ghost use Rattle.packet_wire.specs.WellFormed.{is_well_formed};

use crate::actor::Actor;
use crate::entered_gifts::EnteredGifts;
use crate::own_time::OwnTime;
use crate::schedule::Schedule;
use crate::turns::note_turn;
use crate::worker::{after, after_refusal};
use node_core::{Core, Event};
use packet_wire::{Body, LONGEST_PACKET, Packet, WireFault, read_packet};
use run_book::{CellName, Run};
use site_limits::{EndCause, Follower, Gate, Limits, Turn};
use site_network::{Link, LinkFault};
use std::alloc::Global;
use std::sync::Wait;
use std::thread;
use std::time::{Clock, Duration};

/// How many bytes a receive takes: one more than the longest packet has, so that a longer datagram is seen.
const BUFFER: usize = LONGEST_PACKET + 1;

/// How many strangers' datagrams are passed over before the thread does something else: a flood counts as nothing that
/// came. Chosen, not measured.
const FLOOD: u32 = 1_024;

/// How many failed receives in a row end a site: one is no reason to give up, and a link that was closed fails each
/// time. Chosen, not measured.
const FAULTS: u32 = 100;

/// How long the thread waits after an empty receive, in microseconds: a link in memory doesn't wait by itself, and at
/// the end no socket does.
const NAP: u64 = 20;

/// What a receiving thread keeps from turn to turn.
#[derive(Drop)]
pub struct Receiver<L: Link> {
    link: L,
    time: OwnTime,
    schedule: Schedule,
    /// When its turn began.
    now: u64,
    /// How many receives in a row failed.
    faults: u32,
    /// How many datagrams weren't heard: strangers' ones, and what is no packet. The greatest number stays.
    dropped: u64,
    /// What the site has entered and need not receive again.
    entered: EnteredGifts,
}

impl<L: Link> Receiver<L> {
    /// A thread that receives from this link at a site with this schedule, before its first turn.
    pub fn new(alloc: Global, link: L, schedule: Schedule) -> Receiver<L> {
        Receiver {
            link,
            time: OwnTime::new(),
            schedule,
            now: 0,
            faults: 0,
            dropped: 0,
            entered: EnteredGifts::new(alloc),
        }
    }

    /// How many datagrams weren't heard, and how many receives failed.
    pub fn counts(&self) -> (u64, u64) {
        (self.dropped, self.link.failures())
    }

    /// Receives until something else came than a stranger's datagram, which a link brings without its bytes, or nothing
    /// did, `FLOOD` times at most. Nothing comes of strangers' datagrams but that they are counted: else a flood of
    /// them could use up the turns of the site, or keep it from what it does by itself.
    fn receive_past_strangers<R: Wait>(
        &mut self,
        rt: &R,
        buffer: &mut [u8],
    ) -> Result<Option<usize>, LinkFault>
        ensures { IfOk result (λ came. IfSome came (λ bytes. bytes ≤ length buffer.old)) }
    {
        for _ in 0..FLOOD {
            match self.link.receive(rt, buffer)? {
                Some(0) => self.dropped = self.dropped.saturating_add(1),
                came => {
                    self.faults = 0;
                    return Ok(came);
                }
            }
        }
        Ok(None)
    }

    /// A receive failed. The thread ends where many in a row do.
    fn fail(&mut self) -> Turn {
        self.faults = self.faults.saturating_add(1);
        if self.faults < FAULTS {
            Turn::Counted
        } else {
            Turn::Ended(EndCause::Faults)
        }
    }

    /// Counts a datagram that is no packet.
    fn drop_datagram(&mut self) -> Turn {
        self.dropped = self.dropped.saturating_add(1);
        Turn::Free
    }

    /// What a turn came to; the thread ends where the site is to end by this cause, or nothing shows the run going on
    /// for long.
    fn unless_it_ends(&mut self, turn: Turn, ending: Option<EndCause>, is_empty: bool) -> Turn {
        match ending {
            Some(cause) if self.schedule.end_if_quiet(self.now, is_empty) => self.ended_by(cause),
            _ if self.schedule.is_silent(self.now) => self.ended_by(EndCause::Silence),
            _ => turn,
        }
    }

    /// The thread ends by this cause, or the registry's with the search where that is over.
    fn ended_by(&self, cause: EndCause) -> Turn {
        Turn::Ended(if self.schedule.is_over() {
            EndCause::Over
        } else {
            cause
        })
    }
}

/// The thread that receives, with its handle and its way to act at the site.
#[derive(Drop)]
pub struct ReceivingThread<
    'r,
    't,
    's,
    'k,
    J: Run,
    C: Core + Drop,
    N: CellName,
    L: Link,
    H: Gate + Follower,
    R: Wait + Clock,
> {
    pub rt: &'r R,
    pub actor: &'t mut Actor<'s, J, C, N, H>,
    pub receiver: &'k mut Receiver<L>,
}

impl<
    J: Run,
    C: Core + Drop,
    N: CellName,
    L: Link,
    H: Gate + Follower,
    R: Wait + Clock,
> ReceivingThread<'_, '_, '_, '_, J, C, N, L, H, R> {
    /// Takes turns until one ends the thread, or these limits do.
    pub fn run(&mut self, limits: &mut Limits) -> EndCause {
        for _turn in 0..u64::MAX {
            if limits.is_spent() {
                break;
            }
            let turn = self.turn();
            if let Some(cause) = note_turn(self.rt, limits, turn) {
                return cause;
            }
        }
        EndCause::Turns
    }

    /// A turn: greets the registry now and then, receives, and says again what may be lost.
    fn turn(&mut self) -> Turn {
        self.receiver.now = self.receiver.time.look(self.rt);
        if let Some(cause) = self.cause_before_receive() {
            return self.receiver.ended_by(cause);
        }
        let greeted = self.greet();
        if greeted != Turn::Counted {
            return greeted;
        }
        match self.receive() {
            Turn::Counted => self.say_again(Turn::Counted),
            Turn::Free => self.say_again(Turn::Free),
            turn => turn,
        }
    }

    /// Why the thread ends before it receives once more, if it does.
    fn cause_before_receive(&self) -> Option<EndCause> {
        let (shared, schedule) = (self.actor.shared, &self.receiver.schedule);
        if schedule.is_spent(self.receiver.now) || schedule.has_announced() {
            Some(EndCause::Turns)
        } else if shared.context.ending.is_late(self.rt) {
            Some(EndCause::Time)
        } else if shared.signals.is_stopped() {
            Some(EndCause::Stopped)
        } else {
            None
        }
    }

    /// Greets the registry, if it is time to: while workers search nothing else may be sent for long, and after a long
    /// silence registry and nodes give up.
    fn greet(&mut self) -> Turn {
        let (node, now) = (self.actor.shared.cell.site().node, self.receiver.now);
        if node == 0 || !self.receiver.schedule.greet_if_due(now) {
            return Turn::Counted;
        }
        after(self.actor.act(self.rt, Event::Greet))
    }

    /// Receives once, and looks whether the site can go on. Whether the run is over is read before the receive: the
    /// registry announces the end first, so a receive that is empty after that shows that the node has received it, or
    /// never will.
    fn receive(&mut self) -> Turn {
        let ending = self.actor.shared.cause_once_drained(self.rt);
        let mut buffer = [0; BUFFER];
        let received = self.receiver.receive_past_strangers(self.rt, &mut buffer);
        let is_empty = received == Ok(None);
        let turn = match received {
            Ok(Some(bytes)) => self.hear(&buffer[..bytes]),
            Ok(None) => nap(self.rt),
            Err(LinkFault) => self.receiver.fail(),
        };
        match turn {
            Turn::Counted | Turn::Free => self.receiver.unless_it_ends(turn, ending, is_empty),
            Turn::Starved | Turn::Ended(_) => turn,
        }
    }

    /// A datagram came: if it is a packet, it is delivered. One that is none takes no turn, and neither does one that
    /// brings only what was entered: that may show the run going on, but each would be an entry of the book.
    fn hear(&mut self, bytes: &[u8]) -> Turn {
        if bytes.len() >= BUFFER {
            return self.receiver.drop_datagram();
        }
        let packet = match read_packet(self.actor.shared.context.alloc, bytes) {
            Ok(packet) => packet,
            // (the packet is lost, as it may be on its way: what needs an answer is said again)
            Err(WireFault::Memory) => return Turn::Starved,
            Err(_) => return self.receiver.drop_datagram(),
        };
        let site = self.actor.shared.cell.site();
        if site.node == 0 || packet.from.node == 0 {
            let now = self.receiver.now;
            self.receiver.schedule.hear(now);
        }
        if self.receiver.entered.has_all(site, &packet) {
            return Turn::Free;
        }
        self.deliver(packet)
    }

    /// Delivers a packet.
    fn deliver(&mut self, packet: Packet) -> Turn
        requires { is_well_formed packet ≡ true }
    {
        let is_end = matches!(packet.body, Body::Over);
        let step = match self.actor.act(self.rt, Event::Deliver(packet)) {
            Ok(step) => step,
            Err(back) => return after_refusal(back.1),
        };
        // (noted only once it is entered: a packet that was refused has to be delivered when it is repeated)
        if let Event::Deliver(packet) = step.event() {
            self.receiver.entered.note(packet);
        }
        if is_end {
            return Turn::Ended(EndCause::Over);
        }
        // (from here on only the end is announced, and receives of 4 to 8 milliseconds each would draw it out)
        let node = self.actor.shared.cell.site().node;
        if !self.receiver.schedule.is_over() && tells_end(node, step.packets()) {
            let now = self.receiver.now;
            self.receiver.schedule.end(now);
            self.receiver.link.hasten();
        }
        Turn::Counted
    }

    /// Says again what may be lost, if it is time to, after a turn that came to this.
    fn say_again(&mut self, turn: Turn) -> Turn {
        let (said, now) = (self.actor.shared.signals.said(), self.receiver.now);
        if !self.receiver.schedule.repeat_if_due(now, said) {
            return turn;
        }
        match after(self.actor.act(self.rt, Event::Again)) {
            Turn::Counted | Turn::Free => turn,
            ended => ended,
        }
    }
}

/// Waits a little after an empty receive.
fn nap<R: Wait + Clock>(rt: &R) -> Turn {
    thread::sleep(rt, Duration::from_micros(NAP));
    Turn::Free
}

/// Whether a site of this node, where it puts these packets out, has published an answer: the registry accepts none but
/// the root's result.
fn tells_end(node: u8, packets: &[Packet]) -> bool {
    node == 0
        && packets.iter().any(|packet| matches!(packet.body, Body::Over | Body::Accept { .. }))
}
