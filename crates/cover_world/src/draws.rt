//! The events that a simulation draws.

ghost use Rattle.std.specs.Prelude.{◌≡◌, ◌<◌, length, slice_get};
ghost use Rattle.cover_world.specs.Draws.{any_delivery, ask_any, deck, draw, event_of, finish_or_ask, first_out_at, node_count, pick, post_or_take, present, recent_delivery, redo_or_again, restart_or_again};
ghost use Rattle.cover_world.specs.Views.{here_job, looked_up};
ghost use Rattle.spawn_frame.specs.Picks.{ripe_unit};

use crate::world::World;
use crate::world_event::WorldEvent;
use rand_core::utils::NextWord;
use rand_pcg::Pcg32;

/// A number below the bound: the generator's next word modulo it.
fn pick(rng: &mut Pcg32, bound: usize) -> usize
    requires { 0 < bound }
    ensures { (result, rng.new) ≡ pick bound rng.old }
{
    // (small numbers come a little more often, which does no harm: safety is proved of every sequence of events)
    rng.next_word() as usize % bound
}

impl<'a> World<'a> {
    /// Draws an event by the generator's next words: a delivery, more often of a packet sent lately, or something that
    /// a node does of itself. Searches have this fuel; nodes restart only while restarts are left. It takes no memory.
    ///
    /// Two words say what kind of event it is and at which node; a third one is drawn only where a packet or a second
    /// node is to be picked.
    pub fn draw_event(&self, rng: &mut Pcg32, fuel: u64, restarts_left: u32) -> WorldEvent
        ensures { (result, rng.new) ≡ draw (deck self.now.world fuel restarts_left) rng.old }
    {
        let row = pick(rng, 16);
        let node = 1 + pick(rng, self.nodes() as usize) as u8;
        self.event_of(rng, row, node, fuel, restarts_left)
    }

    /// The event of a node, by a number below sixteen.
    fn event_of(
        &self,
        rng: &mut Pcg32,
        row: usize,
        node: u8,
        fuel: u64,
        restarts_left: u32,
    ) -> WorldEvent
        requires { node < length self.now.world.sites }
        ensures { (result, rng.new)
            ≡ event_of (deck self.now.world fuel restarts_left) row node rng.old }
    {
        match row {
            0..=4 => self.recent_delivery(rng, node),
            5 => self.any_delivery(rng, node),
            6..=8 => WorldEvent::Take(node),
            9..=11 => self.post_or_take(node, fuel),
            12 => self.finish_or_ask(node),
            13 => self.ask_any(rng, node),
            14 => self.redo_or_again(node),
            _ => self.restart_or_again(rng, node, restarts_left),
        }
    }

    /// One of the last 32 packets is delivered; where nothing was sent, the node greets.
    fn recent_delivery(&self, rng: &mut Pcg32, node: u8) -> WorldEvent
        ensures { (result, rng.new) ≡ recent_delivery node (length self.now.world.sent) rng.old }
    {
        let sent = self.sent();
        if sent == 0 {
            return WorldEvent::Greet(node);
        }
        WorldEvent::Deliver(sent - 1 - pick(rng, sent.min(32)))
    }

    /// One of all packets is delivered; where nothing was sent, the node greets.
    fn any_delivery(&self, rng: &mut Pcg32, node: u8) -> WorldEvent
        ensures { (result, rng.new) ≡ any_delivery node (length self.now.world.sent) rng.old }
    {
        let sent = self.sent();
        if sent == 0 {
            return WorldEvent::Greet(node);
        }
        WorldEvent::Deliver(pick(rng, sent))
    }

    /// A job that a worker has is searched; where there is none, a worker takes one.
    fn post_or_take(&self, node: u8, fuel: u64) -> WorldEvent
        ensures { result ≡ post_or_take node fuel
            (looked_up here_job (slice_get self.now.world.sites node)) }
    {
        match self.here(node) {
            Some(job) => WorldEvent::Post(node, job, fuel),
            None => WorldEvent::Take(node),
        }
    }

    /// A settled frame is finished; where there is none, the node asks the registry for work.
    fn finish_or_ask(&self, node: u8) -> WorldEvent
        ensures { result ≡ finish_or_ask node
            (looked_up ripe_unit (slice_get self.now.world.sites node)) }
    {
        match self.ripe(node) {
            Some(unit) => WorldEvent::Finish(node, unit),
            None => WorldEvent::Ask(node, 0),
        }
    }

    /// The node asks any site for work, itself too.
    fn ask_any(&self, rng: &mut Pcg32, node: u8) -> WorldEvent
        ensures { (result, rng.new) ≡ ask_any (node_count self.now.world) node rng.old }
    {
        WorldEvent::Ask(node, pick(rng, self.nodes() as usize + 1) as u8)
    }

    /// A child that is out is redone; where there is none, the node says all again.
    fn redo_or_again(&self, node: u8) -> WorldEvent
        ensures { result ≡ redo_or_again node (first_out_at (slice_get self.now.world.sites node)) }
    {
        match self.out(node) {
            Some(serial) => WorldEvent::Redo(node, serial),
            None => WorldEvent::Again(node),
        }
    }

    /// The node restarts, while restarts and incarnations are left; else any site says all again.
    fn restart_or_again(&self, rng: &mut Pcg32, node: u8, restarts_left: u32) -> WorldEvent
        requires { node < length self.now.world.sites }
        ensures { (result, rng.new) ≡ restart_or_again
            (node_count self.now.world) node restarts_left
            (present (slice_get self.now.world.sites node)) rng.old }
    {
        match self.incarnation(node).checked_add(1) {
            Some(next) if restarts_left > 0 => WorldEvent::Restart(node, next),
            _ => WorldEvent::Again(pick(rng, self.nodes() as usize + 1) as u8),
        }
    }
}
