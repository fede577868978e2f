//! A gate that lets nobody pass until enough was sent.

use crate::recorder::Sent;
use packet_wire::{Body, Packet};
use site_limits::{Follower, Gate};
use spawn_frame::Job;
use std::sync::Wait;
use std::thread;

/// What has to be sent before a worker may pass.
#[derive(Clone, Copy, Debug, PartialEq, Eq)]
pub enum Expected {
    /// Each of the first so many nodes, of at most sixteen, has asked for work.
    Steals(u8),
    /// Node 1 has greeted the registry so often.
    Hellos(usize),
}

/// A gate that lets nobody pass until enough was sent.
#[derive(Drop)]
pub struct SentGate<'a, R: Wait> {
    rt: &'a R,
    sent: Sent,
    expected: Expected,
}

impl<'a, R: Wait> SentGate<'a, R> {
    /// A gate that looks at what is kept here.
    pub fn new(rt: &'a R, sent: Sent, expected: Expected) -> SentGate<'a, R> {
        SentGate { rt, sent, expected }
    }
}

impl<R: Wait> Gate for SentGate<'_, R> {
    fn pass(&self, _worker: u8, _job: &Job) -> bool {
        thread::yield_now();
        let sent = self.sent.lock(self.rt);
        let has_asked = |node: u8| first_victim(&sent, node).is_some();
        match self.expected {
            Expected::Steals(nodes) => (1..nodes.min(16) + 1).all(has_asked),
            Expected::Hellos(count) => greetings(&sent) >= count,
        }
    }
}

impl<R: Wait> Follower for SentGate<'_, R> {}

/// Whom a node asked first for work.
pub fn first_victim(sent: &[Packet], node: u8) -> Option<u8> {
    let asked = |it: &&Packet| it.from.node == node && it.body == Body::Steal;
    Some(sent.iter().find(asked)?.to.node)
}

/// How often node 1 has greeted.
fn greetings(sent: &[Packet]) -> usize {
    sent.iter()
        .filter(|it| it.from.node == 1 && it.body == Body::Hello)
        .count()
}
