//! Links in memory whose receives wait, as those of sockets do, and that can be cut.

ghost use Rattle.std.specs.Prelude.{◌≡◌};

use std::alloc::AllocError;
use std::sync::Wait;
use std::sync::atomic::{AtomicBool, Ordering};
use std::thread::Parker;
use std::time::Duration;
use udp_node::{Link, LinkFault, MemoryLink};

/// How long an empty receive waits, in milliseconds: as long as that of a socket may.
const WAIT: u64 = 5;

/// What rouses the receivers of a run's two sites: the registry, and the node.
#[derive(Drop)]
pub struct Wakers {
    registry: Parker,
    node: Parker,
}

impl Wakers {
    /// What rouses nobody yet.
    pub fn new() -> Wakers {
        Wakers {
            registry: Parker::new(),
            node: Parker::new(),
        }
    }

    /// What rouses the receiver of a site.
    fn of(&self, site: u8) -> &Parker {
        if site == 0 {
            &self.registry
        } else {
            &self.node
        }
    }
}

/// The endpoint of a site on wires in memory, whose receives wait for some milliseconds. Once the run is over each receive
/// fails, which ends the site, and with it the run.
#[derive(Drop)]
pub struct WaitingLink<'a, 'b> {
    end: MemoryLink,
    site: u8,
    wakers: &'a Wakers,
    /// The run is over.
    over: &'b AtomicBool,
    /// Whether an empty receive waits.
    waits: bool,
    failures: u64,
}

impl<'a, 'b> WaitingLink<'a, 'b> {
    /// The endpoint of this site, which has this one of the wires.
    pub fn new(
        end: MemoryLink,
        site: u8,
        wakers: &'a Wakers,
        over: &'b AtomicBool,
    ) -> WaitingLink<'a, 'b>
        ensures { result.failures ≡ 0 }
    {
        WaitingLink {
            end,
            site,
            wakers,
            over,
            waits: true,
            failures: 0,
        }
    }

    /// Waits until something may have come, for some milliseconds at most.
    fn wait<R: Wait>(&self, rt: &R) {
        if self.waits {
            self.wakers
                .of(self.site)
                .park_timeout(rt, Duration::from_millis(WAIT));
        }
    }
}

impl<'a, 'b> Link for WaitingLink<'a, 'b> {
    ghost failed = { λ l. l.failures };

    fn failures(&self) -> u64 {
        self.failures
    }

    fn send<R: Wait>(&mut self, rt: &R, to: u8, bytes: &[u8]) -> Result<(), LinkFault> {
        if self.end.send(rt, to, bytes).is_ok() {
            self.wakers.of(to).unpark();
            return Ok(());
        }
        self.failures = self.failures.saturating_add(1);
        Err(LinkFault)
    }

    fn receive<R: Wait>(&mut self, rt: &R, into: &mut [u8]) -> Result<Option<usize>, LinkFault> {
        if !self.over.load(Ordering::Relaxed) {
            if let Ok(Some(bytes)) = self.end.receive(rt, into) {
                return Ok(Some(bytes));
            }
            // (what is sent from here on leaves a token at the parker, so it isn't slept through)
            self.wait(rt);
            if let Ok(came) = self.end.receive(rt, into) {
                return Ok(came);
            }
        }
        self.failures = self.failures.saturating_add(1);
        Err(LinkFault)
    }

    fn hasten(&mut self) {
        self.waits = false;
    }

    fn twin(&self) -> Result<WaitingLink<'a, 'b>, AllocError> {
        let end = self.end.twin()?;
        Ok(WaitingLink::new(end, self.site, self.wakers, self.over))
    }
}
