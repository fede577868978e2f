//! A link in memory with a defect.

ghost use Rattle.std.specs.Prelude.{◌≡◌, ◌+◌, ◌≤◌, ℕ, length, vec_len, IfOk, IfSome};
ghost use Rattle.site_network.specs.Links.{failed_once};

use super::ends::wires;
use std::alloc::{AllocError, Global};
use std::sync::Wait;
use udp_node::{Link, LinkFault, MemoryLink};

/// What is wrong with a link.
#[derive(Clone, Copy, Debug, PartialEq, Eq)]
pub enum Defect {
    /// Nothing.
    None,
    /// Each receive fails.
    Deaf,
    /// The next receives, so many, fail.
    DeafFor(u64),
    /// All that is sent is lost.
    Mute,
    /// Each send fails.
    Stuck,
    /// The next receives, so many, bring a byte that is no packet.
    Noisy(u64),
}

/// A link in memory that may have a defect.
#[derive(Drop)]
pub struct Broken {
    inner: MemoryLink,
    defect: Defect,
    failures: u64,
}

impl Broken {
    /// This link, with this defect.
    fn new(inner: MemoryLink, defect: Defect) -> Broken
        ensures { result.failures ≡ 0 }
    {
        Broken {
            inner,
            defect,
            failures: 0,
        }
    }

    /// Counts a failure.
    fn fail(&mut self) -> LinkFault
        ensures { self.new.failures ≡ failed_once self.old.failures }
    {
        self.failures = self.failures.saturating_add(1);
        LinkFault
    }
}

impl Link for Broken {
    ghost failed = { λ b. b.failures };

    fn failures(&self) -> u64 {
        self.failures
    }

    fn send<R: Wait>(&mut self, rt: &R, to: u8, bytes: &[u8]) -> Result<(), LinkFault> {
        match self.defect {
            Defect::Mute => return Ok(()),
            Defect::Stuck => return Err(self.fail()),
            Defect::None | Defect::Deaf | Defect::DeafFor(_) | Defect::Noisy(_) => {}
        }
        match self.inner.send(rt, to, bytes) {
            Ok(()) => Ok(()),
            Err(_) => Err(self.fail()),
        }
    }

    fn receive<R: Wait>(&mut self, rt: &R, into: &mut [u8]) -> Result<Option<usize>, LinkFault> {
        match self.defect {
            Defect::Deaf => return Err(self.fail()),
            Defect::DeafFor(more) if more > 0 => {
                self.defect = Defect::DeafFor(more - 1);
                return Err(self.fail());
            }
            Defect::Noisy(more) if more > 0 => {
                self.defect = Defect::Noisy(more - 1);
                return Ok(Some(into.len().min(1)));
            }
            Defect::None | Defect::Mute | Defect::Stuck | Defect::DeafFor(_) | Defect::Noisy(_) =>
                {}
        }
        match self.inner.receive(rt, into) {
            Ok(came) => Ok(came),
            Err(_) => Err(self.fail()),
        }
    }

    fn twin(&self) -> Result<Broken, AllocError> {
        Ok(Broken::new(self.inner.twin()?, self.defect))
    }
}

/// Links for so many nodes and the registry, of which that of this site has this defect.
pub fn links_with(
    alloc: Global,
    nodes: u8,
    site: usize,
    defect: Defect,
) -> Result<Vec<Broken>, AllocError>
    requires { nodes ≤ 16 }
    ensures { IfOk result (λ links. vec_len links ≡ nodes + 1) }
{
    let mut links = Vec::new(alloc);
    let wires = wires(alloc, nodes)?;
    for link in wires {
        let own = if links.len() == site {
            defect
        } else {
            Defect::None
        };
        links.push(Broken::new(link, own))?;
    }
    Ok(links)
}
