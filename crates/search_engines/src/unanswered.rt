//! Why a command has no answer.

ghost use Rattle.std.specs.Prelude.{◌≡◌};
ghost use Rattle.search_engines.specs.Alone.{why_spent};

use crate::engine::EngineEnd;
use crate::failure::Failure;
use dlx_reader::Sink;
use std::fmt::{self, Display, Formatter, Write};

/// Why a command has no answer, with what may give one.
#[derive(Clone, Copy, Debug, PartialEq, Eq)]
pub enum Unanswered {
    /// It would count more prefixes than its limit allows.
    Fuel,
    /// It would count more prefixes than the greatest limit allows, so there is no more fuel to advise.
    GreatestFuel,
    /// It has lasted as long as its limit allows, and `answer` has other ways.
    Time,
    /// All ways of `answer` have lasted as long as the limit allows.
    TimeOfAllWays,
    /// What it learned has no more room.
    Room,
    /// A simulated world has published nothing: its last job has visited as many prefixes as the greatest limit allows.
    Unpublished,
}

impl Unanswered {
    /// Returns why a search with so much fuel has no answer, if its time didn't stop it.
    pub fn by_fuel(fuel: u64) -> Unanswered
        ensures { result ≡ why_spent fuel }
    {
        if fuel == u64::MAX {
            Unanswered::GreatestFuel
        } else {
            Unanswered::Fuel
        }
    }
}

impl Display for Unanswered {
    fn fmt<W: Write>(&self, f: &mut Formatter<W>) -> fmt::Result {
        f.write_str(match self {
            Unanswered::Fuel => "the fuel is spent: try more --fuel, or --unlimited",
            Unanswered::GreatestFuel =>
                "more prefixes than can be counted, 2^64 - 1: try answer FILE, or --unlimited, which have no such limit",
            Unanswered::Room =>
                "the room for what is learned is full: try another --seed, or answer",
            Unanswered::Time => "the time is over: try more --seconds, or answer",
            Unanswered::TimeOfAllWays => "the time is over: try more --seconds",
            Unanswered::Unpublished => "nothing was published: try alone --unlimited",
        })
    }
}

/// Writes why an engine has no answer, if it says so. A fault of the sink is passed over.
pub fn tell_unanswered<E: Sink>(ended: &Result<EngineEnd, Failure>, sink: &mut E) {
    if let Ok(end) = ended
        && let Some(why) = end.why
    {
        let _ = writeln!(sink, "ended: {why}");
    }
}
