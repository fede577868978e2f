//! How an engine ends.

ghost use Rattle.std.specs.Prelude.{◌≡◌};
ghost use Rattle.search_engines.specs.Failures.{ended};

use crate::failure::Failure;
use crate::fault::EngineFault;
use crate::unanswered::Unanswered;

/// How an engine ended that wrote its answer.
#[derive(Clone, Copy, Debug, PartialEq, Eq)]
pub struct EngineEnd {
    /// The exit status, by what was written: 0 for a cover or `right`, 1 for `none` or `wrong`, 4 for no answer.
    pub status: u8,
    /// How many options of the file were ignored, since they name no primary item.
    pub ignored: usize,
    /// Why there is no answer, if that is why the status is 4.
    pub why: Option<Unanswered>,
}

/// What was written, before it is known what was ignored.
#[derive(Clone, Copy, Debug, PartialEq, Eq)]
pub struct Written {
    /// The exit status that goes with it.
    pub status: u8,
    /// Why there is no answer, if there is none.
    pub why: Option<Unanswered>,
}

/// Returns the end of an engine that wrote this, or couldn't, of a file of which so many options were ignored.
pub fn ended_with(
    written: Result<Written, EngineFault>,
    ignored: usize,
) -> Result<EngineEnd, Failure>
    ensures { result ≡ ended ignored written }
{
    match written {
        Ok(written) => Ok(EngineEnd {
            status: written.status,
            ignored,
            why: written.why,
        }),
        Err(fault) => Err(Failure::Other(fault)),
    }
}
