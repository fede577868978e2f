//! What an engine writes.

use dlx_reader::Sink;
use search_engines::{EngineEnd, EngineFault, Failure, InputNames, tell, tell_fault};

/// The names of the files that an engine reads.
pub const NAMES: InputNames<'static> = InputNames {
    file: "p.dlx",
    answer: Some("a.txt"),
};

/// How an engine ended, without what a message names beside its fault.
pub fn plain(ended: Result<EngineEnd, Failure>) -> Result<EngineEnd, EngineFault> {
    Ok(ended?)
}

/// Reports how an engine ended whose fault names nothing, and returns the exit status.
pub fn tell_plain<E: Sink>(ended: &Result<EngineEnd, EngineFault>, sink: &mut E) -> u8 {
    match ended {
        Ok(end) => tell(end.status, end.ignored, sink),
        Err(fault) => tell_fault(fault, sink),
    }
}

/// What is written to both outputs, and the status.
#[derive(Drop)]
pub struct RunOutput {
    pub out: Vec<u8>,
    pub errors: Vec<u8>,
    pub status: u8,
}

impl RunOutput {
    /// Whether it is this.
    pub fn is(&self, out: &str, errors: &str, status: u8) -> bool {
        self.out.as_slice() == out.as_bytes()
            && self.errors.as_slice() == errors.as_bytes()
            && self.status == status
    }
}
