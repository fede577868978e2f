//! Why an engine stops.

use dlx_reader::{AnswerFault, ReadFault};
use thiserror::Error;

/// Why an engine stopped without an answer.
#[derive(Debug, Drop, Error)]
pub enum EngineFault {
    /// A read failed, of the file or of the answer.
    #[error("cannot read")]
    Read,
    /// The problem file is refused, for this fault.
    #[error("the problem file is refused")]
    File(ReadFault),
    /// The answer file is refused, for this fault.
    #[error("the answer file is refused")]
    Answer(AnswerFault),
    /// The output can't be written; a beginning of it may have been.
    #[error("cannot write")]
    Write,
    /// Memory ran out.
    #[error("out of memory")]
    Memory,
}
