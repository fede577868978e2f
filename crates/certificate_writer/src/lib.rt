//! Certificates that there is no exact cover, as they are written while a search goes on or a learner learns, and
//! tested when they are read back.
#![tactic(auto)]

mod case_writer;
mod certifying;
mod clause_writer;
mod fate;
mod reason_lines;
mod text;

pub use case_writer::CaseWriter;
pub use certifying::CertifyingWatch;
pub use clause_writer::ClauseWriter;
pub use fate::{CertificateFate, test_written};
