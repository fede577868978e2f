//! The engine that tests a certificate: it reads a problem, and writes whether a text shows that there is no exact
//! cover.
#![tactic(auto)]

mod check;
mod wording;

pub use check::{CertificateEnd, certificate_engine};
pub use cover_certificates::begins_certificate;
