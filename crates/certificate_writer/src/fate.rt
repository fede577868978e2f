//! What becomes of a certificate that is to be written.

ghost use Rattle.std.specs.Prelude.{◌≡◌, ℕ, Bool};
ghost use Rattle.cover_problem.specs.ExactCover.{IsExactCover};

use cover_certificates::{Checked, check_certificate};
use cover_problem::Problem;
use dlx_reader::{Sink, Source};
use search_engines::{EngineFault, read_all};
use std::alloc::Global;

/// What is said of a reason by just enough room, by cliques, or by the options of an item.
const NO_LINE: &str =
    "no line says just enough room, cliques or options of an item; alone --unlimited --certificate or learn --certificate may write one";

/// What became of a certificate that was to be written.
#[derive(Clone, Copy, Debug, PartialEq, Eq)]
pub enum CertificateFate {
    /// None is needed: there is a cover, or no answer.
    Unneeded,
    /// It was read back and is right: there is no exact cover.
    Right,
    /// Its file can't be made, for this cause.
    Uncreated(&'static str),
    /// It can't be written: the device may be full.
    Unwritten,
    /// No line of a certificate says what the answer rests on.
    Unsayable,
    /// It was written, and can't be read back, as from a pipe.
    Unread,
    /// There is no memory to make its file, or to test it.
    Untested,
    /// It was read back, and this line is wrong.
    Wrong(u64),
}

impl CertificateFate {
    /// Returns whether the file stays.
    pub fn is_kept(self) -> bool {
        matches!(
            self,
            CertificateFate::Right | CertificateFate::Unread | CertificateFate::Untested
        )
    }

    /// Writes what became of the certificate of this name, and returns the exit status: that of the answer, unless the
    /// certificate is needed and isn't there. A fault of the sink is passed over.
    pub fn tell<E: Sink>(self, name: &str, status: u8, sink: &mut E) -> u8 {
        let (written, status) = match self {
            CertificateFate::Unneeded => return status,
            CertificateFate::Right => (writeln!(sink, "certificate right: {name}"), status),
            CertificateFate::Uncreated(why) => (writeln!(sink, "cannot create: {name}: {why}"), 3),
            CertificateFate::Unwritten => (writeln!(sink, "cannot write: {name}"), 3),
            CertificateFate::Unsayable => (writeln!(sink, "no certificate: {NO_LINE}"), 3),
            CertificateFate::Unread => {
                (writeln!(sink, "certificate not tested: {name}"), status)
            }
            CertificateFate::Untested => (writeln!(sink, "out of memory"), 5),
            CertificateFate::Wrong(line) => (
                writeln!(sink, "certificate wrong: {name} line {line}"),
                3,
            ),
        };
        let _ = written;
        status
    }
}

/// Reads a certificate of a problem to its end, and returns what a test of it comes to.
pub fn test_written<R: Source>(alloc: Global, problem: &Problem, source: &mut R) -> CertificateFate
    ensures { result ≡ CertificateFate.Right → (chosen : ℕ → Bool) → IsExactCover problem.now chosen → ⊥ }
{
    match read_all(alloc, source) {
        Ok(text) => tested(alloc, problem, &text),
        Err(EngineFault::Memory) => CertificateFate::Untested,
        Err(_) => CertificateFate::Unread,
    }
}

/// Returns what a test of a certificate's text comes to.
fn tested(alloc: Global, problem: &Problem, text: &[u8]) -> CertificateFate
    ensures { result ≡ CertificateFate.Right → (chosen : ℕ → Bool) → IsExactCover problem.now chosen → ⊥ }
{
    match check_certificate(alloc, problem, text) {
        Ok(Checked::Right) => CertificateFate::Right,
        Ok(Checked::Wrong(line, _)) => CertificateFate::Wrong(line),
        Err(_) => CertificateFate::Untested,
    }
}
