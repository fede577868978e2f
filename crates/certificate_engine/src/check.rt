//! `check` of a certificate that a file's problem has no exact cover.

ghost use Rattle.std.specs.Prelude.{◌≡◌, ◌≢◌, IfErr, IfSome};
ghost use Rattle.std.specs.Io.KnownBytes.{IsAtEnd};
ghost use Rattle.certificate_engine.specs.Certificate.{CertificateSays, checked_said};
ghost use Rattle.dlx_reader.specs.Devices.{failed_once};
ghost use Rattle.search_engines.specs.Engines.{IsEnded, refuses_none};
ghost use Rattle.search_engines.specs.Failures.{Tells, plain};
ghost use Rattle.search_engines.specs.Output.{IsOutput, IsOutputOf, status_in};

use crate::wording::wrong_line;
use cover_certificates::{Checked, check_certificate};
use cover_problem::Problem;
use dlx_reader::{Sink, Source};
use search_engines::{
    EngineEnd, EngineFault, Failure, Written, ended_with, read_whole, write_line,
};
use std::alloc::Global;

/// How a test of a certificate ended: with status 0 for right, 1 for wrong.
pub type CertificateEnd = EngineEnd;

/// Writes what a test came to, and returns how that ended.
fn write_checked<W: Sink>(
    alloc: Global,
    checked: Checked,
    sink: &mut W,
) -> Result<Written, EngineFault>
    ensures output { IsOutput (checked_said checked) (W.contents sink.old) (W.contents sink.new) (status_in result) }
    ensures failed { result ≡ Err EngineFault.Write → W.failed sink.new ≡ failed_once (W.failed sink.old) }
{
    let status = write_result(alloc, checked, sink)?;
    Ok(Written { status, why: None })
}

/// Writes it, and returns the status.
fn write_result<W: Sink>(alloc: Global, checked: Checked, sink: &mut W) -> Result<u8, EngineFault>
    ensures output { IsOutput (checked_said checked) (W.contents sink.old) (W.contents sink.new) result }
    ensures failed { result ≡ Err EngineFault.Write → W.failed sink.new ≡ failed_once (W.failed sink.old) }
{
    match checked {
        Checked::Right => write_line(b"right\n", 0, sink),
        Checked::Wrong(line, expected) => match wrong_line(alloc, line, expected) {
            Ok(text) => write_line(&text, 1, sink),
            Err(_) => Err(EngineFault::Memory),
        },
    }
}

/// Tests a certificate, writes what that came to, and returns how that ended: never without an answer.
fn write_test<W: Sink>(
    alloc: Global,
    problem: &Problem,
    certificate: &[u8],
    sink: &mut W,
) -> Result<Written, EngineFault>
    ensures output { IsOutputOf (CertificateSays problem.now) (W.contents sink.old)
        (W.contents sink.new) (status_in result) }
    ensures failed { result ≡ Err EngineFault.Write → W.failed sink.new ≡ failed_once (W.failed sink.old) }
{
    match check_certificate(alloc, problem, certificate) {
        Ok(checked) => write_checked(alloc, checked, sink),
        Err(_) => Err(EngineFault::Memory),
    }
}

/// Reads a problem to its end, tests a certificate's text, and writes `right`, or the first line that is wrong and what
/// was expected there.
///
/// # Errors
///
/// `Read` and `Write` if that device failed, `File` with the first fault of the problem's text, and `Memory`. After
/// `Write` a beginning of the line was written, after another fault nothing. At `Memory` the source may have been read
/// in part.
pub fn certificate_engine<R: Source, W: Sink>(
    alloc: Global,
    file: &mut R,
    certificate: &[u8],
    sink: &mut W,
) -> Result<CertificateEnd, Failure>
    ensures ended { IfSome (R.remaining file.old) (λ text.
        IsEnded CertificateSays refuses_none text (W.contents sink.old) (W.contents sink.new) (plain result)) }
    ensures read { plain result ≢ Err EngineFault.Read → plain result ≢ Err EngineFault.Memory →
        IsAtEnd (R.remaining file.new) }
    ensures read_fault { plain result ≡ Err EngineFault.Read → R.failed file.new ≡ failed_once (R.failed file.old) }
    ensures write_fault { plain result ≡ Err EngineFault.Write → W.failed sink.new ≡ failed_once (W.failed sink.old) }
    ensures told { IfSome (R.remaining file.old) (λ text. IfErr result (Tells text)) }
{
    let read = read_whole(alloc, file)?;
    let written = write_test(alloc, &read.problem, certificate, sink);
    ended_with(written, read.ignored)
}
