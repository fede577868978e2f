//! Reading a source to its end, and the problem or the answer that its bytes spell.

ghost use Rattle.std.specs.Prelude.{◌≡◌, ◌≢◌, ◌⊎◌, IfErr, IfOk, IfSome, IsErrOf};
ghost use Rattle.std.specs.Io.KnownBytes.{Consumes, IsAtEnd};
ghost use Rattle.dlx_reader.specs.Answers.{IsAnswerOf};
ghost use Rattle.dlx_reader.specs.Devices.{failed_once};
ghost use Rattle.dlx_reader.specs.ProblemOf.{IsProblemOf};
ghost use Rattle.search_engines.specs.Check.{IsListedAnswer, IsSourcesFault, IsTextsFault};
ghost use Rattle.search_engines.specs.Engines.{IsReadFault, IsFileFault, IsAnswerFault, IsSourceFault};
ghost use Rattle.search_engines.specs.Failures.{IsUnread, Tells, plain, plain_fault};

use crate::failure::{Failure, Unread};
use crate::fault::EngineFault;
use cover_problem::{Answer, Problem};
use dlx_reader::{AnswerFault, Read, ReadFault, Source, TextFault, read_answer, read_text};
use std::alloc::Global;

/// How many bytes one read asks for. Chosen, not measured.
const PIECE: usize = 16384;

/// Reads all bytes, to the end of the source.
///
/// # Errors
///
/// `Read` if a read failed, and `Memory`. After either the bytes that were read are lost: the source goes on behind
/// them.
pub fn read_all<R: Source>(alloc: Global, source: &mut R) -> Result<Vec<u8>, EngineFault>
    ensures read { IfOk result (λ text.
        Consumes (R.remaining source.old) (R.remaining source.new) text.items) }
    ensures end { IfOk result (λ _. IsAtEnd (R.remaining source.new)) }
    ensures failed { result ≡ Err EngineFault.Read → R.failed source.new ≡ failed_once (R.failed source.old) }
    ensures fault { IfErr result IsReadFault }
{
    let mut text = Vec::new(alloc);
    let mut piece = [0u8; PIECE];
    loop {
        match source.fetch(&mut piece) {
            Ok(0) => return Ok(text),
            Ok(count) => {
                if text.extend_from_slice(&piece[..count]).is_err() {
                    return Err(EngineFault::Memory);
                }
            }
            Err(_) => return Err(EngineFault::Read),
        }
    }
}

/// Does what `read_all` does, and says which input can't be read.
pub fn read_input<R: Source>(
    alloc: Global,
    which: Unread,
    source: &mut R,
) -> Result<Vec<u8>, Failure>
    ensures read { IfOk result (λ text.
        Consumes (R.remaining source.old) (R.remaining source.new) text.items) }
    ensures end { IfOk result (λ _. IsAtEnd (R.remaining source.new)) }
    ensures failed { plain result ≡ Err EngineFault.Read → R.failed source.new ≡ failed_once (R.failed source.old) }
    ensures fault { IfErr result (IsUnread which) }
{
    match read_all(alloc, source) {
        Ok(text) => Ok(text),
        Err(EngineFault::Read) => Err(Failure::Unread(which)),
        Err(fault) => Err(Failure::Other(fault)),
    }
}

/// Returns the problem of a text.
///
/// # Errors
///
/// `File` with the text's first fault, and `Memory`.
fn problem_of(alloc: Global, text: &[u8]) -> Result<Read, Failure>
    ensures problem { IfOk result (λ read. IsProblemOf text.now read.problem read.ignored) }
    ensures fault { IfErr result (λ failure. IsFileFault text.now (plain_fault failure)) }
    ensures told { IfErr result (Tells text.now) }
{
    match read_text(alloc, text) {
        Ok(read) => Ok(read),
        Err(TextFault::UnknownItem(unknown)) => Err(Failure::UnknownItem(unknown)),
        // (no fault of the file, so the run ends with another status than a refusal)
        Err(TextFault::Other(ReadFault::Memory)) => Err(Failure::Other(EngineFault::Memory)),
        Err(TextFault::Other(fault)) => Err(Failure::Other(EngineFault::File(fault))),
    }
}

/// Reads a source to its end and returns the problem of its text. The text itself is let go: a search may go on for
/// hours, and needs only the problem.
///
/// # Errors
///
/// `Read` if a read failed, `File` with the text's first fault, and `Memory`.
pub fn read_whole<R: Source>(alloc: Global, source: &mut R) -> Result<Read, Failure>
    ensures problem { IfOk result (λ read.
        IfSome (R.remaining source.old) (λ text. IsProblemOf text read.problem read.ignored)) }
    ensures read { plain result ≢ Err EngineFault.Read → plain result ≢ Err EngineFault.Memory →
        IsAtEnd (R.remaining source.new) }
    ensures fault { IfErr result (λ failure.
        IfSome (R.remaining source.old) (λ text. IsSourceFault text (plain_fault failure))) }
    ensures told { IfErr result (λ failure.
        IfSome (R.remaining source.old) (λ text. Tells text failure)) }
    ensures failed { plain result ≡ Err EngineFault.Read → R.failed source.new ≡ failed_once (R.failed source.old) }
    ensures unwritten { plain result ≢ Err EngineFault.Write }
{
    let text = read_input(alloc, Unread::File, source)?;
    problem_of(alloc, &text)
}

/// Returns the answer of a text to a problem.
///
/// # Errors
///
/// `Answer` with the text's first fault, and `Memory`.
pub fn answer_of(alloc: Global, text: &[u8], problem: &Problem) -> Result<Answer, EngineFault>
    ensures answer { IfOk result (IsAnswerOf text.now problem.now) }
    ensures listed { IfOk result (IsListedAnswer problem.now) }
    ensures fault { IfErr result (IsAnswerFault text.now problem.now) }
{
    match read_answer(alloc, text, problem) {
        Ok(answer) => Ok(answer),
        Err(AnswerFault::Memory) => Err(EngineFault::Memory),
        Err(fault) => Err(EngineFault::Answer(fault)),
    }
}

/// A problem that was read, and the answer that is given to it.
#[derive(Drop)]
pub struct Given {
    /// The problem, with the number of options that were ignored.
    pub read: Read,
    /// The answer, whose options are those of the problem, each once.
    pub answer: Answer,
}

/// Returns the problem of one text, and the answer that the other gives to it.
///
/// # Errors
///
/// `File` with the first fault of the problem's text, else `Answer` with that of the answer's, and `Memory`.
fn given_by(alloc: Global, file: &[u8], answer: &[u8]) -> Result<Given, Failure>
    ensures problem { IfOk result (λ given. IsProblemOf file.now given.read.problem given.read.ignored) }
    ensures answer { IfOk result (λ given. IsAnswerOf answer.now given.read.problem given.answer) }
    ensures listed { IfOk result (λ given. IsListedAnswer given.read.problem given.answer) }
    ensures fault { IfErr result (λ failure. IsTextsFault file.now answer.now (plain_fault failure)) }
    ensures told { IfErr result (Tells file.now) }
{
    let read = problem_of(alloc, file)?;
    let answer = answer_of(alloc, answer, &read.problem)?;
    Ok(Given { read, answer })
}

/// Reads both sources to their ends, and returns the problem of the first and the answer that the second gives to it.
/// The texts are let go: a search may go on for hours, and needs only the problem.
///
/// # Errors
///
/// `Read` if a read failed, `File` with the first fault of the problem's text, else `Answer` with that of the answer's,
/// and `Memory`.
pub fn read_given<R: Source, S: Source>(
    alloc: Global,
    file: &mut R,
    answer: &mut S,
) -> Result<Given, Failure>
    ensures problem { IfOk result (λ given. IfSome (R.remaining file.old)
        (λ text. IsProblemOf text given.read.problem given.read.ignored)) }
    ensures answer { IfOk result (λ given. IfSome (S.remaining answer.old)
        (λ text. IsAnswerOf text given.read.problem given.answer)) }
    ensures listed { IfOk result (λ given. IsListedAnswer given.read.problem given.answer) }
    ensures fault { IfErr result (λ failure. IfSome (R.remaining file.old) (λ text.
        IfSome (S.remaining answer.old) (λ given. IsSourcesFault text given (plain_fault failure)))) }
    ensures told { IfErr result (λ failure. IfSome (R.remaining file.old) (λ text. Tells text failure)) }
    ensures file_read { plain result ≢ Err EngineFault.Read → plain result ≢ Err EngineFault.Memory →
        IsAtEnd (R.remaining file.new) }
    ensures answer_read { plain result ≢ Err EngineFault.Read → plain result ≢ Err EngineFault.Memory →
        IsAtEnd (S.remaining answer.new) }
    ensures read_fault { plain result ≡ Err EngineFault.Read →
        (R.failed file.new ≡ failed_once (R.failed file.old)) ⊎ (S.failed answer.new ≡ failed_once (S.failed answer.old)) }
    ensures unread_file { IsErrOf result (Failure.Unread Unread.File) →
        R.failed file.new ≡ failed_once (R.failed file.old) }
    ensures unread_answer { IsErrOf result (Failure.Unread Unread.Answer) →
        S.failed answer.new ≡ failed_once (S.failed answer.old) }
    ensures unwritten { plain result ≢ Err EngineFault.Write }
{
    let file = read_input(alloc, Unread::File, file)?;
    // (before the first text is tested: a refusal then says that both could be read)
    let answer = read_input(alloc, Unread::Answer, answer)?;
    given_by(alloc, &file, &answer)
}
