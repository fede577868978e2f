//! What is written to standard error, and the exit status that goes with it.
//!
//! A fault of that sink is passed over throughout: there is nowhere left to report it, and the status still says how
//! the run ended.

ghost use Rattle.std.specs.Prelude.{◌≡◌};
ghost use Rattle.search_engines.specs.Failures.{plain, plain_fault};
ghost use Rattle.search_engines.specs.Status.{end_status, fault_status};

use crate::engine::EngineEnd;
use crate::failure::{Failure, Unread};
use crate::fault::EngineFault;
use dlx_reader::{AnswerFault, ReadFault, Sink, UnknownName};
use std::io::{self, ErrorKind};

/// Reports how many options were ignored, if any, and returns the exit status. A fault of the sink is passed over.
pub fn tell<E: Sink>(status: u8, ignored: usize, sink: &mut E) -> u8
    ensures { result ≡ status }
{
    if ignored != 0 {
        let _ = writeln!(sink, "ignored {ignored}");
    }
    status
}

/// Reports that the file of this name can't be read, and why, and returns the exit status, which is 3.
fn tell_unread<E: Sink>(name: &str, why: &str, sink: &mut E) -> u8
    ensures { result ≡ 3 }
{
    let _ = writeln!(sink, "cannot read: {name}: {why}");
    3
}

/// Reports that the file of this name can't be opened, and why, and returns the exit status, which is 3.
pub fn tell_unopened<E: Sink>(name: &str, kind: ErrorKind, sink: &mut E) -> u8
    ensures { result ≡ 3 }
{
    let why = match kind {
        ErrorKind::NotFound => "no such file",
        ErrorKind::IsADirectory => "is a directory",
        ErrorKind::NotADirectory => "a part of its path is no directory",
        ErrorKind::PermissionDenied => "permission denied",
        ErrorKind::FilesystemLoop => "too many symbolic links",
        _ => "the system cannot open it",
    };
    tell_unread(name, why, sink)
}

/// Reports why an engine stopped, and returns the exit status: 3 for a file that is refused or a device that failed,
/// 5 if memory ran out. A fault of the sink is passed over.
pub fn tell_fault<E: Sink>(fault: &EngineFault, sink: &mut E) -> u8
    ensures { result ≡ fault_status fault.now }
{
    match fault {
        EngineFault::Read => {
            let _ = writeln!(sink, "cannot read");
            3
        }
        EngineFault::File(fault) => {
            tell_refusal("refused", read_fault(fault), sink);
            3
        }
        EngineFault::Answer(fault) => {
            tell_refusal("answer refused", answer_fault(fault), sink);
            3
        }
        EngineFault::Write => {
            let _ = writeln!(sink, "cannot write");
            3
        }
        EngineFault::Memory => {
            let _ = writeln!(sink, "out of memory");
            5
        }
    }
}

/// The names of the files that an engine reads.
#[derive(Clone, Copy, Debug, PartialEq, Eq)]
pub struct InputNames<'a> {
    /// The problem file's.
    pub file: &'a str,
    /// The answer file's, if it reads one.
    pub answer: Option<&'a str>,
}

/// Reports that the problem file is refused since no item has a name, and the name, and returns the exit status, which
/// is 3.
fn tell_unknown<E: Sink>(unknown: &UnknownName, sink: &mut E) -> u8
    ensures { result ≡ 3 }
{
    tell_refusal("refused", ("UnknownItem", Some(unknown.line)), sink);
    let _ = write_unknown(unknown.name.as_slice(), sink);
    3
}

/// Writes that no item has this name, with the bytes that it has in the file.
fn write_unknown<E: Sink>(name: &[u8], sink: &mut E) -> io::Result<()> {
    sink.write_all(b"no item is named ")?;
    sink.write_all(name)?;
    sink.write_all(b"\n")
}

/// Does what `tell_fault` does, and names the file if a read failed, and the name that no item has.
pub fn tell_failure<E: Sink>(failure: &Failure, names: InputNames<'_>, sink: &mut E) -> u8
    ensures { result ≡ fault_status (plain_fault failure.now) }
{
    match failure {
        Failure::Unread(Unread::File) => tell_unread(names.file, "a read failed", sink),
        Failure::Unread(Unread::Answer) => {
            let name = names.answer.unwrap_or(names.file);
            tell_unread(name, "a read failed", sink)
        }
        Failure::UnknownItem(unknown) => tell_unknown(unknown, sink),
        Failure::Other(fault) => tell_fault(fault, sink),
    }
}

/// Reports how an engine ended, and returns the exit status: of its answer, or as `tell_failure` does.
pub fn tell_end<E: Sink>(
    ended: &Result<EngineEnd, Failure>,
    names: InputNames<'_>,
    sink: &mut E,
) -> u8
    ensures { result ≡ end_status (plain ended.now) }
{
    match ended {
        Ok(end) => tell(end.status, end.ignored, sink),
        Err(failure) => tell_failure(failure, names, sink),
    }
}

/// Reports that no sockets can be bound, and returns the exit status, which is 3.
pub fn tell_unbound<E: Sink>(sink: &mut E) -> u8
    ensures { result ≡ 3 }
{
    let _ = writeln!(sink, "cannot bind");
    3
}

/// The name of a fault, and its line in the file, from 1, if it has one.
type NamedFault = (&'static str, Option<usize>);

fn tell_refusal<E: Sink>(refused: &str, fault: NamedFault, sink: &mut E) {
    let _ = match fault {
        (name, Some(line)) => writeln!(sink, "{refused}: {name} line {line}"),
        (name, None) => writeln!(sink, "{refused}: {name}"),
    };
}

fn read_fault(fault: &ReadFault) -> NamedFault {
    match fault {
        ReadFault::NoItems => ("NoItems", None),
        ReadFault::IllegalByte(line) => ("IllegalByte", Some(*line)),
        ReadFault::NameTooLong(line) => ("NameTooLong", Some(*line)),
        ReadFault::DuplicateItem(line) => ("DuplicateItem", Some(*line)),
        ReadFault::SecondBar(line) => ("SecondBar", Some(*line)),
        ReadFault::UnknownItem(line) => ("UnknownItem", Some(*line)),
        ReadFault::DuplicateInOption(line) => ("DuplicateInOption", Some(*line)),
        ReadFault::TooManyItems(line) => ("TooManyItems", Some(*line)),
        ReadFault::TooManyOptions(line) => ("TooManyOptions", Some(*line)),
        ReadFault::TooManyNodes(line) => ("TooManyNodes", Some(*line)),
        ReadFault::BadColour(line) => ("BadColour", Some(*line)),
        ReadFault::ColourOnPrimary(line) => ("ColourOnPrimary", Some(*line)),
        ReadFault::TooManyColours(line) => ("TooManyColours", Some(*line)),
        ReadFault::Memory => ("Memory", None),
    }
}

fn answer_fault(fault: &AnswerFault) -> NamedFault {
    match fault {
        AnswerFault::BadHead => ("BadHead", None),
        AnswerFault::WrongCount => ("WrongCount", None),
        AnswerFault::UnknownOption(line) => ("UnknownOption", Some(*line)),
        AnswerFault::Memory => ("Memory", None),
    }
}
