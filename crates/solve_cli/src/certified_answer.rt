//! `answer` with a certificate: the search and the learner write one each, and only that of the first of them stays.

use crate::certificate_place::CertificatePlace;
use crate::certified::{Asked, fate_of, tell_written};
use crate::{line_style, output};
use answer_engine::{Listeners, Task, write_heard_answer};
use certificate_writer::{CaseWriter, CertificateFate, CertifyingWatch, ClauseWriter};
use cover_problem::Problem;
use dlx_reader::{CountedWriter, Read, Sink};
use learner::{Figures, LearnerWatch};
use search_engines::{EngineFault, ProgressLog, Written};
use std::alloc::{AllocError, Global};
use std::fs::File;
use std::sync::Wait;
use std::thread::Threads;
use std::time::Clock;

/// How many threads work: one searches, one learns.
const LANES: u64 = 2;

/// What is said of a device or a pipe.
const TO_A_FILE: &str =
    "answer writes a certificate to a file only; alone --unlimited and learn write to a pipe, too";

/// A watch over a learner that never stops it.
#[derive(Clone, Copy, Debug, PartialEq, Eq)]
struct Unstopped;

impl LearnerWatch for Unstopped {
    fn look(&mut self, _figures: &Figures) -> bool {
        false
    }
}

/// What writes down the steps of the search and the clauses of the learner.
type Writers = Listeners<
    CaseWriter<CountedWriter<File>>,
    CertifyingWatch<Unstopped, CountedWriter<File>>,
>;

/// What the search and the learner write to.
#[derive(Drop)]
struct Lines {
    search: File,
    learner: File,
}

/// Where both certificates lie until one of them is dropped.
#[derive(Drop)]
struct Places {
    search: CertificatePlace,
    learner: CertificatePlace,
}

/// How a run ended that wrote two certificates beside its answer.
#[derive(Drop)]
struct AnsweredEnd {
    /// The status of the answer, and why there is none.
    written: Result<Written, EngineFault>,
    /// Whether it is the learner's.
    is_learned: bool,
    /// Whether all of the certificate was written that goes with it.
    is_whole: bool,
}

/// Makes a file for each certificate.
fn create(rt: &HostRuntime, asked: &Asked<'_, '_>) -> Result<(Places, Lines), CertificateFate> {
    let request = asked.request;
    let file = request.settings.file;
    let (search, lines) = CertificatePlace::create(rt, file, asked.name)?;
    if search.is_device() {
        return Err(CertificateFate::Uncreated(TO_A_FILE));
    }
    match CertificatePlace::create(rt, file, asked.name) {
        Ok((learner, others)) => Ok((
            Places { search, learner },
            Lines {
                search: lines,
                learner: others,
            },
        )),
        Err(fate) => {
            let _ = search.end(rt, CertificateFate::Unneeded);
            Err(fate)
        }
    }
}

/// Returns what writes to these files. The only error is out of memory.
fn writers_of(alloc: Global, problem: &Problem, lines: Lines) -> Result<Writers, AllocError> {
    let search = CaseWriter::new(alloc, problem, CountedWriter::new(lines.search))?;
    let writer = ClauseWriter::new(alloc, problem, CountedWriter::new(lines.learner))?;
    Ok(Listeners {
        search,
        learner: CertifyingWatch {
            watch: Unstopped,
            writer,
        },
        is_learned: false,
    })
}

/// Lets the search and the learner answer, and writes the answer, and to the files both certificates.
fn answer_into<E: Sink, R: Threads + Wait + Clock + Sync>(
    rt: &HostRuntime,
    threads: &R,
    asked: &Asked<'_, '_>,
    problem: &Problem,
    lines: Lines,
    errors: &mut E,
) -> AnsweredEnd {
    let alloc = rt.alloc();
    let Ok(mut writers) = writers_of(alloc, problem, lines) else {
        return AnsweredEnd {
            written: Err(EngineFault::Memory),
            is_learned: false,
            is_whole: false,
        };
    };
    let task = Task {
        rt: threads,
        alloc,
        time: asked.limits.time,
        threads: LANES,
        reason: asked.request.reason,
    };
    let log = ProgressLog::new(errors, line_style(rt, asked.request.progress));
    let written = write_heard_answer(&task, problem, &mut writers, &mut output(rt), log);
    let is_learned = writers.is_learned;
    let is_whole = if is_learned {
        writers.learner.writer.end()
    } else {
        writers.search.end()
    };
    AnsweredEnd {
        written,
        is_learned,
        is_whole,
    }
}

/// Writes the answer to a problem by whatever is first, and a certificate, and returns the exit status. Only a
/// certificate that is right stays.
pub(crate) fn certify_answer<E: Sink, R: Threads + Wait + Clock + Sync>(
    rt: &HostRuntime,
    threads: &R,
    asked: &Asked<'_, '_>,
    read: &Read,
    errors: &mut E,
) -> u8 {
    let (Places { search, learner }, lines) = match create(rt, asked) {
        Ok(made) => made,
        Err(fate) => return fate.tell(asked.name, 3, errors),
    };
    let ended = answer_into(rt, threads, asked, &read.problem, lines, errors);
    let (kept, other) = if ended.is_learned {
        (learner, search)
    } else {
        (search, learner)
    };
    let _ = other.end(rt, CertificateFate::Unneeded);
    let status = tell_written(asked, read, ended.written, errors);
    let fate = fate_of(rt, &read.problem, &kept, status, ended.is_whole);
    kept.end(rt, fate).tell(asked.name, status, errors)
}
