//! Runs that write a certificate where there is no cover, and test it before they call it right.

ghost use Rattle.std.specs.Prelude.{◌≡◌, false};

use crate::certificate_place::CertificatePlace;
use crate::certified_answer::certify_answer;
use crate::{Input, learner_settings, line_style, output, tell_ended};
use certificate_writer::{CaseWriter, CertificateFate, CertifyingWatch, ClauseWriter};
use cover_engines::names_of;
use cover_problem::Problem;
use dlx_reader::{CountedWriter, Read, Sink};
use learn_engine::{LearnWatch, learn_problem};
use reason_engine::why_problem;
use run_settings::{Mode, Request};
use search_engines::{
    EndWatch, EngineFault, ProgressLog, ProgressWatch, SearchLimits, TimedWatch, Written,
    ended_with, read_whole, tell_failure, write_certified, write_certified_within,
};
use std::fs::File;
use std::sync::Wait;
use std::thread::Threads;
use std::time::Clock;

/// What finds the answer of a run that writes a certificate.
#[derive(Clone, Copy)]
enum Finder {
    /// A search and a learner, whichever is first: `answer`.
    First,
    /// One alone.
    Single(Single),
}

/// What finds an answer alone, and writes down how.
#[derive(Clone, Copy)]
enum Single {
    /// The search of `alone`.
    Search,
    /// The search for a reason of `why`.
    Reason,
    /// The learner of `learn`.
    Learner,
}

impl Finder {
    /// Returns what finds the answer of a command, if the command line has a certificate for it.
    fn of(mode: Mode) -> Option<Finder> {
        match mode {
            Mode::Answer => Some(Finder::First),
            Mode::Alone => Some(Finder::Single(Single::Search)),
            Mode::Why => Some(Finder::Single(Single::Reason)),
            Mode::Learn => Some(Finder::Single(Single::Learner)),
            Mode::Check | Mode::Simulate | Mode::Solve => None,
        }
    }
}

/// What is asked for where a certificate is.
#[derive(Clone, Copy)]
pub(crate) struct Asked<'a, 'b> {
    pub(crate) request: &'a Request<'b>,
    pub(crate) limits: &'a SearchLimits,
    /// The file that is to get it.
    pub(crate) name: &'b str,
    finder: Finder,
}

impl<'a, 'b> Asked<'a, 'b> {
    /// Returns what a request asks for, if it asks for a certificate.
    pub(crate) fn of(request: &'a Request<'b>, limits: &'a SearchLimits) -> Option<Asked<'a, 'b>> {
        Some(Asked {
            request,
            limits,
            name: request.certificate?,
            finder: Finder::of(request.settings.mode)?,
        })
    }
}

/// How a run ended that wrote a certificate beside its answer.
#[derive(Drop)]
struct CertifiedEnd {
    /// The status of the answer, and why there is none.
    written: Result<Written, EngineFault>,
    /// Whether all of the certificate was written.
    is_whole: bool,
    /// Whether it shows anything.
    is_begun: bool,
}

impl CertifiedEnd {
    /// Returns the end of a run that was out of memory before it began.
    fn out_of_memory() -> CertifiedEnd {
        CertifiedEnd {
            written: Err(EngineFault::Memory),
            is_whole: false,
            is_begun: false,
        }
    }
}

/// Finds an answer to the problem in a source, writes a certificate where there is no cover, and returns the exit
/// status.
pub(crate) fn run_certified<E: Sink, R: Threads + Wait + Clock + Sync>(
    rt: &HostRuntime,
    threads: &R,
    asked: &Asked<'_, '_>,
    source: &mut Input,
    errors: &mut E,
) -> u8 {
    match read_whole(rt.alloc(), source) {
        Ok(read) => match asked.finder {
            Finder::First => certify_answer(rt, threads, asked, &read, errors),
            Finder::Single(single) => certify(rt, asked, single, &read, errors),
        },
        Err(failure) => tell_failure(&failure, names_of(&asked.request.settings), errors),
    }
}

/// Writes the answer to a problem and a certificate, and returns the exit status. Only a certificate that is right
/// stays.
fn certify<E: Sink>(
    rt: &HostRuntime,
    asked: &Asked<'_, '_>,
    single: Single,
    read: &Read,
    errors: &mut E,
) -> u8 {
    let request = asked.request;
    let made = CertificatePlace::create(rt, request.settings.file, asked.name);
    let (place, lines) = match made {
        Ok(made) => made,
        Err(fate) => return fate.tell(asked.name, 3, errors),
    };
    let problem = &read.problem;
    let CertifiedEnd {
        written,
        is_whole,
        is_begun,
    } = run_into(rt, asked, single, problem, lines, errors);
    let status = tell_written(asked, read, written, errors);
    let fate = if status == 1 && !is_begun {
        CertificateFate::Unsayable
    } else {
        fate_of(rt, problem, &place, status, is_whole)
    };
    place.end(rt, fate).tell(asked.name, status, errors)
}

/// Reads a certificate back, if the status of the answer wants one and all of it was written, and returns what became
/// of it.
pub(crate) fn fate_of(
    rt: &HostRuntime,
    problem: &Problem,
    place: &CertificatePlace,
    status: u8,
    is_whole: bool,
) -> CertificateFate {
    match status {
        1 if !is_whole => CertificateFate::Unwritten,
        1 => place.test(rt, problem),
        _ => CertificateFate::Unneeded,
    }
}

/// Reports how a run ended that wrote this of a problem that was read, and returns the exit status.
pub(crate) fn tell_written<E: Sink>(
    asked: &Asked<'_, '_>,
    read: &Read,
    written: Result<Written, EngineFault>,
    errors: &mut E,
) -> u8 {
    let ended = ended_with(written, read.ignored);
    tell_ended(&ended, &asked.request.settings, errors)
}

/// Runs what is asked for on a problem, and writes the answer, and to the file a certificate.
fn run_into<E: Sink>(
    rt: &HostRuntime,
    asked: &Asked<'_, '_>,
    single: Single,
    problem: &Problem,
    file: File,
    errors: &mut E,
) -> CertifiedEnd {
    match single {
        Single::Search => search_into(rt, asked, problem, file, errors),
        Single::Reason => reason_into(rt, problem, file),
        Single::Learner => learn_into(rt, asked, problem, file, errors),
    }
}

/// Searches a problem, and writes the answer, and to the file a certificate.
fn search_into<'a, E: Sink>(
    rt: &'a HostRuntime,
    asked: &Asked<'_, '_>,
    problem: &'a Problem,
    file: File,
    errors: &'a mut E,
) -> CertifiedEnd {
    let alloc = rt.alloc();
    let Ok(mut writer) = CaseWriter::new(alloc, problem, CountedWriter::new(file)) else {
        return CertifiedEnd::out_of_memory();
    };
    let log = ProgressLog::new(errors, line_style(rt, asked.request.progress));
    let Ok(mut watch) = ProgressWatch::new(rt, alloc, problem, u64::MAX, log) else {
        return CertifiedEnd::out_of_memory();
    };
    let written = write_searched(rt, asked.limits, problem, &mut watch, &mut writer);
    CertifiedEnd {
        written,
        is_whole: writer.end(),
        is_begun: writer.is_begun(),
    }
}

/// Searches a problem under a watch until the time is over, if it is limited, writes the answer, and returns how that
/// ended. The writer hears of each step.
fn write_searched<V: EndWatch>(
    rt: &HostRuntime,
    limits: &SearchLimits,
    problem: &Problem,
    inner: &mut V,
    writer: &mut CaseWriter<CountedWriter<File>>,
) -> Result<Written, EngineFault>
    requires { V.may_stop ≡ false }
{
    let alloc = rt.alloc();
    let mut sink = output(rt);
    // (two ways: without a limit of time the watch stops nothing, so there is always an answer)
    if limits.time.is_some() {
        let mut watch = TimedWatch {
            clock: rt,
            limits,
            inner,
        };
        write_certified_within(rt, alloc, problem, &mut watch, writer, &mut sink)
    } else {
        write_certified(rt, alloc, problem, inner, writer, &mut sink)
    }
}

/// Looks for a reason why a problem has no cover, and writes it, and to the file a certificate.
fn reason_into(rt: &HostRuntime, problem: &Problem, file: File) -> CertifiedEnd {
    let alloc = rt.alloc();
    let Ok(mut writer) = CaseWriter::new(alloc, problem, CountedWriter::new(file)) else {
        return CertifiedEnd::out_of_memory();
    };
    let written = why_problem(alloc, problem, &mut writer, &mut output(rt));
    CertifiedEnd {
        written,
        is_whole: writer.end(),
        is_begun: writer.is_begun(),
    }
}

/// Learns from a problem, and writes the answer, and to the file a certificate.
fn learn_into<E: Sink>(
    rt: &HostRuntime,
    asked: &Asked<'_, '_>,
    problem: &Problem,
    file: File,
    errors: &mut E,
) -> CertifiedEnd {
    let request = asked.request;
    let Ok(writer) = ClauseWriter::new(rt.alloc(), problem, CountedWriter::new(file)) else {
        return CertifiedEnd::out_of_memory();
    };
    let mut watch = CertifyingWatch {
        watch: LearnWatch::new(
            rt,
            asked.limits.time,
            errors,
            line_style(rt, request.progress),
        ),
        writer,
    };
    let settings = learner_settings(request);
    let written = learn_problem(rt.alloc(), problem, settings, &mut watch, &mut output(rt));
    watch.watch.end();
    CertifiedEnd {
        written,
        is_whole: watch.writer.end(),
        is_begun: true,
    }
}
