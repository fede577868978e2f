//! `solve_cli`: finds an exact cover of a problem in the format of Knuth's DLX1, or shows that there is none.
#![tactic(auto)]

mod certificate_place;
mod certified;
mod certified_answer;

ghost use Rattle.std.specs.Prelude.{◌≡◌};

use answer_engine::Task;
pub use answer_engine::{AnswerEnd, answer_engine};
use certificate_engine::{begins_certificate, certificate_engine};
use certified::{Asked, run_certified};
use command_line::request;
pub use command_line::{SettingsFault, settings};
use cover_engines::{Host, Loopback, USUAL_BOOK_BYTES, book_bytes_of, names_of};
pub use cover_engines::{SolveEnd, solve_engine};
use dlx_reader::{CountedReader, CountedWriter, Sink};
use either::Either;
use learn_engine::LearnWatch;
pub use learn_engine::{LearnEnd, learn_engine};
pub use reason_engine::{WhyEnd, why_engine};
pub use run_settings::{Mode, Settings};
use run_settings::{Request, STANDARD_INPUT};
pub use search_engines::{
    AloneEnd, CheckEnd, EngineFault, alone_engine, check_engine, tell, tell_fault,
};
use search_engines::{
    EngineEnd, Failure, LineStyle, ProgressLog, SearchLimits, TimeLimit, Unread, alone_within,
    check_within, read_input, tell_end, tell_unanswered, tell_unopened,
};
use std::env;
use std::fs::{self, File};
use std::io::{self, ErrorKind, IsTerminal, Stdin, Stdout};
use std::net::Net;
use std::process::ExitCode;
use std::sync::Wait;
use std::thread::{self, Threads};
use std::time::{Clock, Duration};
use world_engine::simulate_source;
pub use world_engine::{SimulateEnd, simulate_engine};

/// What is read: a file, or standard input.
type Input = CountedReader<Either<File, Stdin>>;

/// Opens what a word of the command line names: a file, or standard input for `-`. A folder can't be opened.
fn open(rt: &HostRuntime, name: &str) -> io::Result<Input> {
    let input = if name == STANDARD_INPUT {
        Either::Right(rt.stdin())
    } else {
        Either::Left(open_file(rt, name)?)
    };
    Ok(CountedReader::new(input))
}

/// Opens what a word of the command line names. The error is the exit status of a run that can't, and why it can't is
/// reported.
fn open_told<E: Sink>(rt: &HostRuntime, name: &str, errors: &mut E) -> Result<Input, u8> {
    match open(rt, name) {
        Ok(input) => Ok(input),
        Err(error) => Err(tell_unopened(name, error.kind(), errors)),
    }
}

/// Opens the file of this name. A folder is refused here: the system opens it, and fails only at the first read.
fn open_file(rt: &HostRuntime, name: &str) -> io::Result<File> {
    let file = File::open(rt, name)?;
    if file.metadata()?.is_dir() {
        return Err(ErrorKind::IsADirectory.into());
    }
    Ok(file)
}

/// Returns the limits of what is asked for, from now on.
fn limits_of(rt: &HostRuntime, request: &Request<'_>) -> SearchLimits {
    let time = match request.seconds {
        Some(seconds) => {
            let time = Duration::from_secs(u64::from(seconds));
            Some(TimeLimit::from_now(rt, time))
        }
        None => None,
    };
    if request.unlimited {
        SearchLimits::new(None, time)
    } else {
        SearchLimits::new(Some(request.settings.fuel), time)
    }
}

/// Returns how lines of progress follow one another on standard error, if it is followed.
fn line_style(rt: &HostRuntime, is_followed: bool) -> LineStyle {
    if !is_followed {
        LineStyle::Silent
    } else if rt.stderr().is_terminal() {
        LineStyle::Overwritten
    } else {
        LineStyle::Listed
    }
}

/// Returns where the answer is written.
fn output(rt: &HostRuntime) -> CountedWriter<Stdout> {
    CountedWriter::new(rt.stdout())
}

/// Reports how a run ended, and returns the exit status.
fn tell_ended<E: Sink>(
    ended: &Result<EngineEnd, Failure>,
    settings: &Settings<'_>,
    errors: &mut E,
) -> u8 {
    let status = tell_end(ended, names_of(settings), errors);
    tell_unanswered(ended, errors);
    status
}

/// Searches the problem in a source, and writes the answer; progress, if it is asked for, goes to the other sink.
fn run_alone<E: Sink>(
    rt: &HostRuntime,
    request: &Request<'_>,
    limits: &SearchLimits,
    source: &mut Input,
    errors: &mut E,
) -> Result<AloneEnd, Failure> {
    let log = ProgressLog::new(errors, line_style(rt, request.progress));
    alone_within(rt, rt.alloc(), limits, source, &mut output(rt), log)
}

/// How many threads may look for an answer at once: as many as asked for, or else as there are processors; one where
/// the system doesn't say.
fn threads_of<R: Threads>(threads: &R, request: &Request<'_>) -> u64 {
    match (request.threads, thread::available_parallelism(threads)) {
        (Some(asked), _) => u64::from(asked),
        (None, Ok(count)) => count.get() as u64,
        (None, Err(_)) => 1,
    }
}

/// Looks for any answer to the problem in a source, and writes it; progress, if it is asked for, goes to the other
/// sink.
fn run_answer<E: Sink, R: Threads + Wait + Clock + Sync>(
    rt: &HostRuntime,
    threads: &R,
    request: &Request<'_>,
    limits: &SearchLimits,
    source: &mut Input,
    errors: &mut E,
) -> Result<AnswerEnd, Failure> {
    let task = Task {
        rt: threads,
        alloc: rt.alloc(),
        time: limits.time,
        threads: threads_of(threads, request),
        reason: request.reason,
    };
    let log = ProgressLog::new(errors, line_style(rt, request.progress));
    answer_engine(&task, source, &mut output(rt), log)
}

/// Tests an answer's or a certificate's file, and returns the exit status.
fn run_check<E: Sink>(
    rt: &HostRuntime,
    request: &Request<'_>,
    limits: &SearchLimits,
    file: &mut Input,
    errors: &mut E,
) -> u8
    requires { request.now.settings.mode ≡ Mode.Check }
{
    // (settings for a check can't be made without an answer's file, and the prover knows that by their type)
    let Some(name) = request.settings.answer else {
        unreachable!()
    };
    let mut answer = match open_told(rt, name, errors) {
        Ok(answer) => answer,
        Err(status) => return status,
    };
    let ended = check_inputs(rt, limits, file, &mut answer);
    tell_ended(&ended, &request.settings, errors)
}

/// Tests the answer, or the certificate, in one source to the problem in the other, and writes whether it is right.
fn check_inputs(
    rt: &HostRuntime,
    limits: &SearchLimits,
    file: &mut Input,
    answer: &mut Input,
) -> Result<CheckEnd, Failure> {
    let alloc = rt.alloc();
    let given = read_input(alloc, Unread::Answer, answer)?;
    if begins_certificate(&given) {
        return certificate_engine(alloc, file, &given, &mut output(rt));
    }
    let answer = &mut CountedReader::new(given.as_slice());
    check_within(rt, alloc, limits, file, answer, &mut output(rt))
}

/// Returns the settings of a learner.
fn learner_settings(request: &Request<'_>) -> learner::Settings {
    learner::Settings {
        seed: request.settings.seed,
        ..learner::Settings::new()
    }
}

/// Learns from the problem in a source, and writes the answer; progress, if it is asked for, goes to the other sink.
fn run_learn<E: Sink>(
    rt: &HostRuntime,
    request: &Request<'_>,
    limits: &SearchLimits,
    source: &mut Input,
    errors: &mut E,
) -> Result<LearnEnd, Failure> {
    let mut watch = LearnWatch::new(rt, limits.time, errors, line_style(rt, request.progress));
    let ended = learn_engine(
        rt.alloc(),
        learner_settings(request),
        source,
        &mut output(rt),
        &mut watch,
    );
    watch.end();
    ended
}

/// Where the system says how much memory the machine has.
const MEMORY_INFO: &str = "/proc/meminfo";

/// How many bytes the books of a run may take on this machine where nothing else is asked for.
fn book_bytes(rt: &HostRuntime) -> u64 {
    match fs::read_to_string(rt, MEMORY_INFO) {
        Ok(text) => book_bytes_of(&text),
        Err(_) => USUAL_BOOK_BYTES,
    }
}

/// Lets sites search the problem in a source, and returns the exit status.
fn run_solve<E: Sink + Send, R: Threads + Wait + Clock + Net + Sync>(
    rt: &HostRuntime,
    threads: &R,
    request: &Request<'_>,
    source: &mut Input,
    errors: &mut E,
) -> u8 {
    let host = Host {
        rt: threads,
        alloc: rt.alloc(),
        network: Loopback {
            rt: threads,
            random: rt,
        },
        lines: line_style(rt, request.progress),
        book_bytes: book_bytes(rt),
    };
    host.solve(request, source, &mut output(rt), errors)
}

/// Runs what is asked for on the problem's file, and returns the exit status.
fn run_opened<E: Sink + Send, R: Threads + Wait + Clock + Net + Sync>(
    rt: &HostRuntime,
    threads: &R,
    request: &Request<'_>,
    limits: &SearchLimits,
    source: &mut Input,
    errors: &mut E,
) -> u8 {
    if let Some(asked) = Asked::of(request, limits) {
        return run_certified(rt, threads, &asked, source, errors);
    }
    let settings = &request.settings;
    let ended = match settings.mode {
        Mode::Answer => run_answer(rt, threads, request, limits, source, errors),
        Mode::Alone => run_alone(rt, request, limits, source, errors),
        Mode::Check => return run_check(rt, request, limits, source, errors),
        Mode::Why => why_engine(rt.alloc(), source, &mut output(rt)),
        Mode::Learn => run_learn(rt, request, limits, source, errors),
        Mode::Simulate => simulate_source(rt.alloc(), settings, source, &mut output(rt)),
        Mode::Solve => return run_solve(rt, threads, request, source, errors),
    };
    tell_ended(&ended, settings, errors)
}

/// Opens the problem's file, runs what is asked for on it, and returns the exit status.
fn run_request<R: Threads + Wait + Clock + Net + Sync>(
    rt: &HostRuntime,
    threads: &R,
    request: &Request<'_>,
) -> u8 {
    let mut errors = CountedWriter::new(rt.stderr());
    // (the time counts from here, so that opening and reading the file is part of it; a run of several nodes counts
    // from its own start)
    let limits = limits_of(rt, request);
    match open_told(rt, request.settings.file, &mut errors) {
        Ok(mut source) => run_opened(rt, threads, request, &limits, &mut source, &mut errors),
        Err(status) => status,
    }
}

/// Runs what a command line asks for, and returns the exit status: 2 for a mistake on the command line, 0 for help.
fn run_words<R: Threads + Wait + Clock + Net + Sync>(
    rt: &HostRuntime,
    threads: &R,
    words: &[&str],
) -> u8 {
    match request(rt.alloc(), words) {
        Ok(request) => run_request(rt, threads, &request),
        Err(fault) => fault.tell(rt),
    }
}

/// The words of the command line, the program's name first.
fn given_words(rt: &HostRuntime) -> io::Result<Vec<String>> {
    let mut given = Vec::new(rt.alloc());
    for word in env::args(rt)? {
        given.push(word)?;
    }
    Ok(given)
}

/// Runs what these words ask for, and returns the exit status.
fn run_given<R: Threads + Wait + Clock + Net + Sync>(
    rt: &HostRuntime,
    threads: &R,
    given: &[String],
) -> u8 {
    let mut words = Vec::new(rt.alloc());
    for word in given {
        if words.push(word.as_str()).is_err() {
            return tell_fault(&EngineFault::Memory, &mut CountedWriter::new(rt.stderr()));
        }
    }
    run_words(rt, threads, &words)
}

fn main(rt: HostRuntime) -> ExitCode {
    let status = match given_words(&rt) {
        Ok(given) => run_given(&rt, &rt, &given),
        Err(error) if error.kind() == ErrorKind::InvalidData => {
            let _ = eprintln!(rt; "error: a word of the command line is not UTF-8");
            2
        }
        Err(_) => tell_fault(&EngineFault::Memory, &mut CountedWriter::new(rt.stderr())),
    };
    ExitCode::from(status)
}
