//! Engines where memory is refused: the fault is `Memory`, nothing is written, and with a new source and sink the
//! engine writes what the row says.
//!
//! No memory is refused here: `trials/try_memory.py` does it from outside, and marks show it where an engine begins and
//! ends.

ghost use Rattle.std.specs.Prelude.{◌≤◌};

use super::run_output::{RunOutput, plain, tell_plain};
use super::{alone, check, within};
use dlx_reader::{CountedReader, CountedWriter};
use growth_marks::{begin, end};
use search_engines::{
    AloneEnd, EngineFault, LineStyle, ProgressLog, SearchLimits, alone_engine, alone_within,
    check_engine, check_within,
};
use std::alloc::Global;
use std::process::Abort;
use std::time::Clock;

/// The numbers of the calls: `alone` runs, or `check`, and each of them within limits.
const ALONE: usize = 112;

const CHECK: usize = 116;

const ALONE_WITHIN: usize = 120;

const CHECK_WITHIN: usize = 124;

/// Room for all that is written, so that the sink asks for no memory.
const ROOM: usize = 1000;

/// Marks the end of an engine, and returns whether memory was refused. Then nothing may be written.
fn is_refused<R: Abort>(
    rt: &R,
    alloc: Global,
    ended: &Result<AloneEnd, EngineFault>,
    out: &[u8],
) -> bool {
    let refused = matches!(ended, Err(EngineFault::Memory));
    end(alloc, refused).expect(rt, "memory");
    assert!(rt; !refused || out.is_empty(), "something is written");
    refused
}

/// Returns what is written in all where an engine ended so.
fn output_of(alloc: Global, out: Vec<u8>, ended: &Result<AloneEnd, EngineFault>) -> RunOutput {
    let mut errors = Vec::new(alloc);
    let mut sink = CountedWriter::new(&mut errors);
    let status = tell_plain(ended, &mut sink);
    RunOutput {
        out,
        errors,
        status,
    }
}

/// Runs `alone` on a problem between marks and returns what is written; where memory is refused, once more and without
/// marks.
fn alone_output<R: Abort>(rt: &R, alloc: Global, text: &str, fuel: u64) -> RunOutput
    requires { 1 ≤ fuel }
{
    let mut out = Vec::with_capacity(alloc, ROOM).expect(rt, "memory");
    let mut source = CountedReader::new(text.as_bytes());
    begin(alloc, ALONE).expect(rt, "memory");
    let ended = alone_engine(alloc, fuel, &mut source, &mut CountedWriter::new(&mut out));
    if is_refused(rt, alloc, &ended, &out) {
        return alone::alone(alloc, text, fuel);
    }
    output_of(alloc, out, &ended)
}

#[test]
fn refused_memory_in_alone(rt: HostRuntime) {
    for (text, fuel, out, errors, status) in alone::ANSWERS.iter() {
        let output = alone_output(&rt, rt.alloc(), text, (*fuel).max(1));
        assert!(rt; output.is(out, errors, *status), "{text}");
    }
}

#[test]
fn refused_memory_where_alone_refuses(rt: HostRuntime) {
    for (text, errors) in alone::REFUSALS.iter() {
        let output = alone_output(&rt, rt.alloc(), text, 1);
        assert!(rt; output.is("", errors, 3), "{text}");
    }
}

/// Runs `check` on an answer between marks and returns what is written; where memory is refused, once more and without
/// marks.
fn check_output<R: Abort>(rt: &R, alloc: Global, texts: (&str, &str), fuel: u64) -> RunOutput
    requires { 1 ≤ fuel }
{
    let (text, answer) = texts;
    let mut out = Vec::with_capacity(alloc, ROOM).expect(rt, "memory");
    let mut file = CountedReader::new(text.as_bytes());
    let mut source = CountedReader::new(answer.as_bytes());
    let mut sink = CountedWriter::new(&mut out);
    begin(alloc, CHECK).expect(rt, "memory");
    let ended = check_engine(alloc, fuel, &mut file, &mut source, &mut sink);
    if is_refused(rt, alloc, &ended, &out) {
        return check::check(alloc, text, answer, fuel);
    }
    output_of(alloc, out, &ended)
}

#[test]
fn refused_memory_in_check(rt: HostRuntime) {
    for (text, answer, fuel, out, errors, status) in check::VERDICTS.iter() {
        let output = check_output(&rt, rt.alloc(), (text, answer), (*fuel).max(1));
        assert!(rt; output.is(out, errors, *status), "{answer}");
    }
}

#[test]
fn refused_memory_where_check_refuses(rt: HostRuntime) {
    for (text, answer, errors) in check::REFUSALS.iter() {
        let output = check_output(&rt, rt.alloc(), (text, answer), 1);
        assert!(rt; output.is("", errors, 3), "{answer}");
    }
}

/// Runs `alone` within limits between marks and returns what is written; where memory is refused, once more and without
/// marks.
fn alone_within_output<R: Abort + Clock>(
    rt: &R,
    alloc: Global,
    text: &str,
    limits: &SearchLimits,
    style: LineStyle,
) -> RunOutput {
    let mut out = Vec::with_capacity(alloc, ROOM).expect(rt, "memory");
    let mut lines = Vec::new(alloc);
    let mut source = CountedReader::new(text.as_bytes());
    let mut sink = CountedWriter::new(&mut out);
    let mut line_sink = CountedWriter::new(&mut lines);
    let log = ProgressLog::new(&mut line_sink, style);
    begin(alloc, ALONE_WITHIN).expect(rt, "memory");
    let ended = plain(alone_within(rt, alloc, limits, &mut source, &mut sink, log));
    if is_refused(rt, alloc, &ended, &out) {
        return within::alone(rt, alloc, text, limits);
    }
    output_of(alloc, out, &ended)
}

#[test]
fn refused_memory_in_alone_within_limits(rt: HostRuntime) {
    let styles = [LineStyle::Silent, LineStyle::Listed];
    for (text, fuel, out, errors, status) in within::ANSWERS.iter() {
        let limits = within::limits(&rt, *fuel, within::LONG);
        for style in styles.iter() {
            let output = alone_within_output(&rt, rt.alloc(), text, &limits, *style);
            assert!(rt; output.is(out, errors, *status), "{text} {fuel}");
        }
    }
}

/// Runs `check` within limits between marks and returns what is written; where memory is refused, once more and without
/// marks.
fn check_within_output<R: Abort + Clock>(
    rt: &R,
    alloc: Global,
    texts: (&str, &str),
    limits: &SearchLimits,
) -> RunOutput {
    let (text, answer) = texts;
    let mut out = Vec::with_capacity(alloc, ROOM).expect(rt, "memory");
    let mut file = CountedReader::new(text.as_bytes());
    let mut source = CountedReader::new(answer.as_bytes());
    let mut sink = CountedWriter::new(&mut out);
    begin(alloc, CHECK_WITHIN).expect(rt, "memory");
    let ended = plain(check_within(rt, alloc, limits, &mut file, &mut source, &mut sink));
    if is_refused(rt, alloc, &ended, &out) {
        return within::check(rt, alloc, text, answer, limits);
    }
    output_of(alloc, out, &ended)
}

#[test]
fn refused_memory_in_check_within_limits(rt: HostRuntime) {
    for (text, answer, fuel, out, errors, status) in within::VERDICTS.iter() {
        let limits = within::limits(&rt, *fuel, within::LONG);
        let output = check_within_output(&rt, rt.alloc(), (text, answer), &limits);
        assert!(rt; output.is(out, errors, *status), "{answer} {fuel}");
    }
}
