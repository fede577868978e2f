//! From the words of a command line to what they ask for.

ghost use Rattle.std.specs.Prelude.{Option, ◌≡◌, ◌≢◌, ◌↔◌, true, IfNone, IfOk, IfSome, codes, is_some, map, option_map};
ghost use Rattle.clap.specs.Words.{Text, first_value, found_of, subcommand_of};
ghost use Rattle.command_line.specs.CommandLine.{AreMet, AreSpelled, IsAnswerFile, IsFlag, IsLimitedCertificate, IsLimitedTwice, IsMet, IsSpelled, ReadsInputTwice, mode_word, solver_app};

use crate::commands::{solver_command, value_error};
use crate::fault::{SettingsFault, fault_of};
use crate::numbers::{
    entries, fuel, megabytes, nodes, number_or, out_of_range, restarts, seconds, threads, turns,
    workers,
};
use clap::error::ErrorKind;
use clap::{ArgMatches, Command};
use run_settings::{Mode, Request, STANDARD_INPUT, Settings};
use std::alloc::Global;
use std::path::Path;

/// The program's name, where no word has it.
const PROGRAM: &str = "solve_cli";

/// What is reported where standard input is named both as problem and as answer.
const INPUT_TWICE: &str =
    "- is standard input, which can be read once: as the file or as the answer";

/// What is reported where a search is asked to have no limit and given one.
const LIMITED_TWICE: &str = "--unlimited can't be used with --fuel";

/// What is reported where a search with a limit of visits is asked for a certificate.
const LIMITED_CERTIFICATE: &str =
    "--certificate needs --unlimited: a search with a limit of visits writes no certificate";

/// Returns the mode that a subcommand's name asks for.
fn mode_of(name: &str) -> Option<Mode>
    ensures named { IfSome result (λ mode. mode_word mode ≡ name.now) }
    ensures none { IfNone result ((mode : Mode) → mode_word mode ≢ name.now) }
{
    if name == "alone" {
        return Some(Mode::Alone);
    }
    if name == "check" {
        return Some(Mode::Check);
    }
    if name == "answer" {
        return Some(Mode::Answer);
    }
    if name == "why" {
        return Some(Mode::Why);
    }
    if name == "learn" {
        return Some(Mode::Learn);
    }
    if name == "simulate" {
        return Some(Mode::Simulate);
    }
    if name == "solve" {
        return Some(Mode::Solve);
    }
    None
}

/// Returns the answer's file, which only `check` has.
fn answer_file<'a>(mode: Mode, inner: &ArgMatches<'a>) -> Option<Option<&'a str>>
    ensures given { IfSome result (λ given. IsAnswerFile mode (option_map
        (λ answer. answer.now) given)
        (first_value (found_of inner.now) (codes "answer"))) }
    ensures checked { IfSome result (λ given. mode ≡ Mode.Check → is_some given ≡ true) }
    ensures none { IfNone result ((answer : Option Text) →
        IsAnswerFile mode answer (first_value (found_of inner.now) (codes "answer")) → ⊥) }
{
    match mode {
        Mode::Check => Some(Some(inner.get_str("answer")?)),
        Mode::Answer | Mode::Alone | Mode::Why | Mode::Learn | Mode::Simulate | Mode::Solve => Some(
            None,
        ),
    }
}

/// Returns whether a flag is set; it isn't where the subcommand lacks it.
fn is_set(inner: &ArgMatches<'_>, id: &str) -> bool
    ensures { IsFlag (first_value (found_of inner.now) id.now) result }
{
    // (clap keeps the value of a flag that is set as this word)
    matches!(inner.get_str(id), Some("true"))
}

/// Returns the settings that a subcommand's matches spell; none where a number is out of its range.
fn spelled<'a>(name: &'a str, inner: &ArgMatches<'a>) -> Option<Settings<'a>>
    ensures some { IfSome result (AreSpelled name.now (first_value (found_of inner.now))) }
    ensures none { IfNone result ((settings : Settings) →
        AreSpelled name.now (first_value (found_of inner.now)) settings → ⊥) }
{
    let mode = mode_of(name)?;
    Some(Settings {
        mode,
        file: inner.get_str("file")?,
        answer: answer_file(mode, inner)?,
        fuel: fuel(inner)?,
        nodes: nodes(inner)?,
        seed: number_or(inner, "seed", 1)?,
        workers: workers(inner)?,
        turns: turns(inner)?,
        entries: entries(inner)?,
        restarts: restarts(inner)?,
        audit: is_set(inner, "audit"),
    })
}

/// Returns the request that a subcommand's matches spell; none where a number is out of its range.
fn requested<'a>(name: &'a str, inner: &ArgMatches<'a>) -> Option<Request<'a>>
    ensures some { IfSome result (IsSpelled name.now (first_value (found_of inner.now))) }
    ensures none { IfNone result ((request : Request) →
        IsSpelled name.now (first_value (found_of inner.now)) request → ⊥) }
{
    Some(Request {
        settings: spelled(name, inner)?,
        seconds: seconds(inner)?,
        megabytes: megabytes(inner)?,
        progress: is_set(inner, "progress"),
        unlimited: is_set(inner, "unlimited"),
        threads: threads(inner)?,
        reason: is_set(inner, "reason"),
        certificate: inner.get_str("certificate"),
    })
}

/// Returns whether problem and answer are both to be read from standard input, which can be read only once.
fn reads_input_twice(settings: &Settings<'_>) -> bool
    ensures { (result ≡ true) ↔ ReadsInputTwice settings.now }
{
    match settings.answer {
        Some(answer) => settings.file == STANDARD_INPUT && answer == STANDARD_INPUT,
        None => false,
    }
}

/// Returns whether a search is to have no limit of visits, and one. The greatest fuel passes: it is the default, so
/// clap's matches don't show whether it was given.
fn is_limited_twice(request: &Request<'_>) -> bool
    ensures { (result ≡ true) ↔ IsLimitedTwice request.now }
{
    request.unlimited && request.settings.fuel != u64::MAX
}

/// Returns whether a search with a limit of visits is to write a certificate.
fn is_limited_certificate(request: &Request<'_>) -> bool
    ensures { (result ≡ true) ↔ IsLimitedCertificate request.now }
{
    request.settings.mode == Mode::Alone && !request.unlimited && request.certificate.is_some()
}

/// Returns the name that the program was called by: the first word, without the folders before it.
fn program_name<'a>(words: &[&'a str]) -> &'a str {
    match words.first() {
        Some(word) => Path::new(*word).file_name().unwrap_or(PROGRAM),
        None => PROGRAM,
    }
}

/// Returns the fault of a subcommand's values, with this message.
fn value_fault(alloc: Global, words: &[&str], mode: Mode, message: &str) -> SettingsFault {
    match value_error(alloc, program_name(words), mode, message) {
        Ok(error) => fault_of(error),
        Err(_) => SettingsFault::Memory,
    }
}

/// Returns the fault of words without a subcommand. It never shows, since clap refuses such words first; but clap's
/// contract doesn't promise that.
fn no_subcommand(command: Command<'_>) -> SettingsFault {
    let mut command = command;
    match command.error(ErrorKind::MissingSubcommand, "a subcommand is required") {
        Ok(error) => fault_of(error),
        Err(_) => SettingsFault::Memory,
    }
}

/// Returns what the words of a command line ask for; the first word is the program's name.
///
/// # Errors
///
/// `Line` has clap's message for words that are no command line, for a value that is no number of its range, for
/// standard input that is named twice, for a limit of visits beside `--unlimited` and for a certificate of a search
/// that has one, or clap's text for help and version. `Memory` comes where memory ran out, in clap too.
pub fn request<'a>(alloc: Global, words: &'a [&'a str]) -> Result<Request<'a>, SettingsFault>
    ensures met { IfOk result
        (IsMet (subcommand_of solver_app (map (λ word. word.now) words.now))) }
    ensures once { IfOk result (λ request. ReadsInputTwice request.settings → ⊥) }
    ensures limit { IfOk result (λ request. IsLimitedTwice request → ⊥) }
    ensures certificate { IfOk result (λ request. IsLimitedCertificate request → ⊥) }
{
    let Ok(mut command) = solver_command(alloc) else {
        return Err(SettingsFault::Memory);
    };
    // (by reference: the command is still there to report an error of its own)
    let matches = match command.try_get_matches_from_mut(words) {
        Ok(matches) => matches,
        Err(error) => return Err(fault_of(error)),
    };
    let Some((name, inner)) = matches.subcommand() else {
        return Err(no_subcommand(command));
    };
    let Some(mode) = mode_of(name) else {
        return Err(no_subcommand(command));
    };
    let Some(request) = requested(name, inner) else {
        return Err(value_fault(alloc, words, mode, out_of_range(inner)));
    };
    if reads_input_twice(&request.settings) {
        return Err(value_fault(alloc, words, mode, INPUT_TWICE));
    }
    if is_limited_twice(&request) {
        return Err(value_fault(alloc, words, mode, LIMITED_TWICE));
    }
    if is_limited_certificate(&request) {
        return Err(value_fault(alloc, words, mode, LIMITED_CERTIFICATE));
    }
    Ok(request)
}

/// Returns the settings that the words of a command line spell. The errors are those of `request`, which the program
/// calls; only tests call this.
pub fn settings<'a>(alloc: Global, words: &'a [&'a str]) -> Result<Settings<'a>, SettingsFault>
    ensures met { IfOk result
        (AreMet (subcommand_of solver_app (map (λ word. word.now) words.now))) }
    ensures once { IfOk result (λ settings. ReadsInputTwice settings → ⊥) }
{
    Ok(request(alloc, words)?.settings)
}
