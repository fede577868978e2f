//! The program's command and its subcommands, as clap has them.

ghost use Rattle.std.specs.Prelude.{◌≡◌, false, IfOk, codes};
ghost use Rattle.clap.specs.Words.{app_of, new_app, rule_of, with_rule};
ghost use Rattle.clap.specs.declared.builder.command.Command.TheViews.{out-Command};
ghost use Rattle.command_line.specs.CommandLine.{alone_app, answer_app, answering_app, check_app, file_rule, flag_rule, greatest_fuel_rule, learn_app, limit_rule, number_rule, one_thread_app, reasoning_app, simulate_app, sites_app, solve_app, solver_app, threads_app, versioned, why_app};

use crate::ranges::{
    BASE_FUEL_HELP, ENTRIES_HELP, FUEL_HELP, GREATEST_FUEL, JOB_FUEL_HELP, MEGABYTES_HELP,
    NODE_RESTARTS_HELP, NODES_HELP, RESTARTS_HELP, RUN_SECONDS_HELP, SECONDS_HELP, SEED_HELP,
    THREAD_TURNS_HELP, THREADS_HELP, TURNS_HELP, WORKERS_HELP,
};
use clap::error::ErrorKind;
use clap::{Arg, ArgAction, Command, Error};
use run_settings::Mode;
use std::alloc::{AllocError, Global};

/// The version of the program.
const VERSION: &str = "1.0.0";

/// The exit statuses of a search, as help lists them.
const SEARCH_STATUSES: &str =
    "Statuses: 0 a cover, 1 none, 2 a mistake on the command line, 3 a refused file or a failed device, 4 no answer, 5 out of memory";

/// The exit statuses of a run over sockets, as help lists them.
const SOLVE_STATUSES: &str =
    "Statuses: 0 a cover, 1 none, 2 a mistake on the command line, 3 a refused file or a failed device, 4 no answer, 5 out of memory, 6 an unclean audit";

/// The exit statuses of a check, as help lists them.
const CHECK_STATUSES: &str =
    "Statuses: 0 right, 1 wrong, 2 a mistake on the command line, 3 a refused file or a failed device, 4 no answer, 5 out of memory";

/// The exit statuses of the search for a reason, as help lists them.
const WHY_STATUSES: &str =
    "Statuses: 1 none, 2 a mistake on the command line, 3 a refused file, a failed device, or no certificate says the reason, 4 no reason found, 5 out of memory";

/// What help says of `--certificate`.
const CERTIFICATE_HELP: &str =
    "Where there is no cover, writes a certificate to this file: lines by which anybody can check that";

/// The same where it goes with `--unlimited` alone.
const UNLIMITED_CERTIFICATE_HELP: &str =
    "Where there is no cover, writes a certificate to this file: lines by which anybody can check that; only with --unlimited";

/// The same where workers search otherwise.
const ANSWER_CERTIFICATE_HELP: &str =
    "Where there is no cover, writes a certificate to this file: lines by which anybody can check that; no workers search then";

fn file_argument<'a>(alloc: Global) -> Arg<'a>
    ensures rule { rule_of result ≡ file_rule (codes "file") }
    ensures own { result.global ≡ false }
{
    Arg::new(alloc, "file").required(true).help(
        "The problem's file, in the format of DLX1; - is standard input",
    )
}

fn answer_argument<'a>(alloc: Global) -> Arg<'a>
    ensures rule { rule_of result ≡ file_rule (codes "answer") }
    ensures own { result.global ≡ false }
{
    Arg::new(alloc, "answer").required(true).help(
        "The answer's file, as alone writes it, or a certificate's; - is standard input",
    )
}

fn fuel_argument<'a>(alloc: Global) -> Arg<'a>
    ensures rule { rule_of result ≡ greatest_fuel_rule }
    ensures own { result.global ≡ false }
{
    Arg::new(alloc, "fuel")
        .long("fuel")
        .default_value(GREATEST_FUEL)
        .help(FUEL_HELP)
}

fn progress_argument<'a>(alloc: Global) -> Arg<'a>
    ensures rule { rule_of result ≡ flag_rule (codes "progress") }
    ensures own { result.global ≡ false }
{
    flag_argument(
        alloc,
        "progress",
        "Writes to standard error now and then how far the search has come",
    )
}

fn unlimited_argument<'a>(alloc: Global) -> Arg<'a>
    ensures rule { rule_of result ≡ flag_rule (codes "unlimited") }
    ensures own { result.global ≡ false }
{
    flag_argument(
        alloc,
        "unlimited",
        "Searches until it is decided, whatever number of prefixes that takes; not with --fuel",
    )
}

/// An option of what sites do, whose value is a number.
fn number_argument<'a>(alloc: Global, id: &'a str, default: &'a str, help: &'a str) -> Arg<'a>
    ensures rule { rule_of result ≡ number_rule id.now default.now }
    ensures own { result.global ≡ false }
{
    Arg::new(alloc, id)
        .long(id)
        .default_value(default)
        .help(help)
}

/// An option of what sites do, whose value is a number, and which sets no limit where it isn't given.
fn limit_argument<'a>(alloc: Global, id: &'a str, help: &'a str) -> Arg<'a>
    ensures rule { rule_of result ≡ limit_rule id.now }
    ensures own { result.global ≡ false }
{
    Arg::new(alloc, id).long(id).help(help)
}

/// An option that has no value.
fn flag_argument<'a>(alloc: Global, id: &'a str, help: &'a str) -> Arg<'a>
    ensures rule { rule_of result ≡ flag_rule id.now }
    ensures own { result.global ≡ false }
{
    Arg::new(alloc, id)
        .long(id)
        .action(ArgAction::SetTrue)
        .help(help)
}

/// A subcommand with a description and the program's version.
fn described<'a>(alloc: Global, name: &'a str, about: &'a str) -> Command<'a>
    ensures app { app_of result ≡ versioned (new_app name.now) }
    ensures local { (out-Command result).has_globals ≡ false }
{
    Command::new(alloc, name).about(about).version(VERSION)
}

/// A command with two arguments more.
fn with_two<'a>(
    command: Command<'a>,
    first: Arg<'a>,
    second: Arg<'a>,
) -> Result<Command<'a>, AllocError>
    requires local { (out-Command command).has_globals ≡ false }
    requires first { first.global ≡ false }
    requires second { second.global ≡ false }
    ensures app { IfOk result (λ grown. app_of grown ≡ with_rule
        (with_rule (app_of command.entry) (rule_of first.entry)) (rule_of second.entry)) }
    ensures local { IfOk result (λ grown. (out-Command grown).has_globals ≡ false) }
{
    // (two at a time: each further call in one chain doubles the time of its proof)
    command.arg(first)?.arg(second)
}

/// How long one thread may search.
fn time_argument<'a>(alloc: Global) -> Arg<'a>
    ensures rule { rule_of result ≡ limit_rule (codes "seconds") }
    ensures own { result.global ≡ false }
{
    limit_argument(alloc, "seconds", SECONDS_HELP)
}

/// Where a certificate goes.
fn certificate_argument<'a>(alloc: Global, help: &'a str) -> Arg<'a>
    ensures rule { rule_of result ≡ limit_rule (codes "certificate") }
    ensures own { result.global ≡ false }
{
    limit_argument(alloc, "certificate", help)
}

/// Whether what an answer rests on is written behind it.
fn reason_argument<'a>(alloc: Global) -> Arg<'a>
    ensures rule { rule_of result ≡ flag_rule (codes "reason") }
    ensures own { result.global ≡ false }
{
    flag_argument(
        alloc,
        "reason",
        "Writes behind the answer what it rests on: a reason, or how much was searched or learned",
    )
}

fn alone_command<'a>(alloc: Global) -> Result<Command<'a>, AllocError>
    ensures app { IfOk result (λ command. app_of command ≡ alone_app) }
    ensures local { IfOk result (λ command. (out-Command command).has_globals ≡ false) }
{
    let about = "Searches the problem on one thread and writes its first exact cover, or none";
    let command = described(alloc, "alone", about).after_help(SEARCH_STATUSES);
    let command = with_two(command, file_argument(alloc), fuel_argument(alloc))?;
    let command = with_two(command, progress_argument(alloc), unlimited_argument(alloc))?;
    let certificate = certificate_argument(alloc, UNLIMITED_CERTIFICATE_HELP);
    with_two(command, time_argument(alloc), certificate)
}

fn check_command<'a>(alloc: Global) -> Result<Command<'a>, AllocError>
    ensures app { IfOk result (λ command. app_of command ≡ check_app) }
    ensures local { IfOk result (λ command. (out-Command command).has_globals ≡ false) }
{
    let about =
        "Tests whether an answer to the problem is right, or a certificate that it has none";
    let command = described(alloc, "check", about).after_help(CHECK_STATUSES);
    let command = with_two(command, file_argument(alloc), answer_argument(alloc))?;
    let command = with_two(command, fuel_argument(alloc), unlimited_argument(alloc))?;
    command.arg(time_argument(alloc))
}

fn answer_command<'a>(alloc: Global) -> Result<Command<'a>, AllocError>
    ensures app { IfOk result (λ command. app_of command ≡ answer_app) }
    ensures local { IfOk result (λ command. (out-Command command).has_globals ≡ false) }
{
    let about =
        "Writes any exact cover of the problem, or none, by whatever is first: a search, learning from dead ends, a reason, or workers in several places";
    let command = described(alloc, "answer", about).after_help(SEARCH_STATUSES);
    let command = with_two(command, file_argument(alloc), progress_argument(alloc))?;
    let threads = limit_argument(alloc, "threads", THREADS_HELP);
    let command = with_two(command, threads, time_argument(alloc))?;
    let certificate = certificate_argument(alloc, ANSWER_CERTIFICATE_HELP);
    with_two(command, reason_argument(alloc), certificate)
}

fn why_command<'a>(alloc: Global) -> Result<Command<'a>, AllocError>
    ensures app { IfOk result (λ command. app_of command ≡ why_app) }
    ensures local { IfOk result (λ command. (out-Command command).has_globals ≡ false) }
{
    let about =
        "Looks for a reason why the problem has no exact cover that can be added up by hand, and writes it; it may find none";
    let command = described(alloc, "why", about).after_help(WHY_STATUSES);
    let certificate = certificate_argument(alloc, CERTIFICATE_HELP);
    with_two(command, file_argument(alloc), certificate)
}

fn learn_command<'a>(alloc: Global) -> Result<Command<'a>, AllocError>
    ensures app { IfOk result (λ command. app_of command ≡ learn_app) }
    ensures local { IfOk result (λ command. (out-Command command).has_globals ≡ false) }
{
    let about =
        "Looks for any exact cover on one thread, learning from dead ends, and writes it, or none";
    let command = described(alloc, "learn", about).after_help(SEARCH_STATUSES);
    let command = with_two(
        command,
        file_argument(alloc),
        number_argument(alloc, "seed", "1", SEED_HELP),
    )?;
    let command = with_two(command, progress_argument(alloc), time_argument(alloc))?;
    command.arg(certificate_argument(alloc, CERTIFICATE_HELP))
}

/// What sites search, how many nodes there are, and the seed of what is drawn.
fn sites_command<'a>(
    alloc: Global,
    name: &'a str,
    about: &'a str,
    fuel_help: &'a str,
    statuses: &'a str,
) -> Result<Command<'a>, AllocError>
    ensures app { IfOk result (λ command. app_of command ≡ sites_app name.now) }
    ensures local { IfOk result (λ command. (out-Command command).has_globals ≡ false) }
{
    let searching = with_two(
        described(alloc, name, about).after_help(statuses),
        file_argument(alloc),
        number_argument(alloc, "fuel", "1000", fuel_help),
    )?;
    with_two(
        searching,
        number_argument(alloc, "nodes", "4", NODES_HELP),
        number_argument(alloc, "seed", "1", SEED_HELP),
    )
}

fn simulate_command<'a>(alloc: Global) -> Result<Command<'a>, AllocError>
    ensures app { IfOk result (λ command. app_of command ≡ simulate_app) }
    ensures local { IfOk result (λ command. (out-Command command).has_globals ≡ false) }
{
    let about = "Lets a world of nodes search the problem, by chance, and writes what it publishes";
    with_two(
        sites_command(alloc, "simulate", about, JOB_FUEL_HELP, SEARCH_STATUSES)?,
        number_argument(alloc, "turns", "10000", TURNS_HELP),
        number_argument(alloc, "restarts", "0", RESTARTS_HELP),
    )
}

/// What threads search, how long they go on, how often a node is restarted, how many workers there are, and how large
/// books may get.
fn threads_command<'a>(alloc: Global) -> Result<Command<'a>, AllocError>
    ensures app { IfOk result (λ command. app_of command ≡ threads_app) }
    ensures local { IfOk result (λ command. (out-Command command).has_globals ≡ false) }
{
    let about =
        "Lets nodes with threads of their own search the problem over UDP on this machine, and writes what they publish";
    let limited = with_two(
        sites_command(alloc, "solve", about, BASE_FUEL_HELP, SOLVE_STATUSES)?,
        number_argument(alloc, "turns", "1000000", THREAD_TURNS_HELP),
        number_argument(alloc, "restarts", "0", NODE_RESTARTS_HELP),
    )?;
    let bounded = with_two(
        limited,
        number_argument(alloc, "workers", "2", WORKERS_HELP),
        number_argument(alloc, "entries", "1000000", ENTRIES_HELP),
    )?;
    bounded.arg(limit_argument(alloc, "megabytes", MEGABYTES_HELP))
}

fn solve_command<'a>(alloc: Global) -> Result<Command<'a>, AllocError>
    ensures app { IfOk result (λ command. app_of command ≡ solve_app) }
    ensures local { IfOk result (λ command. (out-Command command).has_globals ≡ false) }
{
    let audit =
        "Tests whether the sites' books are one run, and writes a line that says so; status 6 where they are not found to be";
    let audited = with_two(
        threads_command(alloc)?,
        flag_argument(alloc, "audit", audit),
        limit_argument(alloc, "seconds", RUN_SECONDS_HELP),
    )?;
    audited.arg(progress_argument(alloc))
}

/// What answers by whatever is first.
fn answering_command<'a>(alloc: Global) -> Result<Command<'a>, AllocError>
    ensures { IfOk result (λ command. app_of command ≡ answering_app) }
{
    let answer = answer_command(alloc)?;
    Command::new(alloc, "solve_cli")
        .about("Finds an exact cover, or shows that there is none")
        .version(VERSION)
        .subcommand_required(true)
        .subcommand(answer)
}

/// With what one thread searches and tests.
fn one_thread_command<'a>(alloc: Global) -> Result<Command<'a>, AllocError>
    ensures { IfOk result (λ command. app_of command ≡ one_thread_app) }
{
    let alone = alone_command(alloc)?;
    let check = check_command(alloc)?;
    answering_command(alloc)?
        .subcommand(alone)?
        .subcommand(check)
}

/// With all else that one thread does.
fn reasoning_command<'a>(alloc: Global) -> Result<Command<'a>, AllocError>
    ensures { IfOk result (λ command. app_of command ≡ reasoning_app) }
{
    let why = why_command(alloc)?;
    let learn = learn_command(alloc)?;
    one_thread_command(alloc)?
        .subcommand(why)?
        .subcommand(learn)
}

/// All subcommands of the program. The only error is out of memory.
pub fn solver_command<'a>(alloc: Global) -> Result<Command<'a>, AllocError>
    ensures { IfOk result (λ command. app_of command ≡ solver_app) }
{
    let simulate = simulate_command(alloc)?;
    let solve = solve_command(alloc)?;
    reasoning_command(alloc)?
        .subcommand(simulate)?
        .subcommand(solve)
}

/// The subcommand of a mode.
fn command_of<'a>(alloc: Global, mode: Mode) -> Result<Command<'a>, AllocError> {
    match mode {
        Mode::Alone => alone_command(alloc),
        Mode::Check => check_command(alloc),
        Mode::Answer => answer_command(alloc),
        Mode::Why => why_command(alloc),
        Mode::Learn => learn_command(alloc),
        Mode::Simulate => simulate_command(alloc),
        Mode::Solve => solve_command(alloc),
    }
}

/// The word that asks for a mode.
fn name_of(mode: Mode) -> &'static str {
    match mode {
        Mode::Alone => "alone",
        Mode::Check => "check",
        Mode::Answer => "answer",
        Mode::Why => "why",
        Mode::Learn => "learn",
        Mode::Simulate => "simulate",
        Mode::Solve => "solve",
    }
}

/// What clap reports of a subcommand's values, with the usage of the subcommand by the name that the program was called
/// by.
pub fn value_error(
    alloc: Global,
    program: &str,
    mode: Mode,
    message: &str,
) -> Result<Error, AllocError> {
    let called = format!(in alloc; "{program} {}", name_of(mode))?;
    // (made by itself, since the whole command would report the usage of all subcommands)
    let mut command = command_of(alloc, mode)?.bin_name(&called)?;
    command.error(ErrorKind::ValueValidation, message)
}
