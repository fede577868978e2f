//! `workbench search FILE links|sets|suited plain|kept FUEL` searches a file's problem by links, over sets of live
//! options, or by that of the two which the program takes; it keeps the states that have no cover, or doesn't.
//! `bench/searches.py` times it.

use crate::words::text_of;
use brancher::{Outcome, STATE_BYTES, Searcher, Tables};
use cover_problem::Problem;
use dlx_reader::read_problem;
use std::alloc::{AllocError, Global};
use std::io;

/// The tables for the searches of a kind; none where the word names no kind.
fn tables_of<'a>(
    alloc: Global,
    kind: &str,
    problem: &'a Problem,
) -> Result<Option<Tables<'a>>, AllocError> {
    match kind {
        "links" => Ok(Some(Tables::of_links(problem))),
        "sets" => Ok(Some(Tables::of_sets(alloc, problem)?)),
        "suited" => Ok(Some(Tables::build(alloc, problem)?)),
        _ => Ok(None),
    }
}

/// What a search came to, in one word.
fn word_of(outcome: Outcome) -> &'static str {
    match outcome {
        Outcome::Cover => "cover",
        Outcome::Barren => "none",
        Outcome::Spent => "spent",
    }
}

/// What a search with so much fuel came to, in one word.
fn told(searcher: &mut Searcher, fuel: u64) -> &'static str {
    if fuel == 0 {
        "spent"
    } else {
        word_of(searcher.search(&[], fuel))
    }
}

/// A searcher over these tables, which keeps states or doesn't.
fn searcher_over<'a>(
    alloc: Global,
    tables: &'a Tables<'a>,
    is_kept: bool,
) -> Result<Searcher<'a>, AllocError> {
    if is_kept {
        Searcher::keeping(alloc, tables, STATE_BYTES)
    } else {
        Searcher::of_tables(alloc, tables)
    }
}

/// What a search over these tables came to, in one word.
fn search_over(
    alloc: Global,
    tables: &Tables,
    is_kept: bool,
    fuel: u64,
) -> Result<&'static str, AllocError> {
    let mut searcher = searcher_over(alloc, tables, is_kept)?;
    Ok(told(&mut searcher, fuel))
}

/// Searches over these tables, and prints of which kind the search was and what it came to.
fn tell_over(rt: &HostRuntime, tables: &Tables, is_kept: bool, fuel: u64) -> io::Result<()> {
    let told = search_over(rt.alloc(), tables, is_kept, fuel)?;
    let taken = if tables.has_sets() { "sets" } else { "links" };
    println!(rt; "{taken} {told}")
}

/// Searches this problem, and prints of which kind the search was and what it came to.
fn tell_problem(
    rt: &HostRuntime,
    problem: &Problem,
    kind: &str,
    is_kept: bool,
    fuel: u64,
) -> io::Result<()> {
    match tables_of(rt.alloc(), kind, problem)? {
        Some(tables) => tell_over(rt, &tables, is_kept, fuel),
        None => println!(rt; "there is no such kind"),
    }
}

/// Searches the problem of a text, and prints of which kind the search was and what it came to.
fn tell_text(
    rt: &HostRuntime,
    text: &[u8],
    kind: &str,
    is_kept: bool,
    fuel: u64,
) -> io::Result<()> {
    match read_problem(rt.alloc(), text) {
        Ok(read) => tell_problem(rt, &read.problem, kind, is_kept, fuel),
        Err(_) => println!(rt; "the file is refused"),
    }
}

/// Searches the problem of a file, and prints of which kind the search was and what it came to.
fn tell_search(
    rt: &HostRuntime,
    file: &str,
    kind: &str,
    is_kept: bool,
    fuel: u64,
) -> io::Result<()> {
    let text = text_of(rt, file)?;
    tell_text(rt, &text, kind, is_kept, fuel)
}

/// Whether states are kept; none where the word says neither.
fn kept_by(word: &str) -> Option<bool> {
    match word {
        "kept" => Some(true),
        "plain" => Some(false),
        _ => None,
    }
}

/// Does what the words ask for, and returns the exit status; none where they ask for something else.
pub fn command(rt: &HostRuntime, words: &[String]) -> io::Result<Option<u8>> {
    if let [file, kind, keeping, fuel] = words
        && let Some(is_kept) = kept_by(keeping)
        && let Ok(fuel) = fuel.parse::<u64>()
    {
        tell_search(rt, file, kind, is_kept, fuel)?;
        return Ok(Some(0));
    }
    Ok(None)
}
