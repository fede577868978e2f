//! The numbers of a command line, each in its range.

ghost use Rattle.std.specs.Prelude.{ℕ, Option, ◌≡◌, ◌≤◌, ◌<◌, ◌^◌, IfNone, IfSome, IsSome, codes};
ghost use Rattle.std.specs.Option.{ForSome};
ghost use Rattle.std.specs.Str.Parse.{IsNumeral, digits_value};
ghost use Rattle.clap.specs.Words.{first_value, found_of};
ghost use Rattle.command_line.specs.CommandLine.{Spells, SpellsIf, SpellsOr, greatest_fuel};

use crate::ranges::{
    ENTRIES_REFUSED, FUEL_REFUSED, LEAST_THREADS, MEGABYTES_REFUSED, MOST_ENTRIES, MOST_MEGABYTES,
    MOST_NODES, MOST_RESTARTS, MOST_SECONDS, MOST_THREADS, MOST_TURNS, MOST_WORKERS, NODES_REFUSED,
    RESTARTS_REFUSED, SECONDS_REFUSED, SEED_REFUSED, THREADS_REFUSED, TURNS_REFUSED,
    WORKERS_REFUSED,
};
use clap::ArgMatches;

/// Returns the number that decimal digits spell; none for a sign, which `parse` would take as `+`, and for a number of
/// 2^64 or more.
fn number(text: &str) -> Option<u64>
    ensures spelled { IfSome result (Spells text.now) }
    ensures found { IsNumeral 10 text.now → digits_value 10 text.now < 2 ^ 64 → IsSome result }
{
    match text.as_bytes() {
        [b'+', ..] => None,
        _ => text.parse().ok(),
    }
}

/// Returns the number that an option spells, or its default where the subcommand lacks the option; none where it spells
/// none.
pub fn number_or(inner: &ArgMatches<'_>, id: &str, default: u64) -> Option<u64>
    ensures given { IfSome result (SpellsOr default (first_value (found_of inner.now) id.now)) }
    ensures none { IfNone result ((n : ℕ) →
        SpellsOr default (first_value (found_of inner.now) id.now) n → n < 2 ^ 64 → ⊥) }
{
    match inner.get_str(id) {
        Some(text) => number(text),
        None => Some(default),
    }
}

/// Returns the number that an option spells, or its default where the subcommand lacks the option; none where the value
/// is out of this range.
// (tested here, not by a range of clap's: the proof of a command with one is longer, and Settings asks for the bound
// anyway)
fn number_between(
    inner: &ArgMatches<'_>,
    id: &str,
    default: u64,
    least: u64,
    most: u64,
) -> Option<u64>
    ensures given { IfSome result (SpellsOr default (first_value (found_of inner.now) id.now)) }
    ensures least { IfSome result (λ n. least ≤ n) }
    ensures most { IfSome result (λ n. n ≤ most) }
    ensures none { IfNone result ((n : ℕ) →
        SpellsOr default (first_value (found_of inner.now) id.now) n → least ≤ n → n ≤ most →
        n < 2 ^ 64 → ⊥) }
{
    let number = number_or(inner, id, default)?;
    if number < least || number > most {
        return None;
    }
    Some(number)
}

/// Returns how many nodes there are, from 1 to 16; none where the value is out of this range.
pub fn nodes(inner: &ArgMatches<'_>) -> Option<u8>
    ensures given { IfSome result (SpellsOr 4 (first_value (found_of inner.now) (codes "nodes"))) }
    ensures some { IfSome result (λ nodes. 1 ≤ nodes) }
    ensures most { IfSome result (λ nodes. nodes ≤ 16) }
    ensures none { IfNone result ((n : ℕ) →
        SpellsOr 4 (first_value (found_of inner.now) (codes "nodes")) n → 1 ≤ n → n ≤ 16 →
        ⊥) }
{
    let nodes = number_between(inner, "nodes", 4, 1, MOST_NODES)?;
    Some(nodes as u8)
}

/// Returns how many workers a node has, from 1 to 8; none where the value is out of this range.
pub fn workers(inner: &ArgMatches<'_>) -> Option<u8>
    ensures given { IfSome result
        (SpellsOr 2 (first_value (found_of inner.now) (codes "workers"))) }
    ensures some { IfSome result (λ workers. 1 ≤ workers) }
    ensures most { IfSome result (λ workers. workers ≤ 8) }
    ensures none { IfNone result ((n : ℕ) →
        SpellsOr 2 (first_value (found_of inner.now) (codes "workers")) n → 1 ≤ n → n ≤ 8 → ⊥) }
{
    let workers = number_between(inner, "workers", 2, 1, MOST_WORKERS)?;
    Some(workers as u8)
}

/// Returns how many turns are taken, up to 10,000,000; none where the value is out of this range.
pub fn turns(inner: &ArgMatches<'_>) -> Option<u32>
    ensures given { IfSome result
        (SpellsOr 10000 (first_value (found_of inner.now) (codes "turns"))) }
    ensures most { IfSome result (λ turns. turns ≤ 10000000) }
    ensures none { IfNone result ((n : ℕ) →
        SpellsOr 10000 (first_value (found_of inner.now) (codes "turns")) n → n ≤ 10000000 → ⊥) }
{
    let turns = number_between(inner, "turns", 10_000, 0, MOST_TURNS)?;
    Some(turns as u32)
}

/// Returns how many entries a book may have, from 1 to 1,000,000,000; none where the value is out of this range.
pub fn entries(inner: &ArgMatches<'_>) -> Option<u32>
    ensures given { IfSome result
        (SpellsOr 1000000 (first_value (found_of inner.now) (codes "entries"))) }
    ensures some { IfSome result (λ entries. 1 ≤ entries) }
    ensures most { IfSome result (λ entries. entries ≤ 1000000000) }
    ensures none { IfNone result ((n : ℕ) →
        SpellsOr 1000000 (first_value (found_of inner.now) (codes "entries")) n → 1 ≤ n → n ≤ 1000000000 → ⊥) }
{
    let entries = number_between(inner, "entries", 1_000_000, 1, MOST_ENTRIES)?;
    Some(entries as u32)
}

/// Returns how many restarts there are, up to 100; none where the value is out of this range.
pub fn restarts(inner: &ArgMatches<'_>) -> Option<u32>
    ensures given { IfSome result
        (SpellsOr 0 (first_value (found_of inner.now) (codes "restarts"))) }
    ensures most { IfSome result (λ restarts. restarts ≤ 100) }
    ensures none { IfNone result ((n : ℕ) →
        SpellsOr 0 (first_value (found_of inner.now) (codes "restarts")) n → n ≤ 100 → ⊥) }
{
    let restarts = number_between(inner, "restarts", 0, 0, MOST_RESTARTS)?;
    Some(restarts as u32)
}

/// Returns the number that an option spells, in this range, if it is given; none where the value is out of it.
fn number_within(inner: &ArgMatches<'_>, id: &str, least: u64, most: u64) -> Option<Option<u32>>
    requires { most < 2 ^ 32 }
    ensures given { IfSome result (SpellsIf (first_value (found_of inner.now) id.now)) }
    ensures least { IfSome result (λ found. ForSome found (λ n. least ≤ n)) }
    ensures most { IfSome result (λ found. ForSome found (λ n. n ≤ most)) }
    ensures none { IfNone result ((found : Option ℕ) →
        SpellsIf (first_value (found_of inner.now) id.now) found →
        ForSome found (λ n. least ≤ n) → ForSome found (λ n. n ≤ most) → ⊥) }
{
    let Some(text) = inner.get_str(id) else {
        return Some(None);
    };
    let number = number(text)?;
    if number < least || number > most {
        return None;
    }
    Some(Some(number as u32))
}

/// Returns after how many seconds a run ends, from 1 to 1,000,000, if it is asked to end; none where the value is out
/// of this range.
pub fn seconds(inner: &ArgMatches<'_>) -> Option<Option<u32>>
    ensures given { IfSome result (SpellsIf (first_value (found_of inner.now) (codes "seconds"))) }
    ensures some { IfSome result (λ seconds. ForSome seconds (λ seconds. 1 ≤ seconds)) }
    ensures most { IfSome result (λ seconds. ForSome seconds (λ seconds. seconds ≤ 1000000)) }
    ensures none { IfNone result ((seconds : Option ℕ) →
        SpellsIf (first_value (found_of inner.now) (codes "seconds")) seconds →
        ForSome seconds (λ n. 1 ≤ n) → ForSome seconds (λ n. n ≤ 1000000) → ⊥) }
{
    number_within(inner, "seconds", 1, MOST_SECONDS)
}

/// Returns how many megabytes the books of all sites may take, from 1 to 1,000,000, if that is given; none where the
/// value is out of this range.
pub fn megabytes(inner: &ArgMatches<'_>) -> Option<Option<u32>>
    ensures given { IfSome result (SpellsIf (first_value (found_of inner.now) (codes "megabytes"))) }
    ensures some { IfSome result (λ megabytes. ForSome megabytes (λ megabytes. 1 ≤ megabytes)) }
    ensures most { IfSome result (λ megabytes. ForSome megabytes (λ megabytes. megabytes ≤ 1000000)) }
    ensures none { IfNone result ((megabytes : Option ℕ) →
        SpellsIf (first_value (found_of inner.now) (codes "megabytes")) megabytes →
        ForSome megabytes (λ n. 1 ≤ n) → ForSome megabytes (λ n. n ≤ 1000000) → ⊥) }
{
    number_within(inner, "megabytes", 1, MOST_MEGABYTES)
}

/// Returns how many threads search and learn, from 2 to 10, if that is given; none where the value is out of this
/// range.
pub fn threads(inner: &ArgMatches<'_>) -> Option<Option<u32>>
    ensures given { IfSome result (SpellsIf (first_value (found_of inner.now) (codes "threads"))) }
    ensures some { IfSome result (λ threads. ForSome threads (λ threads. 2 ≤ threads)) }
    ensures most { IfSome result (λ threads. ForSome threads (λ threads. threads ≤ 10)) }
    ensures none { IfNone result ((threads : Option ℕ) →
        SpellsIf (first_value (found_of inner.now) (codes "threads")) threads →
        ForSome threads (λ n. 2 ≤ n) → ForSome threads (λ n. n ≤ 10) → ⊥) }
{
    number_within(inner, "threads", LEAST_THREADS, MOST_THREADS)
}

/// Returns how many visits a search may take, from 1; none where the value is out of this range.
pub fn fuel(inner: &ArgMatches<'_>) -> Option<u64>
    ensures given { IfSome result
        (SpellsOr greatest_fuel (first_value (found_of inner.now) (codes "fuel"))) }
    ensures some { IfSome result (λ fuel. 1 ≤ fuel) }
    ensures none { IfNone result ((n : ℕ) →
        SpellsOr greatest_fuel (first_value (found_of inner.now) (codes "fuel")) n →
        1 ≤ n → n < 2 ^ 64 → ⊥) }
{
    number_between(inner, "fuel", u64::MAX, 1, u64::MAX)
}

/// Returns what is reported of the first option whose value is no number of its range.
pub fn out_of_range(inner: &ArgMatches<'_>) -> &'static str {
    if fuel(inner).is_none() {
        return FUEL_REFUSED;
    }
    if nodes(inner).is_none() {
        return NODES_REFUSED;
    }
    if workers(inner).is_none() {
        return WORKERS_REFUSED;
    }
    if turns(inner).is_none() {
        return TURNS_REFUSED;
    }
    if entries(inner).is_none() {
        return ENTRIES_REFUSED;
    }
    if megabytes(inner).is_none() {
        return MEGABYTES_REFUSED;
    }
    if restarts(inner).is_none() {
        return RESTARTS_REFUSED;
    }
    if seconds(inner).is_none() {
        return SECONDS_REFUSED;
    }
    if threads(inner).is_none() {
        return THREADS_REFUSED;
    }
    // Only the seed is left: one of them is out of its range.
    SEED_REFUSED
}
