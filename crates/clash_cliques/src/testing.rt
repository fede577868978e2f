//! Whether options are a clique.

ghost use Rattle.std.specs.Prelude.{◌≡◌, ◌<◌, ◌≤◌, ◌↔◌, length, nat_eq, not, IsTrue};
ghost use Rattle.std.specs.Cmp.Lexicographic.{pointwise};
ghost use Rattle.std.specs.List.{list_all, list_any};
ghost use Rattle.cover_problem.specs.Numbers.{is_in};
ghost use Rattle.cover_problem.specs.Prefix.{are_options, AreOptions};
ghost use Rattle.cover_problem.specs.Problem.{forbidden, is_name};
ghost use Rattle.clash_cliques.specs.Cliques.{clashes_with, clash_by_twos, has_room_for, is_clique};

use crate::clique::Clique;
use cover_problem::{MOST_BYTES, MOST_ITEMS, MOST_NODES, Problem, clash};
use problem_copies::nodes_of;

/// Whether the option clashes with each of the others.
fn clashes_with(problem: &Problem, option: u16, others: &[u16]) -> bool
    requires option { option < length problem.now.options }
    requires others { AreOptions problem.now others.now }
    ensures { result ≡ clashes_with problem.now option others.now }
{
    others.iter().all(|other| clash(problem, option, *other))
}

/// Whether each two of these options clash.
///
/// It takes no memory, and time of the order of the square of the options' items.
pub fn clash_by_twos(problem: &Problem, options: &[u16]) -> bool
    requires { AreOptions problem.now options.now }
    ensures { result ≡ clash_by_twos problem.now options.now }
{
    for place in 0..options.len() {
        if !clashes_with(problem, options[place], &options[place + 1..]) {
            return false;
        }
    }
    true
}

/// Whether all of these are numbers of options.
fn are_options(problem: &Problem, numbers: &[u16]) -> bool
    ensures test { result ≡ are_options problem.now numbers.now }
    ensures each { IsTrue result ↔ AreOptions problem.now numbers.now }
{
    numbers.iter().all(|o| (*o as usize) < problem.options())
}

/// Whether no name has this byte.
fn is_allowed(byte: u8) -> bool
    ensures { result ≡ not (is_in forbidden byte) }
{
    !matches!(byte, 0 | 9..=13 | 32 | 58 | 124)
}

/// Whether no name has any of these bytes.
fn are_allowed(bytes: &[u8]) -> bool
    ensures { result ≡ list_all (λ byte. not (is_in forbidden byte)) bytes.now }
{
    bytes.iter().all(|byte| is_allowed(*byte))
}

/// Whether the bytes are a name.
fn is_name(bytes: &[u8]) -> bool
    ensures { result ≡ is_name bytes.now }
{
    if bytes.is_empty() || bytes.len() > MOST_BYTES {
        return false;
    }
    are_allowed(bytes)
}

/// Whether an item has this name.
pub(crate) fn has_name(problem: &Problem, name: &[u8]) -> bool
    ensures { result ≡ list_any (pointwise nat_eq name.now) problem.now.names }
{
    for item in 0..problem.items() as u16 {
        if name == problem.name(item) {
            return true;
        }
    }
    false
}

/// Whether the problem has room for a further item of this name.
fn has_room_for(problem: &Problem, name: &[u8]) -> bool
    ensures { result ≡ has_room_for problem.now name.now }
{
    problem.recall_rules();
    is_name(name)
        && !has_name(problem, name)
        && problem.items() < MOST_ITEMS
        && nodes_of(problem) + problem.options() <= MOST_NODES
}

/// Whether the problem has room for the clique's item, and each two of its options clash.
pub fn is_clique(problem: &Problem, clique: &Clique) -> bool
    ensures { result ≡ is_clique problem.now clique.now }
{
    let options = clique.options.as_slice();
    if !has_room_for(problem, clique.name.as_slice()) {
        return false;
    }
    if !are_options(problem, options) {
        return false;
    }
    clash_by_twos(problem, options)
}
