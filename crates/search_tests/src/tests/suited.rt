//! Which search `Tables::build` takes.

use super::texts::{LETTERS, problem_of};
use brancher::Tables;
use dlx_reader::read_problem;
use std::alloc::{AllocError, Global};
use std::test::Fail;

/// Appends the name of a square.
fn push_name(text: &mut Vec<u8>, square: u8) -> Result<(), AllocError> {
    text.push(b'a' + square / 26)?;
    text.push(b'a' + square % 26)?;
    text.push(b' ')?;
    Ok(())
}

/// The options of a row of so many squares that is covered with dominoes.
fn push_dominoes(text: &mut Vec<u8>, squares: u8) -> Result<(), AllocError> {
    for square in 1..squares {
        push_name(text, square - 1)?;
        push_name(text, square)?;
        text.push(b'\n')?;
    }
    Ok(())
}

/// A row of so many squares that is covered with dominoes. A choice bars, on average, less than one name for each
/// square.
fn dominoes(alloc: Global, squares: u8) -> Result<Vec<u8>, AllocError> {
    let mut text = Vec::new(alloc);
    for square in 0..squares {
        push_name(&mut text, square)?;
    }
    text.push(b'\n')?;
    push_dominoes(&mut text, squares)?;
    Ok(text)
}

/// One item with so many options, all of which a choice bars.
fn one_item(alloc: Global, options: u16) -> Result<Vec<u8>, AllocError> {
    let mut text = Vec::from_slice(alloc, b"a\n")?;
    for _ in 0..options {
        text.push(b'a')?;
        text.push(b'\n')?;
    }
    Ok(text)
}

/// Whether the problem of a text is searched over sets.
fn has_sets(alloc: Global, text: &[u8]) -> Result<bool, Fail> {
    let read = read_problem(alloc, text)?;
    Ok(Tables::build(alloc, &read.problem)?.has_sets())
}

/// Where there are at most 128 items with at most 255 options each, sets suit; else it depends on what a choice bars.
#[test]
fn the_search_suits_the_problem(rt: HostRuntime) -> Result<(), Fail> {
    let alloc = rt.alloc();
    assert!(rt; has_sets(alloc, &dominoes(alloc, 128)?)?);
    assert!(rt; !has_sets(alloc, &dominoes(alloc, 129)?)?);
    assert!(rt; has_sets(alloc, &one_item(alloc, 255)?)?);
    assert!(rt; has_sets(alloc, &one_item(alloc, 256)?)?);
    Ok(())
}

#[test]
fn a_caller_may_decide(rt: HostRuntime) {
    let problem = problem_of(&rt, rt.alloc(), LETTERS);
    let sets = Tables::of_sets(rt.alloc(), &problem).expect(&rt, "memory");
    assert!(rt; sets.has_sets());
    assert!(rt; !Tables::of_links(&problem).has_sets());
}
