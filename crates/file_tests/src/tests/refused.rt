//! Texts that are read where memory is refused: the fault is `Memory`, and what is read then is what the row says.
//!
//! No memory is refused here: `trials/try_memory.py` does it from outside, and sees by marks where a text begins and
//! ends.

use super::answers::{ANSWERS, COLOURED_ANSWERS, COLOURED_FILE, FILE, is_answer};
use super::reading::{COLOURED, FAULTS, PROBLEMS, is_coloured, is_read};
use super::texts::problem_of;
use cover_problem::{Answer, Problem};
use dlx_reader::{AnswerFault, Read, ReadFault, read_answer, read_problem};
use growth_marks::{begin, end};
use std::alloc::Global;
use std::process::Abort;

/// The numbers of the calls: a problem is read, or an answer.
const PROBLEM: usize = 84;

const ANSWER: usize = 88;

/// What is read between marks, and where memory is refused, what is read then.
fn problem_read<R: Abort>(rt: &R, alloc: Global, text: &str) -> Result<Read, ReadFault> {
    begin(alloc, PROBLEM).expect(rt, "memory");
    let read = read_problem(alloc, text.as_bytes());
    let refused = matches!(&read, Err(ReadFault::Memory));
    end(alloc, refused).expect(rt, "memory");
    if refused {
        return read_problem(alloc, text.as_bytes());
    }
    read
}

#[test]
fn refused_memory_at_a_problem(rt: HostRuntime) {
    for (text, names, primary, options, ignored) in PROBLEMS.iter() {
        let read = problem_read(&rt, rt.alloc(), text).expect(&rt, "a problem");
        assert!(rt;
            is_read(&read, (names, *primary), (options, *ignored)),
            "{text:?}"
        );
    }
}

#[test]
fn refused_memory_at_colours(rt: HostRuntime) {
    for row in COLOURED.iter() {
        let read = problem_read(&rt, rt.alloc(), row.0).expect(&rt, "a problem");
        assert!(rt; is_coloured(&read, row), "{:?}", row.0);
    }
}

#[test]
fn refused_memory_at_a_fault(rt: HostRuntime) {
    for (text, fault) in FAULTS.iter() {
        let found = problem_read(&rt, rt.alloc(), text).err();
        assert!(rt; found == Some(*fault), "{text:?}");
    }
}

/// The same of an answer.
fn answer_read<R: Abort>(
    rt: &R,
    alloc: Global,
    problem: &Problem,
    text: &str,
) -> Result<Answer, AnswerFault> {
    begin(alloc, ANSWER).expect(rt, "memory");
    let read = read_answer(alloc, text.as_bytes(), problem);
    let refused = matches!(&read, Err(AnswerFault::Memory));
    end(alloc, refused).expect(rt, "memory");
    if refused {
        return read_answer(alloc, text.as_bytes(), problem);
    }
    read
}

#[test]
fn refused_memory_at_an_answer(rt: HostRuntime) {
    let problem = problem_of(&rt, rt.alloc(), FILE);
    for (text, expected) in ANSWERS.iter() {
        let read = answer_read(&rt, rt.alloc(), &problem, text);
        assert!(rt; is_answer(&read, *expected), "{text:?}");
    }
}

#[test]
fn refused_memory_at_an_answer_with_colours(rt: HostRuntime) {
    let problem = problem_of(&rt, rt.alloc(), COLOURED_FILE);
    for (text, expected) in COLOURED_ANSWERS.iter() {
        let read = answer_read(&rt, rt.alloc(), &problem, text);
        assert!(rt; is_answer(&read, *expected), "{text:?}");
    }
}
