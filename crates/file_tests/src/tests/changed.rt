//! Texts with a byte changed, a byte more, or an end too soon. How many of them are read so, and how many refused, was
//! counted by `trials/try_bytes.py`, which has readers of its own.

use super::texts::problem_of;
use cover_problem::{Answer, Numbers, Problem};
use dlx_reader::{AnswerFault, Read, ReadFault, read_answer, read_problem};
use std::alloc::Global;
use std::process::Abort;

/// What is counted of a problem's texts: at 0 those that are read, at 1 to 13 those with each fault, in the order of
/// the format's page; at 14 the faults' lines added up, and from 15 on the items, the primary ones, the options, the
/// nodes, the colours and the options ignored.
type Counts = [usize; 21];

/// What is counted of an answer's texts: at 0 the covers, at 1 those that say there is none, at 2 to 4 those with each
/// fault; at 5 the faults' lines added up, and at 6 each option of a cover, counted from 1, by its place there.
type AnswerCounts = [usize; 7];

static PROBLEMS: [(&str, Counts); 12] = [
    (
        "a b c d e f g\nc e\na d g\nb c f\na d f\nb g\nd e g\n",
        [
            323, 1, 94, 0, 18, 294, 0, 11249, 38, 15, 0, 0, 0, 0, 47061, 2219, 2219, 1776, 4599, 0,
            0,
        ],
    ),
    (
        "a b | x\na x\nb x\nb\n",
        [
            590, 1, 285, 0, 7, 14, 2, 3948, 15, 2, 0, 0, 0, 0, 11246, 2253, 1671, 1466, 2347, 1, 16,
        ],
    ),
    (
        "a\n",
        [
            507, 8, 6, 0, 1, 0, 0, 246, 0, 0, 0, 0, 0, 0, 501, 507, 507, 1, 1, 0, 0,
        ],
    ),
    (
        "| note\n  | note",
        [
            761, 3080, 255, 0, 0, 0, 0, 0, 0, 0, 0, 0, 0, 0, 508, 1502, 1255, 0, 0, 0, 0,
        ],
    ),
    (
        "a |x\n",
        [
            1018, 8, 261, 0, 1, 2, 0, 246, 0, 0, 0, 0, 0, 0, 758, 2026, 1270, 1, 1, 0, 1,
        ],
    ),
    (
        "a | x\nx\na",
        [
            541, 1, 268, 0, 3, 9, 1, 1737, 0, 0, 0, 0, 0, 0, 4516, 1323, 1036, 775, 780, 0, 26,
        ],
    ),
    (
        "a\na\na\n",
        [
            39, 1, 12, 0, 4, 5, 0, 1725, 5, 1, 0, 0, 0, 0, 4488, 39, 39, 52, 52, 0, 0,
        ],
    ),
    (
        "a b\r\na\r\nb\r\n",
        [
            312, 1, 23, 0, 7, 8, 0, 2720, 1, 0, 0, 0, 0, 0, 7240, 869, 869, 347, 353, 0, 0,
        ],
    ),
    (
        "p q r | x y\np q x y:A\np r x:A y\np x:B\nq x:A\nr y:B\n",
        [
            2179, 1, 370, 0, 75, 277, 4, 9352, 540, 258, 0, 0, 0, 0, 34353, 10871, 6531, 10484,
            29536, 6272, 33,
        ],
    ),
    (
        "aaaaaaaaaabbbbbbbbbbccccccccccdd\n",
        [
            8078, 2, 99, 247, 1, 0, 0, 277, 0, 0, 0, 0, 0, 0, 903, 8228, 8228, 0, 0, 0, 0,
        ],
    ),
    (
        "a | x\na x:aaaaaaaaaabbbbbbbbbbccccccccccdd\n",
        [
            7953, 1, 625, 247, 262, 9, 1, 1914, 2, 250, 0, 0, 0, 0, 6383, 15902, 7953, 7941, 15878,
            7936, 8,
        ],
    ),
    (
        "\n\t\u{b}| c\na |x y\n x:1 a y\n",
        [
            1086, 8, 1058, 0, 17, 9, 1, 3953, 5, 7, 0, 0, 0, 0, 18164, 3250, 1086, 821, 2451, 819,
            261,
        ],
    ),
];

/// A problem, an answer to it, and what is counted of the answer's texts.
static ANSWERS: [(&str, &str, AnswerCounts); 6] = [
    (
        "a b c d e f g\nc e\na d g\nb c f\na d f\nb g\nd e g\n",
        "cover 3\nc e\na d f\nb g\n",
        [33, 0, 2034, 786, 3035, 9360, 788],
    ),
    (
        "a b c d e f g\nc e\na d g\nb c f\na d f\nb g\nd e g\n",
        "none\n",
        [0, 12, 1274, 250, 0, 0, 0],
    ),
    (
        "a b c d e f g\nc e\na d g\nb c f\na d f\nb g\nd e g\n",
        "\n cover 00002\r\n\nb g\nc e",
        [52, 0, 3751, 319, 2022, 8852, 336],
    ),
    (
        "a\na\na\na\n",
        "cover 2\na\na\n",
        [16, 0, 2034, 530, 748, 1995, 80],
    ),
    (
        "a b | x y\na x:A y\na x y:A\na x:A y\na x:AA y\nb\n",
        "cover 3\na x:A y\nb\na x:A y\n",
        [32, 0, 2034, 797, 4049, 12405, 640],
    ),
    ("a\n", "cover 0\n", [17, 0, 2019, 268, 0, 0, 0]),
];

/// Adds to one of the numbers.
fn add(counts: &mut [usize], place: usize, more: usize) {
    if let Some(count) = counts.get_mut(place) {
        *count = count.wrapping_add(more);
    }
}

/// The place of a fault, and its line.
fn fault_place(fault: ReadFault) -> (usize, usize) {
    match fault {
        ReadFault::NoItems => (1, 0),
        ReadFault::IllegalByte(line) => (2, line),
        ReadFault::NameTooLong(line) => (3, line),
        ReadFault::BadColour(line) => (4, line),
        ReadFault::DuplicateItem(line) => (5, line),
        ReadFault::SecondBar(line) => (6, line),
        ReadFault::UnknownItem(line) => (7, line),
        ReadFault::DuplicateInOption(line) => (8, line),
        ReadFault::ColourOnPrimary(line) => (9, line),
        ReadFault::TooManyItems(line) => (10, line),
        ReadFault::TooManyOptions(line) => (11, line),
        ReadFault::TooManyNodes(line) => (12, line),
        ReadFault::TooManyColours(line) => (13, line),
        // (none of these texts takes that much memory)
        ReadFault::Memory => (21, 0),
    }
}

/// How many nodes a problem has.
fn nodes_of(problem: &Problem) -> usize {
    let mut nodes: usize = 0;
    for option in 0..problem.options() as u16 {
        nodes = nodes.wrapping_add(problem.option(option).len());
    }
    nodes
}

/// Counts a problem.
fn count_read(counts: &mut [usize], read: &Read) {
    let problem = &read.problem;
    add(counts, 0, 1);
    add(counts, 15, problem.items());
    add(counts, 16, problem.primary());
    add(counts, 17, problem.options());
    add(counts, 18, nodes_of(problem));
    add(counts, 19, problem.colour_names());
    add(counts, 20, read.ignored);
}

/// Something that counts what texts are read as.
trait Counter {
    /// Reads a text, and counts what comes of it.
    fn count(&mut self, alloc: Global, text: &[u8]);
}

impl Counter for Counts {
    fn count(&mut self, alloc: Global, text: &[u8]) {
        match read_problem(alloc, text) {
            Ok(read) => count_read(self, &read),
            Err(fault) => {
                let (place, line) = fault_place(fault);
                add(self, place, 1);
                add(self, 14, line);
            }
        }
    }
}

/// Answers to a problem.
#[derive(Drop)]
struct Answers<'a> {
    problem: &'a Problem,
    counts: AnswerCounts,
}

/// Counts the options of a cover.
fn count_cover(counts: &mut [usize], cover: &Numbers) {
    add(counts, 0, 1);
    for (place, option) in cover.as_slice().iter().enumerate() {
        let number = usize::from(*option).wrapping_add(1);
        add(counts, 6, place.wrapping_add(1).wrapping_mul(number));
    }
}

impl Counter for Answers<'_> {
    fn count(&mut self, alloc: Global, text: &[u8]) {
        let counts = &mut self.counts;
        match &read_answer(alloc, text, self.problem) {
            Ok(Answer::Cover(cover)) => count_cover(counts, cover),
            Ok(Answer::NoCover) => add(counts, 1, 1),
            Err(AnswerFault::BadHead) => add(counts, 2, 1),
            Err(AnswerFault::WrongCount) => add(counts, 3, 1),
            Err(AnswerFault::UnknownOption(line)) => {
                add(counts, 4, 1);
                add(counts, 5, *line);
            }
            // (none of these texts takes that much memory)
            Err(AnswerFault::Memory) => {}
        }
    }
}

/// Each other byte at the place.
fn change_byte<C: Counter>(alloc: Global, text: &mut [u8], place: usize, counter: &mut C) {
    for _ in 1..=255u8 {
        if let Some(byte) = text.get_mut(place) {
            *byte = byte.wrapping_add(1);
        }
        counter.count(alloc, text);
    }
}

/// Each beginning, and each change of one byte.
fn change<R: Abort, C: Counter>(rt: &R, alloc: Global, text: &[u8], counter: &mut C) {
    for place in 0..text.len() {
        counter.count(alloc, &text[..place]);
        let mut changed = Vec::from_slice(alloc, text).expect(rt, "memory");
        change_byte(alloc, &mut changed, place, counter);
    }
}

/// Each byte behind the text.
fn lengthen<R: Abort, C: Counter>(rt: &R, alloc: Global, text: &[u8], counter: &mut C) {
    let mut longer = Vec::from_slice(alloc, text).expect(rt, "memory");
    longer.push(0).expect(rt, "memory");
    counter.count(alloc, &longer);
    change_byte(alloc, &mut longer, text.len(), counter);
}

#[test]
fn changed_problems_are_read_or_refused(rt: HostRuntime) {
    for (text, expected) in PROBLEMS.iter() {
        let mut counts: Counts = [0; 21];
        change(&rt, rt.alloc(), text.as_bytes(), &mut counts);
        lengthen(&rt, rt.alloc(), text.as_bytes(), &mut counts);
        assert!(rt; counts == *expected, "{text:?} {counts:?}");
    }
}

/// What is counted of an answer's texts.
fn counted<R: Abort>(rt: &R, alloc: Global, problem: &Problem, text: &[u8]) -> AnswerCounts {
    let mut answers = Answers {
        problem,
        counts: [0; 7],
    };
    change(rt, alloc, text, &mut answers);
    lengthen(rt, alloc, text, &mut answers);
    answers.counts
}

#[test]
fn changed_answers_are_read_or_refused(rt: HostRuntime) {
    for (file, text, expected) in ANSWERS.iter() {
        let problem = problem_of(&rt, rt.alloc(), file);
        let counts = counted(&rt, rt.alloc(), &problem, text.as_bytes());
        assert!(rt; counts == *expected, "{text:?} {counts:?}");
    }
}
