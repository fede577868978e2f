//! Texts with the fault or the problem that the rules of the format give them, worked out by hand.

use cover_problem::Problem;
use dlx_reader::ReadFault::{
    self, BadColour, ColourOnPrimary, DuplicateInOption, DuplicateItem, IllegalByte, NameTooLong,
    NoItems, SecondBar, UnknownItem,
};
use dlx_reader::{Read, read_problem};

/// 32 bytes, and one more.
const LONGEST: &str = "aaaaaaaaaabbbbbbbbbbccccccccccdd";

/// A text, and its fault.
pub static FAULTS: [(&str, ReadFault); 97] = [
    // No item line: empty, blank lines and comments alone.
    ("", NoItems),
    ("\n", NoItems),
    (" \t\r\n", NoItems),
    ("\u{b}\u{c}\r \n", NoItems),
    ("|", NoItems),
    ("| note\n  | note\n", NoItems),
    ("|a b\n\n|", NoItems),
    // On the item line: a byte that no name has.
    ("a:\n", IllegalByte(1)),
    (":", IllegalByte(1)),
    ("a b:c\n", IllegalByte(1)),
    ("\0", IllegalByte(1)),
    ("a b\0c\n", IllegalByte(1)),
    ("a b|c\n", IllegalByte(1)),
    ("a b|\n", IllegalByte(1)),
    ("a ||x\n", IllegalByte(1)),
    ("a ||\n", IllegalByte(1)),
    ("a |:\n", IllegalByte(1)),
    ("a | x|y\n", IllegalByte(1)),
    ("\n| a:\n\na:", IllegalByte(4)),
    ("a | x:1\na\n", IllegalByte(1)),
    // In an option: the same, each bar, and a second colon.
    ("a\na | a\n", IllegalByte(2)),
    ("a\na |a\n", IllegalByte(2)),
    ("a\na\0", IllegalByte(2)),
    ("a\na a|\n", IllegalByte(2)),
    ("a | x\nx |\na\n", IllegalByte(2)),
    ("a | x\na x:1:2\n", IllegalByte(2)),
    ("a | x\na x::\n", IllegalByte(2)),
    ("a | x\na ::1\n", IllegalByte(2)),
    ("a | x\na x:1|\n", IllegalByte(2)),
    ("a | x\na x|:1\n", IllegalByte(2)),
    ("a | x\na x:\0\n", IllegalByte(2)),
    // More than 32 bytes, of which the separator's bar is none.
    ("aaaaaaaaaabbbbbbbbbbccccccccccddd\n", NameTooLong(1)),
    ("a |aaaaaaaaaabbbbbbbbbbccccccccccddd", NameTooLong(1)),
    (
        "| c\na\naaaaaaaaaabbbbbbbbbbccccccccccddd\n",
        NameTooLong(3),
    ),
    ("a\na aaaaaaaaaabbbbbbbbbbccccccccccddd a\n", NameTooLong(2)),
    ("éééééééééééééééée\n", NameTooLong(1)),
    (
        "a | x\na aaaaaaaaaabbbbbbbbbbccccccccccddd:1\n",
        NameTooLong(2),
    ),
    // Nothing before a colon or behind it, or more than 32 bytes behind it.
    ("a | x\na x:\n", BadColour(2)),
    ("a | x\na :1\n", BadColour(2)),
    ("a | x\na :\n", BadColour(2)),
    ("\n\n| c\na\n\na a:\n", BadColour(6)),
    ("a | x y\nx:1 y:\n", BadColour(2)),
    (
        "a | x\na x:aaaaaaaaaabbbbbbbbbbccccccccccddd\n",
        BadColour(2),
    ),
    // A name twice on the item line.
    ("a a\n", DuplicateItem(1)),
    ("a b a", DuplicateItem(1)),
    ("a |a\n", DuplicateItem(1)),
    ("a | a\n", DuplicateItem(1)),
    ("a |x x\n", DuplicateItem(1)),
    ("a | x x\n", DuplicateItem(1)),
    ("\n\na a\n", DuplicateItem(3)),
    ("| c\na a\n", DuplicateItem(2)),
    ("a b\ra\n", DuplicateItem(1)),
    ("a\u{b}a\n", DuplicateItem(1)),
    ("a\u{c}a\n", DuplicateItem(1)),
    // A second separator.
    ("a | x | y\n", SecondBar(1)),
    ("a | |\n", SecondBar(1)),
    ("a | | a\n", SecondBar(1)),
    ("a |x |y\n", SecondBar(1)),
    ("a |x | y\n", SecondBar(1)),
    ("\na | |x\n", SecondBar(2)),
    // A word that is no item's name.
    ("a\nb\n", UnknownItem(2)),
    ("a\na b", UnknownItem(2)),
    ("a\n\n|\n\tb", UnknownItem(4)),
    ("a\n| x:\n\n|\nb", UnknownItem(5)),
    ("a | x\nX\n", UnknownItem(2)),
    ("ab\na b\n", UnknownItem(2)),
    ("a\r\nb\r\n", UnknownItem(2)),
    ("a\u{a0}b\na\n", UnknownItem(2)),
    ("a | x\nx\nx y\n", UnknownItem(3)),
    ("a | x\na y:1\n", UnknownItem(2)),
    // An item twice in an option.
    ("a\na a\n", DuplicateInOption(2)),
    ("a | x\na x x\n", DuplicateInOption(2)),
    ("a b\na b a", DuplicateInOption(2)),
    ("a | x\na\nx x\n", DuplicateInOption(3)),
    ("a | x\na x:1 x:2\n", DuplicateInOption(2)),
    ("a | x\na x:1 x\n", DuplicateInOption(2)),
    ("a | x\na x x:1\n", DuplicateInOption(2)),
    // A primary item with a colour.
    ("a\na:red\n", ColourOnPrimary(2)),
    ("a b | x\na x:1\nb:1 x:1\n", ColourOnPrimary(3)),
    // Two faults in a word: that of the lesser number.
    ("a |x |x\n", DuplicateItem(1)),
    ("a | |a\n", DuplicateItem(1)),
    ("a | x |:\n", IllegalByte(1)),
    ("a | |aaaaaaaaaabbbbbbbbbbccccccccccddd\n", NameTooLong(1)),
    ("aaaaaaaaaabbbbbbbbbbccccccccccdd:\n", IllegalByte(1)),
    ("a\naaaaaaaaaabbbbbbbbbbccccccccccddd\n", NameTooLong(2)),
    (
        "a | x\na aaaaaaaaaabbbbbbbbbbccccccccccddd:1:2\n",
        IllegalByte(2),
    ),
    (
        "a | x\na aaaaaaaaaabbbbbbbbbbccccccccccddd:\n",
        NameTooLong(2),
    ),
    ("a\nb:\n", BadColour(2)),
    ("a | x\nx x:\n", BadColour(2)),
    ("a\na:\n", BadColour(2)),
    ("a\na a:1\n", DuplicateInOption(2)),
    // Two faults in a line, and in two lines: the former.
    ("a b\na c a\n", UnknownItem(2)),
    ("a b\na a c\n", DuplicateInOption(2)),
    ("a a :\n", DuplicateItem(1)),
    ("a a\nb\n", DuplicateItem(1)),
    ("a\nb\nc:\n", UnknownItem(2)),
    ("a\na a\n\0\n", DuplicateInOption(2)),
];

#[test]
fn faults(rt: HostRuntime) {
    for (text, fault) in FAULTS.iter() {
        let found = read_problem(rt.alloc(), text.as_bytes()).err();
        assert!(rt; found == Some(*fault), "{text:?}");
    }
}

/// A text; the names, how many are primary, the options' items, and how many options are ignored.
pub static PROBLEMS: [(&str, &[&str], usize, &[&[u16]], usize); 18] = [
    (
        "a b c d e f g\nc e\na d g\nb c f\na d f\nb g\nd e g\n",
        &["a", "b", "c", "d", "e", "f", "g"],
        7,
        &[
            &[2, 4],
            &[0, 3, 6],
            &[1, 2, 5],
            &[0, 3, 5],
            &[1, 6],
            &[3, 4, 6],
        ],
        0,
    ),
    (
        "a b | x\na x\nb x\nb\n",
        &["a", "b", "x"],
        2,
        &[&[0, 2], &[1, 2], &[1]],
        0,
    ),
    ("a", &["a"], 1, &[], 0),
    ("a |x", &["a", "x"], 1, &[], 0),
    ("a |\na\n", &["a"], 1, &[&[0]], 0),
    ("a b |\n b a\n", &["a", "b"], 2, &[&[1, 0]], 0),
    ("a | x\nx\na", &["a", "x"], 1, &[&[0]], 1),
    (
        "a | x y\nx y\nx\ny a x\ny\n",
        &["a", "x", "y"],
        1,
        &[&[2, 0, 1]],
        3,
    ),
    ("a |x y\ny a\n", &["a", "x", "y"], 1, &[&[2, 0]], 0),
    ("a\na\na\na\n", &["a"], 1, &[&[0], &[0], &[0]], 0),
    ("a b\r\na\r\nb\r\n", &["a", "b"], 2, &[&[0], &[1]], 0),
    (
        "\n | head |\n\n\ta\tb | c \n|a b:\n c a \n\n b\n| end",
        &["a", "b", "c"],
        2,
        &[&[2, 0], &[1]],
        0,
    ),
    (
        "a\u{b}b\u{c}c\n\u{c}c\u{b}a\n",
        &["a", "b", "c"],
        3,
        &[&[2, 0]],
        0,
    ),
    ("é a\na é\n", &["é", "a"], 2, &[&[1, 0]], 0),
    ("A a\nA\na\n", &["A", "a"], 2, &[&[0], &[1]], 0),
    (
        "none cover\ncover none\n",
        &["none", "cover"],
        2,
        &[&[1, 0]],
        0,
    ),
    (LONGEST, &[LONGEST], 1, &[], 0),
    (
        "a |aaaaaaaaaabbbbbbbbbbccccccccccdd\naaaaaaaaaabbbbbbbbbbccccccccccdd\n",
        &["a", LONGEST],
        1,
        &[],
        1,
    ),
];

/// A text with colours; the options' items and their colours, the colours' names, and how many options are ignored.
type ColouredRow = (
    &'static str,
    &'static [&'static [u16]],
    &'static [&'static [u16]],
    &'static [&'static str],
    usize,
);

pub static COLOURED: [ColouredRow; 7] = [
    ("a | x\na x\n", &[&[0, 1]], &[&[0, 0]], &[], 0),
    ("a | x\na x:1\n", &[&[0, 1]], &[&[0, 1]], &["1"], 0),
    // Colours are numbered as they first stand.
    (
        "a b | x y\na x:B y:A\nb y:C x:A\nb x:B y\n",
        &[&[0, 2, 3], &[1, 3, 2], &[1, 2, 3]],
        &[&[0, 1, 2], &[0, 3, 2], &[0, 1, 0]],
        &["B", "A", "C"],
        0,
    ),
    // An option that is ignored numbers none.
    (
        "a | x\nx:Z\nx:A a\nx:Z\n",
        &[&[1, 0]],
        &[&[1, 0]],
        &["A"],
        2,
    ),
    // The name of an item is another name than that of a colour.
    (
        "a | x\na x:x\na x\na x:a\n",
        &[&[0, 1], &[0, 1], &[0, 1]],
        &[&[0, 1], &[0, 0], &[0, 2]],
        &["x", "a"],
        0,
    ),
    ("é | ü\nü:é é\n", &[&[1, 0]], &[&[1, 0]], &["é"], 0),
    (
        "a | x\na x:aaaaaaaaaabbbbbbbbbbccccccccccdd\n",
        &[&[0, 1]],
        &[&[0, 1]],
        &[LONGEST],
        0,
    ),
];

/// Whether these are the names of a problem's items.
fn are_names(problem: &Problem, names: &[&str]) -> bool {
    for item in 0..problem.items() as u16 {
        match names.get(usize::from(item)) {
            Some(name) if problem.name(item) == name.as_bytes() => {}
            _ => return false,
        }
    }
    problem.items() == names.len()
}

/// Whether these are a problem's options.
fn are_options(problem: &Problem, options: &[&[u16]]) -> bool {
    for option in 0..problem.options() as u16 {
        match options.get(usize::from(option)) {
            Some(items) if problem.option(option) == *items => {}
            _ => return false,
        }
    }
    problem.options() == options.len()
}

/// Whether these are the names and the options, so many items are primary and so many options ignored.
pub fn is_read(
    read: &Read,
    (names, primary): (&[&str], usize),
    (options, ignored): (&[&[u16]], usize),
) -> bool {
    are_names(&read.problem, names)
        && read.problem.primary() == primary
        && are_options(&read.problem, options)
        && read.ignored == ignored
}

#[test]
fn problems(rt: HostRuntime) {
    for (text, names, primary, options, ignored) in PROBLEMS.iter() {
        let read = read_problem(rt.alloc(), text.as_bytes()).expect(&rt, "a problem");
        assert!(rt;
            is_read(&read, (names, *primary), (options, *ignored)),
            "{text:?}"
        );
    }
}

/// Whether these are the colours of a problem's options.
fn are_colours(problem: &Problem, colours: &[&[u16]]) -> bool {
    for option in 0..problem.options() as u16 {
        match colours.get(usize::from(option)) {
            Some(own) if problem.colours(option) == *own => {}
            _ => return false,
        }
    }
    problem.options() == colours.len()
}

/// Whether these are the names of a problem's colours.
fn are_colour_names(problem: &Problem, names: &[&str]) -> bool {
    for before in 0..problem.colour_names() as u16 {
        match names.get(usize::from(before)) {
            Some(name) if problem.colour_name(before + 1) == name.as_bytes() => {}
            _ => return false,
        }
    }
    problem.colour_names() == names.len()
}

/// Whether what is read is as the row says.
pub fn is_coloured(read: &Read, row: &ColouredRow) -> bool {
    let (_, options, colours, names, ignored) = row;
    are_options(&read.problem, options)
        && are_colours(&read.problem, colours)
        && are_colour_names(&read.problem, names)
        && read.ignored == *ignored
}

#[test]
fn colours(rt: HostRuntime) {
    for row in COLOURED.iter() {
        let read = read_problem(rt.alloc(), row.0.as_bytes()).expect(&rt, "a problem");
        assert!(rt; is_coloured(&read, row), "{:?}", row.0);
    }
}

/// Whether the items are 80 ff, which is primary, and fe, and the one option has them the other way round.
fn has_bytes_above_127(read: &Read) -> bool {
    let problem = &read.problem;
    problem.items() == 2
        && problem.name(0) == b"\x80\xff".as_slice()
        && problem.name(1) == b"\xfe".as_slice()
        && problem.primary() == 1
        && are_options(problem, &[&[1, 0]])
        && read.ignored == 0
}

#[test]
fn bytes_above_127(rt: HostRuntime) {
    let read = read_problem(rt.alloc(), b"\x80\xff | \xfe\n\xfe \x80\xff\n");
    assert!(rt; has_bytes_above_127(&read.expect(&rt, "a problem")));
}
