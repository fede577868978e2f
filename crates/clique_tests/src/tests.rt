//! Cliques that are found and cliques that are given by hand.

use clash_cliques::{Clique, find_cliques, find_room_by_cliques, with_cliques};
use cover_problem::{Name, Numbers, Problem};
use cover_reasons::{Endless, ReasonWatch, find_reason};
use dlx_reader::read_problem;
use std::alloc::{AllocError, Global};
use std::process::Abort;
use std::test::Fail;

fn problem_of<R: Abort>(rt: &R, alloc: Global, text: &str) -> Problem {
    read_problem(alloc, text.as_bytes())
        .expect(rt, "a problem")
        .problem
}

/// The name of a clique and its options, with a space before each of these.
fn clique_text(alloc: Global, clique: &Clique) -> Result<String, AllocError> {
    let mut text = String::new(alloc);
    for byte in clique.name.as_slice() {
        text.push(char::from(*byte))?;
    }
    for option in clique.options.as_slice() {
        text.push_str(format!(in alloc; " {option}")?.as_str())?;
    }
    Ok(text)
}

/// The cliques that are found, each with a stop behind it.
fn found_in<R: Abort>(rt: &R, alloc: Global, file: &str) -> Result<String, AllocError> {
    let problem = problem_of(rt, alloc, file);
    let mut text = String::new(alloc);
    for clique in &find_cliques(alloc, &problem, &mut Endless)? {
        text.push_str(clique_text(alloc, clique)?.as_str())?;
        text.push_str(".")?;
    }
    Ok(text)
}

/// Problems, and the cliques in them that are more than the options of one item; they were drawn as graphs on paper.
static FOUND: [(&str, &str); 8] = [
    // three lessons of two teachers and a class, each two of which share one
    ("a b c | x y z\na x y\nb y z\nc x z\n", "clique1 0 1 2."),
    // the third can do without the second's class
    (
        "a b c | x y z\na x y\nb y z\nc x z\nc x\n",
        "clique1 0 1 2.",
    ),
    // a name that is taken
    (
        "a b c | x y clique1\na x y\nb y clique1\nc x clique1\n",
        "clique2 0 1 2.",
    ),
    // the item of all three stands for them already
    ("a b c | x\na x\nb x\nc x\n", ""),
    // nobody shares anything
    ("a b c\na\nb\nc\n", ""),
    // no two of the first two clash, and no third clashes with both of a pair
    ("a b c d | x y\na x\nb y\nc x\nd y\n", ""),
    // two that give an item one colour go together, and so no clique has both
    ("a b c | x y z\na x y:1\nb y:1 z\nc x z\n", ""),
    // without a colour they don't
    ("a b c | x y z\na x y\nb y:1 z\nc x z\n", "clique1 0 1 2."),
];

#[test]
fn cliques_are_found(rt: HostRuntime) -> Result<(), Fail> {
    for (file, cliques) in &FOUND {
        let text = found_in(&rt, rt.alloc(), *file)?;
        assert!(rt; text.as_str() == *cliques, "{file}");
    }
    Ok(())
}

/// Names and options, and whether they are a clique of the problem below.
static GIVEN: [(&str, &[u16], bool); 14] = [
    ("q", &[0, 1, 2], true),
    ("q", &[2, 0, 1], true),
    ("q", &[0, 1], true),
    ("q", &[], true),
    ("q", &[3], true),
    // x is in one colour in both
    ("q", &[3, 4], false),
    ("q", &[3, 5], true),
    // the pairs of the last clash with all but one
    ("q", &[0, 1, 2, 3], false),
    ("q", &[0, 6], false),
    ("q", &[0, 1, 2, 7], false),
    // names
    ("a", &[0, 1, 2], false),
    ("", &[0, 1, 2], false),
    ("q:1", &[0, 1, 2], false),
    ("clique-with-a-name-of-33-bytes-xx", &[0, 1, 2], false),
];

#[test]
fn cliques_by_hand(rt: HostRuntime) -> Result<(), Fail> {
    let alloc = rt.alloc();
    let file = "a b c d | x y z w\na x y\nb y z\nc x z\nd w:1\nb w:1\nc w:2\nd\n";
    let problem = problem_of(&rt, alloc, file);
    for (name, options, is_one) in &GIVEN {
        let name = Name::from_vec(name.as_bytes().to_vec(alloc)?);
        let options = Numbers::from_vec(options.to_vec(alloc)?);
        let mut cliques = Vec::new(alloc);
        cliques.push(Clique { name, options })?;
        let made = with_cliques(alloc, &problem, &cliques)?;
        assert!(rt; made.is_some() == *is_one);
    }
    Ok(())
}

/// What a made problem says: a further item, which the clique's options name behind their own.
#[test]
fn one_item_more(rt: HostRuntime) -> Result<(), Fail> {
    let alloc = rt.alloc();
    let problem = problem_of(&rt, alloc, "a b c | x y z\na x y:1\nb y:2 z\nc x z\na\n");
    let mut cliques = Vec::new(alloc);
    let name = Name::from_vec(b"q".to_vec(alloc)?);
    let options = Numbers::from_vec([0u16, 1, 2].to_vec(alloc)?);
    cliques.push(Clique { name, options })?;
    let made = with_cliques(alloc, &problem, &cliques)?.expect(&rt, "a clique");
    assert!(rt; made.options() == 4 && made.primary() == 3 && made.items() == 7);
    if made.options() == 4 && made.items() == 7 {
        assert!(rt; made.name(6) == b"q".as_slice());
        assert!(rt; made.option(0) == [0u16, 3, 4, 6].as_slice());
        assert!(rt; made.colours(0) == [0u16, 0, 1, 0].as_slice());
        assert!(rt; made.option(3) == [0u16].as_slice());
    }
    Ok(())
}

/// So many exams in so many slots, each two of which have a student in common.
fn exams(alloc: Global, count: u8, slots: u8) -> Result<String, AllocError> {
    let mut head = String::new(alloc);
    let mut items = String::new(alloc);
    let mut text = String::new(alloc);
    for exam in 0..count {
        head.push_str(format!(in alloc; "e{exam} ")?.as_str())?;
        for slot in 0..slots {
            text.push_str(format!(in alloc; "\ne{exam}")?.as_str())?;
            for other in 0..count {
                let (low, high) = (exam.min(other), exam.max(other));
                if low < high {
                    text.push_str(format!(in alloc; " {low}-{high}.{slot}")?.as_str())?;
                }
                if exam < other {
                    items.push_str(format!(in alloc; " {low}-{high}.{slot}")?.as_str())?;
                }
            }
        }
    }
    head.push_str("|")?;
    head.push_str(items.as_str())?;
    head.push_str(text.as_str())?;
    Ok(head)
}

/// Exams need a slot each, which no reason says without cliques: by one clique for each slot.
#[test]
fn exams_need_slots(rt: HostRuntime) -> Result<(), Fail> {
    let alloc = rt.alloc();
    for count in [4u8, 6, 10] {
        let text = exams(alloc, count, count - 1)?;
        let problem = problem_of(&rt, alloc, text.as_str());
        assert!(rt; find_reason(alloc, &problem)?.is_none());
        let by = find_room_by_cliques(alloc, &problem, &mut Endless)?.expect(&rt, "too few slots");
        assert!(rt; by.cliques.len() == usize::from(count - 1));
        assert!(rt; by.room.size() == usize::from(count) + by.cliques.len());
    }
    Ok(())
}

#[test]
fn enough_slots(rt: HostRuntime) -> Result<(), Fail> {
    let alloc = rt.alloc();
    let text = exams(alloc, 6, 6)?;
    let problem = problem_of(&rt, alloc, text.as_str());
    assert!(rt; find_room_by_cliques(alloc, &problem, &mut Endless)?.is_none());
    Ok(())
}

/// A watch that ends the search at its first look.
#[derive(Drop)]
struct Ended;

impl ReasonWatch for Ended {
    fn look(&mut self) -> bool {
        true
    }
}

#[test]
fn a_search_that_is_ended_finds_nothing(rt: HostRuntime) -> Result<(), Fail> {
    let alloc = rt.alloc();
    let text = exams(alloc, 4, 3)?;
    let problem = problem_of(&rt, alloc, text.as_str());
    assert!(rt; find_cliques(alloc, &problem, &mut Ended)?.is_empty());
    assert!(rt; find_room_by_cliques(alloc, &problem, &mut Ended)?.is_none());
    Ok(())
}
