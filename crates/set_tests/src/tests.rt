//! Sets of options of small problems, beside a plain test of each pair.

use cover_problem::{Problem, clash, option_names};
use dlx_reader::read_problem;
use option_sets::{OptionSets, Word};
use std::alloc::{AllocError, Global};
use std::process::Abort;
use std::test::Fail;

/// Seven items and six options.
const LETTERS: &str = "a b c d e f g\nc e\na d g\nb c f\na d f\nb g\nd e g\n";

/// Of each of these items, as one word, the options that name it.
static ROWS: [u64; 7] = [
    0b001010, 0b010100, 0b000101, 0b101010, 0b100001, 0b001100, 0b110010,
];

/// Of each of these options, as one word, the options that share no item with it.
static LEFT: [u64; 6] = [0b011010, 0b000101, 0b100010, 0b010001, 0b001001, 0b000100];

/// Secondary items with colours.
const COLOURS: &str =
    "p q r | x y\np q x y:A\np r x:A y\np x:B\nq x:A\nr y:B\nq y:A x\np y:A\nr x:B y:B\n";

/// Whether a set has an option.
fn has(set: &[u64], option: u16) -> bool {
    let place = option as usize / 64;
    place < set.len() && (set[place] >> (option % 64)) & 1 == 1
}

/// Whether a row has an option.
fn row_has(row: &[Word], option: u16) -> bool {
    row.iter().any(|word| word.place == option / 64 && (word.bits >> (option % 64)) & 1 == 1)
}

/// Whether the options that an option leaves are those that don't clash with it.
fn spares<R: Abort>(
    rt: &R,
    sets: &OptionSets,
    option: u16,
    live: &[u64],
    next: &mut [u64],
) -> bool {
    let problem = sets.problem();
    assert!(rt; (option as usize) < problem.options());
    assert!(rt; live.len() == sets.words());
    assert!(rt; next.len() == sets.words());
    sets.spare(option, live, next);
    for other in 0..problem.options() as u16 {
        if has(next, other) == clash(problem, option, other) {
            return false;
        }
    }
    true
}

/// Whether an item's row has the options that name it and no others.
fn is_row_of(problem: &Problem, row: &[Word], item: u16) -> bool {
    for option in 0..problem.options() as u16 {
        if row_has(row, option) != option_names(problem, option, item) {
            return false;
        }
    }
    true
}

/// Whether the rows of all items are right.
fn rows_right<R: Abort>(rt: &R, sets: &OptionSets) -> bool {
    let problem = sets.problem();
    for item in 0..problem.items() as u16 {
        assert!(rt; (item as usize) < sets.problem().items());
        if !is_row_of(problem, sets.row(item), item) {
            return false;
        }
    }
    true
}

fn all_right<R: Abort>(rt: &R, alloc: Global, text: &str) -> bool {
    let problem = read_problem(alloc, text.as_bytes())
        .expect(rt, "a problem")
        .problem;
    let sets = OptionSets::build(alloc, &problem).expect(rt, "memory");
    let mut live = vec![in alloc; 0u64; sets.words()].expect(rt, "memory");
    let mut next = vec![in alloc; 0u64; sets.words()].expect(rt, "memory");
    sets.fill(&mut live);
    if !rows_right(rt, &sets) {
        return false;
    }
    for option in 0..problem.options() as u16 {
        if !spares(rt, &sets, option, &live, &mut next) {
            return false;
        }
    }
    true
}

/// Whether a set that is given by its words that aren't zero is this one word, its first.
fn is_word(row: &[Word], bits: u64) -> bool {
    row.len() == 1 && row[0].place == 0 && row[0].bits == bits
}

#[test]
fn letters(rt: HostRuntime) -> Result<(), Fail> {
    let problem = read_problem(rt.alloc(), LETTERS.as_bytes())
        .expect(&rt, "a problem")
        .problem;
    let sets = OptionSets::build(rt.alloc(), &problem)?;
    assert!(rt; problem.items() == ROWS.len() && problem.options() == LEFT.len());
    for (item, bits) in ROWS.iter().enumerate() {
        assert!(rt; is_word(sets.row(item as u16), *bits));
    }
    let (mut live, mut next) = ([0; 1], [0; 1]);
    assert!(rt; sets.words() == 1);
    sets.fill(&mut live);
    assert!(rt; live == [0b111111]);
    for (option, bits) in LEFT.iter().enumerate() {
        sets.spare(option as u16, &live, &mut next);
        assert!(rt; next == [*bits]);
    }
    assert!(rt; sets.primary_items(2) == [1, 2, 5].as_slice());
    Ok(())
}

#[test]
fn colours(rt: HostRuntime) -> Result<(), Fail> {
    assert!(rt; all_right(&rt, rt.alloc(), COLOURS));
    Ok(())
}

/// Many options over few items, in colours.
#[test]
fn many(rt: HostRuntime) -> Result<(), Fail> {
    let alloc = rt.alloc();
    let mut text = String::from_str(alloc, "a b c d e | x y z\n")?;
    for k in 0..300u32 {
        let item = [b'a', b'b', b'c', b'd', b'e'][k as usize % 5] as char;
        let line = match k % 4 {
            0 => format!(in alloc; "{item} x:{} y:{}\n", k % 7, k % 3)?,
            1 => format!(in alloc; "{item} z:{k}\n")?,
            2 => format!(in alloc; "{item} x:{} y z:{k}\n", k % 11)?,
            _ => format!(in alloc; "{item} y:{} x:{}\n", k % 13, k % 2)?,
        };
        text.push_str(line.as_str())?;
    }
    assert!(rt; all_right(&rt, alloc, text.as_str()));
    Ok(())
}
