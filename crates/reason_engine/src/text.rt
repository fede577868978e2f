//! The text of a reason.

ghost use Rattle.std.specs.Prelude.{◌≡◌, ◌<◌, [], ◌∷◌, ◌++◌, length, codes, IfOk, OnOk};
ghost use Rattle.std.specs.List.{flat_map};
ghost use Rattle.std.specs.Fmt.{decimal};
ghost use Rattle.cover_reasons.specs.Room.{amount_of};
ghost use Rattle.dlx_reader.specs.Writing.{name_text};
ghost use Rattle.reason_engine.specs.ReasonText.{line_text, lines_text, room_text, kind_text, number_text, clique_text, case_text, cases_text};

use case_reasons::{Case, Cases};
use clash_cliques::{Clique, RoomByCliques};
use cover_problem::Problem;
use cover_reasons::{Reason, Room, Weights};
use itoa::Buffer;
use std::alloc::{AllocError, Global};
use used_items::WithUsedItems;

/// Adds two pieces to a text.
fn push_two(text: &mut Vec<u8>, first: &[u8], second: &[u8]) -> Result<(), AllocError>
    ensures { OnOk result (text.new.items ≡ text.old.items ++ first.now ++ second.now) }
{
    text.extend_from_slice(first)?;
    text.extend_from_slice(second)
}

/// Adds a space and a number to a text.
fn push_number(text: &mut Vec<u8>, number: u32) -> Result<(), AllocError>
    ensures { OnOk result (text.new.items ≡ text.old.items ++ 32 ∷ decimal number) }
{
    let mut digits = Buffer::new();
    push_two(text, b" ", digits.format(number).as_bytes())
}

/// Adds a space, the name of an item and the end of a line to a text.
fn push_name(text: &mut Vec<u8>, problem: &Problem, item: u16) -> Result<(), AllocError>
    requires { item < length problem.now.names }
    ensures { OnOk result
        (text.new.items ≡ text.old.items ++ 32 ∷ name_text problem.now item ++ 10 ∷ []) }
{
    push_two(text, b" ", problem.name(item))?;
    text.extend_from_slice(b"\n")
}

/// Adds the line of an item to a text: a word, a number and the item's name.
fn push_words(
    text: &mut Vec<u8>,
    problem: &Problem,
    word: &[u8],
    amount: u16,
    item: u16,
) -> Result<(), AllocError>
    requires { item < length problem.now.names }
    ensures { OnOk result (text.new.items ≡ text.old.items
        ++ word.now ++ 32 ∷ decimal amount ++ 32 ∷ name_text problem.now item ++ 10 ∷ []) }
{
    text.extend_from_slice(word)?;
    push_number(text, u32::from(amount))?;
    push_name(text, problem, item)
}

/// Returns the number that a list has for an item; 0 for an item behind its end.
fn amount_of(amounts: &[u16], item: u16) -> u16
    ensures { result ≡ amount_of amounts.now item }
{
    match amounts.get(item as usize) {
        Some(amount) => *amount,
        None => 0,
    }
}

/// Adds the line of an item to a text, unless its number in the list is 0: such an item adds nothing to the sum.
fn push_line(
    text: &mut Vec<u8>,
    problem: &Problem,
    word: &[u8],
    amounts: &[u16],
    item: u16,
) -> Result<(), AllocError>
    requires { item < length problem.now.names }
    ensures { OnOk result
        (text.new.items ≡ text.old.items ++ line_text problem.now word.now amounts.now item) }
{
    let amount = amount_of(amounts, item);
    if amount == 0 {
        return Ok(());
    }
    push_words(text, problem, word, amount, item)
}

/// Adds the lines of a list to a text.
fn push_lines(
    text: &mut Vec<u8>,
    problem: &Problem,
    word: &[u8],
    amounts: &[u16],
) -> Result<(), AllocError>
    ensures { OnOk result
        (text.new.items ≡ text.old.items ++ lines_text problem.now word.now amounts.now) }
{
    // (a problem has 1,000 items at most, so 16 bits hold each number)
    for item in 0..problem.items() as u16 {
        push_line(text, problem, word, amounts, item)?;
    }
    Ok(())
}

/// Adds the lines of weights to a text, and the modulus before them.
fn push_weights(text: &mut Vec<u8>, problem: &Problem, weights: &Weights) -> Result<(), AllocError>
    ensures { OnOk result
        (text.new.items ≡ text.old.items ++ kind_text problem.now (Reason.Weighed weights.now)) }
{
    text.extend_from_slice(b"weights modulo")?;
    push_number(text, weights.modulus())?;
    text.extend_from_slice(b"\n")?;
    push_lines(text, problem, b"weigh", weights.as_slice())
}

/// Adds the lines of needs and rooms to a text.
fn push_room(text: &mut Vec<u8>, problem: &Problem, room: &Room) -> Result<(), AllocError>
    ensures { OnOk result (text.new.items ≡ text.old.items ++ room_text problem.now room.now) }
{
    push_lines(text, problem, b"need", room.needs())?;
    push_lines(text, problem, b"room", room.rooms())
}

/// Adds that there is too little room, and the lines of needs and rooms, to a text.
fn push_lack(text: &mut Vec<u8>, problem: &Problem, room: &Room) -> Result<(), AllocError>
    ensures { OnOk result
        (text.new.items ≡ text.old.items ++ kind_text problem.now (Reason.TooLittleRoom room.now)) }
{
    text.extend_from_slice(b"too little room\n")?;
    push_room(text, problem, room)
}

/// Adds the kind of a reason and its lines to a text.
fn push_reason(text: &mut Vec<u8>, problem: &Problem, reason: &Reason) -> Result<(), AllocError>
    ensures { OnOk result (text.new.items ≡ text.old.items ++ kind_text problem.now reason.now) }
{
    match reason {
        Reason::Weighed(weights) => push_weights(text, problem, weights),
        Reason::TooLittleRoom(room) => push_lack(text, problem, room),
    }
}

/// Returns the lines of a reason alone. The only error is out of memory.
pub fn lines_of(alloc: Global, problem: &Problem, reason: &Reason) -> Result<Vec<u8>, AllocError>
    ensures { IfOk result (λ text. text.items ≡ kind_text problem.now reason.now) }
{
    let mut text = Vec::new(alloc);
    push_reason(&mut text, problem, reason)?;
    Ok(text)
}

/// Returns the lines of room that is just enough, and of a reason of the problem that was made by it. The only error is
/// out of memory.
pub fn promoted_lines_of(
    alloc: Global,
    problem: &Problem,
    made: &WithUsedItems,
    reason: &Reason,
) -> Result<Vec<u8>, AllocError>
    ensures { IfOk result (λ text. text.items ≡ codes "just enough room\n"
        ++ room_text problem.now made.now.room ++ kind_text made.now.problem reason.now) }
{
    let mut text = Vec::from_slice(alloc, b"just enough room\n")?;
    push_room(&mut text, problem, &made.room)?;
    push_reason(&mut text, &made.problem, reason)?;
    Ok(text)
}

/// Adds these numbers to a text, a space before each.
#[tactic(auto, using(crate::proofs::Lines::pieces_more, crate::proofs::Lines::all_pieces))]
fn push_numbers(text: &mut Vec<u8>, numbers: &[u16]) -> Result<(), AllocError>
    ensures { OnOk result (text.new.items
        ≡ text.old.items ++ flat_map number_text numbers.now) }
{
    for number in numbers {
        push_number(text, u32::from(*number))?;
    }
    Ok(())
}

/// Adds the line of a clique to a text.
fn push_clique(text: &mut Vec<u8>, clique: &Clique) -> Result<(), AllocError>
    ensures { OnOk result (text.new.items ≡ text.old.items ++ clique_text clique.now) }
{
    push_two(text, b"clique ", clique.name.as_slice())?;
    push_numbers(text, clique.options.as_slice())?;
    text.extend_from_slice(b"\n")
}

/// Adds the lines of cliques to a text.
#[tactic(auto, using(crate::proofs::Lines::pieces_more, crate::proofs::Lines::all_pieces))]
fn push_cliques(text: &mut Vec<u8>, cliques: &[Clique]) -> Result<(), AllocError>
    ensures { OnOk result (text.new.items ≡ text.old.items ++ flat_map clique_text cliques.now) }
{
    for clique in cliques {
        push_clique(text, clique)?;
    }
    Ok(())
}

/// Returns the lines of cliques, and of room that is too little in the problem with items for these. The only error is
/// out of memory.
pub fn clique_lines_of(alloc: Global, by: &RoomByCliques) -> Result<Vec<u8>, AllocError>
    ensures { IfOk result (λ text. text.items ≡ codes "cliques\n"
        ++ flat_map clique_text by.now.cliques.items
        ++ kind_text by.now.problem (Reason.TooLittleRoom by.now.room)) }
{
    let mut text = Vec::from_slice(alloc, b"cliques\n")?;
    push_cliques(&mut text, &by.cliques)?;
    push_lack(&mut text, &by.problem, &by.room)?;
    Ok(text)
}

/// Adds the lines of a case to a text.
fn push_case(text: &mut Vec<u8>, problem: &Problem, case: &Case) -> Result<(), AllocError>
    ensures { OnOk result
        (text.new.items ≡ text.old.items ++ case_text problem.now case.now) }
{
    text.extend_from_slice(b"option")?;
    push_number(text, u32::from(case.option))?;
    text.extend_from_slice(b"\n")?;
    push_reason(text, problem, &case.reason)
}

/// Adds the lines of cases to a text.
#[tactic(auto, using(crate::proofs::Lines::pieces_more, crate::proofs::Lines::all_pieces))]
fn push_list(text: &mut Vec<u8>, problem: &Problem, list: &[Case]) -> Result<(), AllocError>
    ensures { OnOk result
        (text.new.items ≡ text.old.items ++ flat_map (case_text problem.now) list.now) }
{
    for case in list {
        push_case(text, problem, case)?;
    }
    Ok(())
}

/// Returns the name of an item; nothing where there is no such item.
fn name_of(problem: &Problem, item: u16) -> &[u8]
    ensures { result.now ≡ name_text problem.now item }
{
    if (item as usize) < problem.items() {
        return problem.name(item);
    }
    &[]
}

/// Returns the lines of the cases of an item. The only error is out of memory.
pub fn cases_lines_of(
    alloc: Global,
    problem: &Problem,
    cases: &Cases,
) -> Result<Vec<u8>, AllocError>
    ensures { IfOk result (λ text. text.items ≡ cases_text problem.now cases.now) }
{
    let mut text = Vec::from_slice(alloc, b"options of ")?;
    text.extend_from_slice(name_of(problem, cases.item))?;
    text.extend_from_slice(b"\n")?;
    push_list(&mut text, problem, &cases.list)?;
    Ok(text)
}
