//! The line that says what a test of a certificate came to.

ghost use Rattle.std.specs.Prelude.{◌≡◌, [], ◌∷◌, ◌++◌, IfOk, OnOk};
ghost use Rattle.std.specs.Fmt.{decimal};
ghost use Rattle.certificate_engine.specs.Certificate.{expected_text, wrong_text};

use cover_certificates::Expected;
use itoa::Buffer;
use std::alloc::{AllocError, Global};

/// Returns what was expected, in words.
fn expected_words(expected: Expected) -> &'static [u8]
    ensures { result.now ≡ expected_text expected }
{
    match expected {
        Expected::None => b"'none'",
        Expected::Counts => {
            b"'cases' or 'clauses' and the numbers of items and options of the file"
        }
        Expected::Refutation => b"the number of an item, or = or * and a number",
        Expected::OpenItem => b"an item that is still to be covered",
        Expected::KeptCase => b"the number of a case that is kept",
        Expected::WiderCase => {
            b"a kept case whose items are all to be covered here, by no other options than there"
        }
        Expected::IdleChoice => b"a line that goes back over a choice that plays no part",
        Expected::Amounts => b"'weights' or 'room' with numbers of items and their amounts",
        Expected::Reason => b"the number of a reason",
        Expected::ReasonHere => b"a reason that holds here",
        Expected::Clause => b"'d' and a number, or literals and hints",
        Expected::Following => b"a clause that follows along its hints",
        Expected::KnownClause => b"the number of a clause that there is",
        Expected::End => b"the end",
    }
}

/// Adds a number to a text.
fn push_number(text: &mut Vec<u8>, number: u64) -> Result<(), AllocError>
    ensures { OnOk result (text.new.items ≡ text.old.items ++ decimal number) }
{
    let mut digits = Buffer::new();
    text.extend_from_slice(digits.format(number).as_bytes())
}

/// Returns the line that says which line is wrong, and what was expected there; the only error is out of memory.
pub(crate) fn wrong_line(
    alloc: Global,
    line: u64,
    expected: Expected,
) -> Result<Vec<u8>, AllocError>
    ensures { IfOk result (λ text. text.items ≡ wrong_text line expected) }
{
    let mut text = Vec::from_slice(alloc, b"wrong: line ")?;
    push_number(&mut text, line)?;
    text.extend_from_slice(b": expected ")?;
    text.extend_from_slice(expected_words(expected))?;
    text.push(b'\n')?;
    Ok(text)
}
