ghost use Rattle.dlx_reader.specs.Lines.{words_of};
ghost use Rattle.std.specs.Prelude.{◌≡◌, ◌≤◌, ℕ, ◌∷◌, codes, length, IfSome, IfNone, IfOk, IfErr, true, ◌↔◌, IsTrue};
ghost use Rattle.std.specs.List.{list_all};
ghost use Rattle.std.specs.Char.{is_ascii_digit};
ghost use Rattle.std.specs.Str.Parse.{digits_value};
ghost use Rattle.dlx_reader.specs.Answers.{IsCount, IsHead};
ghost use Rattle.dlx_reader.specs.AnswerSteps.{IsHeadOf, IsHeadBefore, IsHeadFault};

use crate::answer_fault::AnswerFault;
use crate::words::{has_words, split_word};

/// What the first line of an answer says.
#[derive(Clone, Copy)]
pub enum Head {
    /// There is none.
    NoCover,
    /// A cover of so many options.
    Cover(usize),
}

impl Head {
    ghost use Rattle.dlx_reader.specs.AnswerSteps.{lines_after};

    /// How many lines follow that aren't blank.
    fn lines(self) -> usize
        ensures { result ≡ lines_after self }
    {
        match self {
            Head::NoCover => 0,
            Head::Cover(count) => count,
        }
    }
}

/// Whether each byte is a decimal digit.
fn are_digits(bytes: &[u8]) -> bool
    ensures { result ≡ list_all is_ascii_digit bytes.now }
{
    bytes.iter().all(u8::is_ascii_digit)
}

/// The number that at most five decimal digits write.
fn value_of(digits: &[u8]) -> usize
    requires few { length digits.now ≤ 5 }
    requires decimal { list_all is_ascii_digit digits.now ≡ true }
    ensures { result ≡ digits_value 10 digits.now }
{
    let mut value = 0;
    for digit in digits {
        value = value * 10 + usize::from(*digit - b'0');
    }
    value
}

/// The number that one to five decimal digits write, if they are that.
fn count_of(digits: &[u8]) -> Option<usize>
    ensures count { IfSome result (IsCount digits.now) }
    ensures none { IfNone result ((count : ℕ) → IsCount digits.now count → ⊥) }
{
    if digits.is_empty() || digits.len() > 5 || !are_digits(digits) {
        return None;
    }
    Some(value_of(digits))
}

/// The head `none`, where no word stands behind it.
fn none_head(behind: &[u8]) -> Option<Head>
    ensures head { IfSome result (IsHeadOf (codes "none" ∷ words_of behind.now)) }
    ensures none { IfNone result ((count : ℕ) →
        IsHead (codes "none" ∷ words_of behind.now) count → ⊥) }
{
    if has_words(behind) {
        return None;
    }
    Some(Head::NoCover)
}

/// The head of the word `cover` and digits, where these stand behind it.
fn cover_head(behind: &[u8]) -> Option<Head>
    ensures head { IfSome result (IsHeadOf (codes "cover" ∷ words_of behind.now)) }
    ensures none { IfNone result ((count : ℕ) →
        IsHead (codes "cover" ∷ words_of behind.now) count → ⊥) }
{
    let (digits, rest) = split_word(behind)?;
    if has_words(rest) {
        return None;
    }
    count_of(digits).map(Head::Cover)
}

/// The head that a line is, if it is one.
fn head_of(line: &[u8]) -> Option<Head>
    ensures head { IfSome result (IsHeadOf (words_of line.now)) }
    ensures none { IfNone result ((count : ℕ) → IsHead (words_of line.now) count → ⊥) }
{
    let (word, behind) = split_word(line)?;
    if word == b"none".as_slice() {
        return none_head(behind);
    }
    if word == b"cover".as_slice() {
        return cover_head(behind);
    }
    None
}

/// The head that a line is, where as many lines follow as it says.
///
/// The fault is `BadHead` where it is no head, and else `WrongCount`.
pub fn head_before(line: &[u8], further: usize) -> Result<Head, AnswerFault>
    ensures head { IfOk result (IsHeadBefore (words_of line.now) further) }
    ensures fault { IfErr result (IsHeadFault (words_of line.now) further) }
{
    match head_of(line) {
        None => Err(AnswerFault::BadHead),
        Some(head) if head.lines() != further => Err(AnswerFault::WrongCount),
        Some(head) => Ok(head),
    }
}
