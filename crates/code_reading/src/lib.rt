// Reads the code of a cell in the INSPIRE geographical grid systems: document 02, c). Sides are in cm.
#![tactic(auto)]

ghost use Rattle.std.specs.Prelude.{◌≡◌, pos};
ghost use Rattle.cells.specs.Cells.{top, side_length};
ghost use Rattle.text.specs.Numbers.{numeral};
ghost use Rattle.code_reading.specs.Reading.{
  side_named,
  side_numeral,
  cell_numeral,
  numbers_of,
  code_of,
  code_found,
  code_answer,
  read_told,
  told_of_text,
};

use cells::Side;
use grid_codes::CODE_MOST;
use memchr::memchr;
use text::{has_leading_zero, read_unsigned};
use units::refusals::Refusal;

// A cell: its side, and its numbers along the two axes.
#[derive(Clone, Copy, Debug, PartialEq, Eq)]
pub struct CodeCell {
    pub side: Side,
    pub east: i64,
    pub north: i64,
}

// The side that a text names.
#[tactic(auto, using(text::proofs::Sameness::same_compared), unfolding(crate::specs::Reading::side_named, grid_codes::specs::Codes::side_text, units::specs::Spans::same, units::specs::Spans::within))]
fn side_named(text: &[u8]) -> Option<Side>
    ensures { side_numeral result ≡ side_named text.now }
{
    if text == b"100m".as_slice() {
        Some(Side::Metres100)
    } else if text == b"1km".as_slice() {
        Some(Side::Kilometre)
    } else if text == b"10km".as_slice() {
        Some(Side::Kilometres10)
    } else {
        None
    }
}

// The number of a cell along an axis, from its digits, where the side of the cell has this top number.
#[tactic(auto, unfolding(crate::specs::Reading::cell_numeral))]
fn read_cell_number(side: Side, most: i64, digits: &[u8]) -> Option<i64>
    requires { most ≡ pos (top (side_length side)) }
    ensures { numeral result ≡ cell_numeral (pos (side_length side)) digits.now }
{
    if has_leading_zero(digits) {
        return None;
    }
    let number = read_unsigned(false, digits)?;
    if number <= most { Some(number) } else { None }
}

// The cell of a side and of the text after its N. One division gives the top number for both of the cell's numbers.
#[tactic(auto, using(text::proofs::Searching::cut_found, text::proofs::Searching::index_missing, crate::proofs::ReadingLaws::north_none, crate::proofs::ReadingLaws::numbers_uncut), unfolding(crate::specs::Reading::numbers_of))]
fn read_numbers(side: Side, text: &[u8]) -> Option<CodeCell>
    ensures { code_found result ≡ numbers_of (pos (side_length side)) text.now }
{
    let at = memchr(b'E', text)?;
    let most = side.top_number();
    Some(CodeCell {
        side,
        north: read_cell_number(side, most, &text[..at])?,
        east: read_cell_number(side, most, &text[at + 1..])?,
    })
}

// The cell whose code a text is. No more bytes are looked at than a code may have.
#[tactic(auto, using(text::proofs::Searching::cut_found, text::proofs::Searching::index_missing, crate::proofs::AnswerLaws::long_answered, crate::proofs::ReadingLaws::unnamed, crate::proofs::ReadingLaws::code_uncut), unfolding(crate::specs::Reading::code_of))]
fn find_cell(text: &[u8]) -> Option<CodeCell>
    ensures { code_found result ≡ code_of text.now }
{
    if CODE_MOST < text.len() {
        return None;
    }
    let at = memchr(b'N', text)?;
    read_numbers(side_named(&text[..at])?, &text[at + 1..])
}

// Any bytes: the customer's call that reads a cell's code.
#[tactic(auto, unfolding(crate::specs::Reading::told_of_text))]
pub fn read_code(text: &[u8]) -> Result<CodeCell, Refusal>
    ensures { let answer = code_answer result in (answer ≡ code_of text.now) × (read_told answer ≡ told_of_text text.now) }
{
    find_cell(text).ok_or(Refusal::NotACode)
}
