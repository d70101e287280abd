// Texts that are read.
ghost use Rattle.std.specs.Prelude.{◌≡◌, IsTrue, ◌↔◌, pos};
ghost use Rattle.cells.specs.Cells.{side_length};
ghost use Rattle.code_reading.specs.Reading.{Cell, Unread, code_answer, code_of};

use cells::Side;
use code_reading::{CodeCell, read_code};
use printing::{Shown, verdict};
use std::fmt;
use units::refusals::Refusal;

// A cell as a row shows it.
#[derive(Clone, Copy)]
struct Numbers(CodeCell);

impl fmt::Display for Numbers {
    fn fmt<W: fmt::Write>(&self, f: &mut fmt::Formatter<W>) -> fmt::Result {
        let CodeCell { side, east, north } = self.0;
        let side = side.length();
        write!(f, "{side} {east} {north}")
    }
}

type Answer = Result<CodeCell, Refusal>;

// The row up to its verdict.
fn show(rt: &impl Print, text: &str, found: Answer, right: Answer) {
    let shown = Shown(found.map(Numbers));
    let expected = Shown(right.map(Numbers));
    let _ = print!(rt; "read {text}: {shown}, expected {expected}");
}

fn row(rt: &impl Print, text: &str, right: Answer) -> bool
    ensures { IsTrue result ↔ (code_of text.now ≡ code_answer right) }
{
    let found = read_code(text.as_bytes());
    show(rt, text, found, right);
    verdict(rt, found == right)
}

fn code(rt: &impl Print, text: &str, side: Side, east: i64, north: i64) -> bool
    ensures { IsTrue result ↔ (code_of text.now ≡ Cell (pos (side_length side)) east north) }
{
    row(rt, text, Ok(CodeCell { side, east, north }))
}

pub(crate) fn codes(rt: &impl Print) {
    code(rt, "1kmN2999E3962", Side::Kilometre, 3_962, 2_999);
    code(rt, "100mN0E0", Side::Metres100, 0, 0);
    code(rt, "100mN500000E500000", Side::Metres100, 500_000, 500_000);
    code(rt, "1kmN50000E50000", Side::Kilometre, 50_000, 50_000);
    code(rt, "10kmN5000E5000", Side::Kilometres10, 5_000, 5_000);
}

fn not_a_code(rt: &impl Print, text: &str) -> bool
    ensures { IsTrue result ↔ (code_of text.now ≡ Unread 31) }
{
    row(rt, text, Err(Refusal::NotACode))
}

// Bytes that name no side, or that are no cell number; one past the largest is none.
pub(crate) fn not_numbers(rt: &impl Print) {
    not_a_code(rt, "10mN1E1");
    not_a_code(rt, "1KMN1E1");
    not_a_code(rt, "1kmN01E1");
    not_a_code(rt, "1kmN+1E1");
    not_a_code(rt, "1kmN50001E0");
    not_a_code(rt, "10kmN0E5001");
}

// Letters exchanged, a byte more, and less than a code.
pub(crate) fn not_codes(rt: &impl Print) {
    not_a_code(rt, "1kmE1N1");
    not_a_code(rt, "1kmN1E1 ");
    not_a_code(rt, "1kmN1E");
    not_a_code(rt, "1km");
    not_a_code(rt, "");
}
