// Cuts input that comes in pieces of any size into lines, and answers them. A line that a piece does
// not end is carried to the next.
#![tactic(auto)]

mod part;

ghost use Rattle.std.specs.Prelude.{◌≡◌, [], ◌++◌, ◌+◌, ◌*◌, ◌≤◌, length};
ghost use Rattle.text.specs.Pasting.{Put};
ghost use Rattle.parameters.specs.ParameterSet.{etrs_laea};
ghost use Rattle.lines.specs.Lines.{answer_line, answer_most};
ghost use Rattle.splitter.specs.Splitting.{ended_lines, part_left, last_line, answers_of, carried_of, part_of};

use constants::projection::Projection;
use lines::{ANSWER_MOST, answer_at};
pub use part::Carried;
use requests::KEPT_MOST;
use text::{put_bytes, split_once};

// The part of a line that a piece does not end, and where the answers before it end.
#[derive(Clone, Copy)]
struct Answered<'a> {
    rest: &'a [u8],
    written: usize,
}

pub fn nothing_carried() -> Carried
    ensures { result ≡ carried_of [] }
{
    Carried {
        bytes: [0; KEPT_MOST],
        len: 0,
    }
}

// Adds bytes to what is carried, as many as are kept.
fn carry(carried: &mut Carried, part: &[u8])
    ensures { carried.new ≡ carried_of (part_of carried.old ++ part.now) }
{
    let n = part.len().min(KEPT_MOST - carried.len);
    carried.len = put_bytes(&mut carried.bytes, carried.len, &part[..n]);
}

// Answers the line that `part` ends, after which nothing is carried. Where nothing was, the line stands
// in the piece whole.
fn answer_first(
    projection: &Projection,
    carried: &mut Carried,
    part: &[u8],
    out: &mut [u8],
) -> usize
    requires set { projection.now.set ≡ etrs_laea }
    requires room { answer_most ≤ length out.old }
    ensures put { Put out.old 0 (answer_line (part_of carried.old ++ part.now)) out.new result }
    ensures nothing { carried.new ≡ carried_of [] }
{
    if carried.len == 0 {
        return answer_at(projection, part, out, 0);
    }
    carry(carried, part);
    let written = answer_at(projection, carried.as_slice(), out, 0);
    carried.clear();
    written
}

// Answers the lines that `piece` ends, where a line starts and `at` bytes are written.
fn answer_lines<'a>(
    projection: &Projection,
    piece: &'a [u8],
    out: &mut [u8],
    at: usize,
) -> Answered<'a>
    requires set { projection.now.set ≡ etrs_laea }
    requires room { at + answer_most * length piece.now ≤ length out.old }
    ensures put { Put out.old at (answers_of (ended_lines [] piece.now)) out.new result.written }
    ensures rest { result.rest.now ≡ part_left [] piece.now }
{
    let mut rest = piece;
    let mut written = at;
    while let Some((line, after)) = split_once(rest, b'\n') {
        written = answer_at(projection, line, out, written);
        rest = after;
    }
    Answered { rest, written }
}

// Answers every line that a piece ends, carries the rest, and tells how many bytes of answers there are.
pub fn answer_piece(
    projection: &Projection,
    carried: &mut Carried,
    piece: &[u8],
    out: &mut [u8],
) -> usize
    requires set { projection.now.set ≡ etrs_laea }
    requires room { answer_most * length piece.now ≤ length out.old }
    ensures put { Put out.old 0 (answers_of (ended_lines (part_of carried.old) piece.now)) out.new result }
    ensures carried_value { carried.new ≡ carried_of (part_left (part_of carried.old) piece.now) }
{
    let Some((end, rest)) = split_once(piece, b'\n') else {
        carry(carried, piece);
        return 0;
    };
    let written = answer_first(projection, carried, end, out);
    let answered = answer_lines(projection, rest, out, written);
    carry(carried, answered.rest);
    answered.written
}

// The answer to a last line that lacks its newline: nothing where nothing is carried.
#[tactic(auto, using(crate::proofs::Answering::last_none))]
pub fn answer_last(projection: &Projection, carried: &Carried, out: &mut [u8; ANSWER_MOST]) -> usize
    requires { projection.now.set ≡ etrs_laea }
    ensures { Put out.old 0 (answers_of (last_line (part_of carried.now))) out.new result }
{
    match carried.as_slice() {
        [] => 0,
        line => answer_at(projection, line, out, 0),
    }
}
