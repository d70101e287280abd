// Reads lines from standard input and answers each on standard output, for ETRS-LAEA in whole units.
#![tactic(auto)]

ghost use Rattle.std.specs.Prelude.{◌≡◌};
ghost use Rattle.parameters.specs.ParameterSet.{etrs_laea};

use arrayvec::ArrayString;
use constants::projection::Projection;
use lines::{ANSWER_MOST, etrs_laea};
use sine_table::SineTable;
use splitter::{Carried, answer_last, answer_piece, nothing_carried};
use std::fmt::Write;
use std::io;
use std::io::{ErrorKind, Read};
use std::ops::ControlFlow;

// The bytes that are read at once.
const PIECE_MOST: usize = 2_048;

// Room for the answers to the lines that so many bytes may end.
const ANSWERS_MOST: usize = ANSWER_MOST * PIECE_MOST;

// Room for what std says of an error.
const WHY_MOST: usize = 128;

// The system's words for an error, of the text that std makes of it: there its number follows them.
fn words(text: &str) -> &str {
    match text.split_once(" (os error ") {
        Some((words, _)) => words,
        None => text,
    }
}

// Says on standard error what failed, and after a colon why.
fn fail(rt: &impl Eprint, what: &str, error: io::Error) {
    let mut text = ArrayString::<WHY_MOST>::new();
    let _ = write!(text, "{error}");
    let _ = eprintln!(rt; "{what}: {}", words(text.as_str()));
}

// No bytes came. At the input's end what is carried is the last line; an interrupted read is tried
// again; a read that failed is said and ends the program, and the part of a line that was carried is
// dropped, since answered as a line it could be a position that nobody sent.
fn without_bytes(
    rt: &impl Eprint,
    carried: &mut Carried,
    failed: Option<io::Error>,
) -> ControlFlow<()> {
    match failed {
        None => ControlFlow::Break(()),
        Some(error) if error.kind() == ErrorKind::Interrupted => ControlFlow::Continue(()),
        Some(error) => {
            fail(rt, "laea: standard input", error);
            carried.clear();
            ControlFlow::Break(())
        }
    }
}

// Reads once, so that a line typed at a terminal is answered at once, and answers the lines that
// have come to their end. Where the answers cannot be written it says so and stops, with nothing
// carried.
fn answer_some(
    rt: &(impl Print + Eprint),
    input: &mut impl Read,
    projection: &Projection,
    carried: &mut Carried,
    out: &mut [u8; ANSWERS_MOST],
) -> ControlFlow<()>
    requires { projection.now.set ≡ etrs_laea }
{
    let mut piece = [0u8; PIECE_MOST];
    let n = match input.read(&mut piece) {
        Ok(0) => return without_bytes(rt, carried, None),
        Ok(n) => n,
        Err(error) => return without_bytes(rt, carried, Some(error)),
    };
    let written = answer_piece(projection, carried, &piece[..n], out);
    match rt.write_all(&out[..written]) {
        Ok(()) => ControlFlow::Continue(()),
        Err(error) => {
            fail(rt, "laea: standard output", error);
            carried.clear();
            ControlFlow::Break(())
        }
    }
}

// Answers the input's lines, and leaves what is left of it. A proved loop has to end, and nothing says
// that the input does, so there are as many turns as no run uses up; `rt.forever()` would need leave to
// wait for ever.
fn answer_all(
    rt: &(impl Print + Eprint),
    input: &mut impl Read,
    projection: &Projection,
    carried: &mut Carried,
    out: &mut [u8; ANSWERS_MOST],
)
    requires { projection.now.set ≡ etrs_laea }
{
    for _ in 0..u64::MAX {
        if answer_some(rt, input, projection, carried, out).is_break() {
            break;
        }
    }
}

// Answers a last line that lacks its newline.
fn answer_rest(rt: &(impl Print + Eprint), projection: &Projection, carried: &Carried)
    requires { projection.now.set ≡ etrs_laea }
{
    let mut out = [0u8; ANSWER_MOST];
    let n = answer_last(projection, carried, &mut out);
    match rt.write_all(&out[..n]) {
        Ok(()) => {}
        Err(error) => fail(rt, "laea: standard output", error),
    }
}

fn main(rt: HostRuntime) {
    let table = SineTable::new();
    let projection = etrs_laea(&table);
    let mut input = rt.stdin();
    let mut out = [0u8; ANSWERS_MOST];
    let mut carried = nothing_carried();
    answer_all(&rt, &mut input, &projection, &mut carried, &mut out);
    answer_rest(&rt, &projection, &carried);
}
