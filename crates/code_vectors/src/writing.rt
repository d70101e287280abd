// Codes that are written.
ghost use Rattle.std.specs.Prelude.{IsTrue, ◌↔◌};
ghost use Rattle.grid_codes.specs.Codes.{written_answer};
ghost use Rattle.code_vectors.specs.InnerRows.{IsWritten};

use azimuthal_forward::forward;
use cells::{CellNumbers, SIDE_1_KM, SIDE_10_KM, SIDE_100_M, cell};
use grid_codes::write_code;
use latitudes::Geodetic;
use parameters::Parameters;
use printing::{Shown, verdict};
use units::refusals::Refusal;

// What stands in the lent bytes before a call.
const LENT: &str = "....................";

type Answer = Result<u64, Refusal>;

// An answer, and what is left in the bytes.
fn show(rt: &impl Print, answer: Answer, bytes: &[u8]) {
    let _ = print!(rt; " {} {}", Shown(answer), bytes.escape_ascii());
}

// Writes into the bytes that are lent.
fn row(
    rt: &impl Print,
    side: i64,
    east: i64,
    north: i64,
    bytes: &mut [u8],
    right: Answer,
    expected: &str,
) -> bool
    ensures { IsTrue result ↔ IsWritten side east north bytes.old (written_answer right) expected.now }
{
    let found = write_code(side, east, north, bytes);
    let _ = print!(rt; "write {side} {east} {north}:");
    show(rt, found, bytes);
    let _ = print!(rt; ", expected");
    show(rt, right, expected.as_bytes());
    verdict(rt, found == right && *bytes == *expected.as_bytes())
}

// Writes into twenty bytes.
fn written(rt: &impl Print, side: i64, east: i64, north: i64, length: u64, expected: &str) {
    let mut bytes = [b'.'; 20];
    row(rt, side, east, north, &mut bytes, Ok(length), expected);
}

fn refused_row(rt: &impl Print, side: i64, east: i64, north: i64, refusal: Refusal) {
    let mut bytes = [b'.'; 20];
    row(rt, side, east, north, &mut bytes, Err(refusal), LENT);
}

// The position of document 001's example, through forward and cell; were it refused, its code would be another.
pub(crate) fn document_001(rt: &impl Print) {
    let at = forward(Parameters::ETRS_LAEA, Geodetic(180_000_000), 18_000_000);
    let CellNumbers { east, north } = at
        .and_then(|at| cell(SIDE_1_KM, at.easting, at.northing))
        .unwrap_or(CellNumbers { east: 0, north: 0 });
    written(rt, SIDE_1_KM, east, north, 13, "1kmN2999E3962.......");
}

// The shortest and the longest code of each side.
pub(crate) fn ends(rt: &impl Print) {
    written(rt, SIDE_100_M, 0, 0, 8, "100mN0E0............");
    written(rt, SIDE_100_M, 500_000, 500_000, 18, "100mN500000E500000..");
    written(rt, SIDE_1_KM, 0, 0, 7, "1kmN0E0.............");
    written(rt, SIDE_1_KM, 50_000, 50_000, 15, "1kmN50000E50000.....");
    written(rt, SIDE_10_KM, 0, 0, 8, "10kmN0E0............");
    written(rt, SIDE_10_KM, 5_000, 5_000, 14, "10kmN5000E5000......");
}

pub(crate) fn refused(rt: &impl Print) {
    refused_row(rt, 1_000, 0, 0, Refusal::OutOfLimits);
    refused_row(rt, SIDE_100_M, 500_001, -1, Refusal::OutOfLimits);
    refused_row(rt, SIDE_1_KM, -1, -50_001, Refusal::OutOfLimits);
    refused_row(rt, SIDE_10_KM, -5_000, 0, Refusal::NegativeCell);
    refused_row(rt, SIDE_10_KM, 5_000, -1, Refusal::NegativeCell);
}

// As many bytes as the code has, and one less.
pub(crate) fn rooms(rt: &impl Print) {
    let mut eight = [b'.'; 8];
    row(rt, SIDE_100_M, 0, 0, &mut eight, Ok(8), "100mN0E0");
    let mut seven = [b'.'; 7];
    let right = Err(Refusal::LittleRoom);
    row(rt, SIDE_100_M, 0, 0, &mut seven, right, ".......");
}
