// Cells of every side, on both sides of 0 and of the limit.
ghost use Rattle.std.specs.Prelude.{◌≡◌, IsTrue, ◌↔◌};
ghost use Rattle.cells.specs.Cells.{cell_answer, cell_of};

use crate::bad_input::{FALSE_EASTING, FALSE_NORTHING};
use cells::{CellNumbers, SIDE_1_KM, SIDE_10_KM, SIDE_100_M, cell};
use printing::{Shown, verdict};
use std::fmt;
use units::refusals::Refusal;
use units::{PLANE_LEAST, PLANE_MOST};

// A cell's numbers as a row shows them.
#[derive(Clone, Copy)]
struct Numbers(CellNumbers);

impl fmt::Display for Numbers {
    fn fmt<W: fmt::Write>(&self, f: &mut fmt::Formatter<W>) -> fmt::Result {
        let CellNumbers { east, north } = self.0;
        write!(f, "{east} {north}")
    }
}

type Answer = Result<CellNumbers, Refusal>;

fn in_cell(east: i64, north: i64) -> Answer
    ensures { result ≡ Ok record { east = east; north = north } }
{
    Ok(CellNumbers { east, north })
}

// The row up to its verdict.
fn show(rt: &impl Print, side: i64, easting: i64, northing: i64, found: Answer, right: Answer) {
    let shown = Shown(found.map(Numbers));
    let expected = Shown(right.map(Numbers));
    let _ = print!(rt; "cell {side} {easting} {northing}: {shown}, expected {expected}");
}

#[tactic(auto, using(crate::proofs::CellLaws::same_answer))]
fn row(rt: &impl Print, side: i64, easting: i64, northing: i64, right: Answer) -> bool
    ensures { IsTrue result ↔ (cell_of side easting northing ≡ cell_answer right) }
{
    let found = cell(side, easting, northing);
    show(rt, side, easting, northing, found, right);
    verdict(rt, found == right)
}

pub(crate) fn sides(rt: &impl Print) {
    let at_origin = |side, right| row(rt, side, FALSE_EASTING, FALSE_NORTHING, right);
    at_origin(SIDE_100_M, in_cell(43_210, 32_100));
    at_origin(SIDE_1_KM, in_cell(4_321, 3_210));
    at_origin(SIDE_10_KM, in_cell(432, 321));
    for side in [1_000, 0, -10_000, i64::MIN, i64::MAX] {
        at_origin(side, Err(Refusal::OutOfLimits));
    }
}

// One side to the south or west of 0, and 1 cm more.
fn near_zero(rt: &impl Print, side: i64, one_side: i64, one_more: i64) {
    row(rt, side, 1, 0, in_cell(0, 0));
    row(rt, side, -1, one_side, in_cell(-1, -1));
    row(rt, side, one_side, -1, in_cell(-1, -1));
    row(rt, side, 0, one_more, in_cell(0, -2));
    row(rt, side, one_more, 1, in_cell(-2, 0));
}

// −1 cm lies in cell −1.
pub(crate) fn around_zero(rt: &impl Print) {
    near_zero(rt, SIDE_100_M, -10_000, -10_001);
    near_zero(rt, SIDE_1_KM, -100_000, -100_001);
    near_zero(rt, SIDE_10_KM, -1_000_000, -1_000_001);
    row(rt, SIDE_100_M, -9_999, 9_999, in_cell(-1, 0));
    row(rt, SIDE_1_KM, -19_999_999, 19_999_999, in_cell(-200, 199));
}

// The limits, whose cells have these numbers, 1 cm past them, and the ends of an i64.
fn near_limits(rt: &impl Print, side: i64, top: i64, bottom: i64) {
    row(rt, side, PLANE_MOST, PLANE_LEAST, in_cell(top, bottom));
    row(rt, side, PLANE_LEAST, PLANE_MOST, in_cell(bottom, top));
    for coordinate in [5_000_000_001, -5_000_000_001, i64::MAX, i64::MIN] {
        row(rt, side, coordinate, 0, Err(Refusal::OutOfLimits));
        row(rt, side, 0, coordinate, Err(Refusal::OutOfLimits));
    }
}

pub(crate) fn limits(rt: &impl Print) {
    near_limits(rt, SIDE_100_M, 500_000, -500_000);
    near_limits(rt, SIDE_1_KM, 50_000, -50_000);
    near_limits(rt, SIDE_10_KM, 5_000, -5_000);
}
