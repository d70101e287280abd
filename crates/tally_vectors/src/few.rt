// Histories of a few calls.
use crate::rows::{Answer, NOTHING, add, cell_at, clear, look, make, read, sums};
use cells::{SIDE_1_KM, SIDE_10_KM, SIDE_100_M};
use readings::Reading;
use tallies::Tally;
use units::refusals::Refusal;

// A refused making gives an empty tally of the side asked, on which every call is refused.
pub(crate) fn sides(rt: &impl Print) {
    make(rt, SIDE_100_M, Ok(()));
    make(rt, SIDE_1_KM, Ok(()));
    make(rt, SIDE_10_KM, Ok(()));
    let refused = Err(Refusal::OutOfLimits);
    let tally = make(rt, 1_000, refused);
    let cell = cell_at(1, 0, 0);
    let tally = add(rt, tally, cell, Reading::Power(1.0), refused);
    let tally = clear(rt, tally, cell, refused);
    look(rt, tally, cell);
}

// A power is added to the cell and read, and the cell is cleared.
fn power(rt: &impl Print, tally: Tally, milliwatts: f64, nanowatts: u64) -> Tally {
    let cell = cell_at(1, 3_962, 2_999);
    let tally = add(rt, tally, cell, Reading::Power(milliwatts), Ok(()));
    let tally = read(rt, tally, cell, sums(nanowatts, 1, 0));
    clear(rt, tally, cell, Ok(()))
}

fn refused(rt: &impl Print, tally: Tally, milliwatts: f64, right: Answer) -> Tally {
    let cell = cell_at(1, 3_962, 2_999);
    let tally = add(rt, tally, cell, Reading::Power(milliwatts), right);
    add(rt, tally, cell, Reading::Overloaded(milliwatts), right)
}

// 1/128 mW is 7,812.5 nW. The double 5·10^−7 lies below half a nanowatt, and the next one above it.
pub(crate) fn powers(rt: &impl Print) {
    let tally = make(rt, SIDE_1_KM, Ok(()));
    let tally = power(rt, tally, 0.0, 0);
    let tally = power(rt, tally, -0.0, 0);
    let tally = power(rt, tally, 0.25, 250_000);
    let tally = power(rt, tally, 0.0078125, 7_813);
    let tally = power(rt, tally, 0.0000005, 0);
    let tally = power(rt, tally, 0.0000005000000000000001, 1);
    let tally = power(rt, tally, 1_000.0, 1_000_000_000);
    let out_of_limits = Err(Refusal::PowerOutOfLimits);
    let tally = refused(rt, tally, 1_000.0000000000001, out_of_limits);
    let tally = refused(rt, tally, -0.000000000000000000000001, out_of_limits);
    let not_finite = Err(Refusal::PowerNotFinite);
    let tally = refused(rt, tally, f64::INFINITY, not_finite);
    let tally = refused(rt, tally, f64::NEG_INFINITY, not_finite);
    refused(rt, tally, f64::NAN, not_finite);
}

// Two cells and the slot that the first leaves: a reading of the second stays with the others of its cell.
pub(crate) fn slots(rt: &impl Print) {
    let tally = make(rt, SIDE_1_KM, Ok(()));
    let west = cell_at(1, -1, 2_999);
    let east = cell_at(1, 0, 2_999);
    let tally = read(rt, tally, west, NOTHING);
    let tally = clear(rt, tally, west, Ok(()));
    let tally = add(rt, tally, west, Reading::Power(2.0), Ok(()));
    let tally = add(rt, tally, east, Reading::Power(3.0), Ok(()));
    let tally = add(rt, tally, east, Reading::Overloaded(999.0), Ok(()));
    let tally = clear(rt, tally, west, Ok(()));
    let tally = add(rt, tally, east, Reading::Power(4.0), Ok(()));
    let tally = read(rt, tally, west, NOTHING);
    let tally = read(rt, tally, east, sums(7_000_000, 2, 1));
    let tally = clear(rt, tally, east, Ok(()));
    read(rt, tally, east, NOTHING);
}

// Numbers past the last cells of 10 km.
pub(crate) fn out_of_limits(rt: &impl Print) {
    let tally = make(rt, SIDE_10_KM, Ok(()));
    let last = cell_at(1, 5_000, -5_000);
    let tally = add(rt, tally, last, Reading::Overloaded(1.0), Ok(()));
    let tally = read(rt, tally, last, sums(0, 0, 1));
    let refused = Err(Refusal::OutOfLimits);
    let east = cell_at(1, 5_001, 0);
    let tally = add(rt, tally, east, Reading::Power(1.0), refused);
    let tally = clear(rt, tally, cell_at(1, 0, -5_001), refused);
    look(rt, tally, cell_at(1, 0, 5_001));
}

// The calls of a loop that there is not, on a tally of this side and with a power that is not finite.
fn bad_loop(rt: &impl Print, side: i64, right: Answer, loop_number: u64) {
    let tally = make(rt, side, right);
    let cell = cell_at(loop_number, 5_001, 0);
    let refused = Err(Refusal::BadLoop);
    let tally = add(rt, tally, cell, Reading::Power(f64::INFINITY), refused);
    let tally = clear(rt, tally, cell, refused);
    look(rt, tally, cell);
}

// One cell of both loops, each with its own sums, and the loops that there are not.
pub(crate) fn loops(rt: &impl Print) {
    let tally = make(rt, SIDE_10_KM, Ok(()));
    let first = cell_at(1, 396, 299);
    let second = cell_at(2, 396, 299);
    let tally = add(rt, tally, first, Reading::Power(2.0), Ok(()));
    let tally = read(rt, tally, second, NOTHING);
    let tally = add(rt, tally, second, Reading::Power(5.0), Ok(()));
    let tally = add(rt, tally, second, Reading::Overloaded(5.0), Ok(()));
    let tally = read(rt, tally, first, sums(2_000_000, 1, 0));
    let tally = clear(rt, tally, second, Ok(()));
    let tally = read(rt, tally, first, sums(2_000_000, 1, 0));
    read(rt, tally, second, NOTHING);
    bad_loop(rt, SIDE_10_KM, Ok(()), 0);
    bad_loop(rt, 1_000, Err(Refusal::OutOfLimits), 3);
    bad_loop(rt, SIDE_10_KM, Ok(()), 257);
}
