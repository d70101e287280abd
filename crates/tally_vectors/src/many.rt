// A long history of both loops on more cells than there are slots: most of the time all 256 are in use, and slots that are freed are used again.
use crate::rows::{NOTHING, add, cell_at, clear, look, make, read, sums};
use cells::SIDE_100_M;
use readings::Reading;
use slots::LoopCell;
use tallies::{NextTally, Tally};
use units::refusals::Refusal;

const CALLS: u64 = 20_000;

// Cells in rows of twenty, of one loop and of the other in turn. Their number is a prime: the calls meet all of them, each with every kind of call.
const ROW: u64 = 20;

const CELLS: u64 = 397;

const STRIDE: u64 = 137;

fn cell_of(k: u64) -> LoopCell {
    let n = k % CELLS;
    let m = n / 2;
    cell_at(1 + n % 2, (m % ROW) as i64, (m / ROW) as i64)
}

// The powers of call k and of its neighbours differ: 0 to 63 quarters of a milliwatt.
fn power_of(k: u64) -> f64 {
    std::num::nearest_u64_to_f64(k % 64) / 4.0
}

// Of eight calls one clears a cell, two are overloads and five are powers.
fn call(tally: Tally, k: u64) -> NextTally {
    let cell = cell_of(k % CALLS * STRIDE);
    match k % 8 {
        0 | 1 => tally.add(cell, Reading::Overloaded(power_of(k))),
        7 => tally.clear(cell),
        _ => tally.add(cell, Reading::Power(power_of(k))),
    }
}

fn after_calls(mut tally: Tally) -> Tally {
    for k in 0..CALLS {
        tally = call(tally, k).tally;
    }
    tally
}

// 255 cells have a slot: the next gets the last one, and one of the other loop after it gets one that is freed for it.
fn last_calls(rt: &impl Print, tally: Tally) {
    let held = cell_at(1, 19, 6);
    let next = cell_at(1, 0, 0);
    let late = cell_at(2, 1, 0);
    let no_slot = Err(Refusal::NoNewSlot);
    let tally = add(rt, tally, next, Reading::Power(1.0), Ok(()));
    let tally = add(rt, tally, late, Reading::Power(1.0), no_slot);
    let tally = add(rt, tally, late, Reading::Overloaded(1.0), no_slot);
    let tally = add(rt, tally, held, Reading::Power(1.0), Ok(()));
    let tally = read(rt, tally, held, sums(40_000_000, 6, 2));
    let tally = clear(rt, tally, held, Ok(()));
    let tally = add(rt, tally, late, Reading::Power(2.0), Ok(()));
    let tally = add(rt, tally, held, Reading::Power(1.0), no_slot);
    let tally = read(rt, tally, held, NOTHING);
    read(rt, tally, late, sums(2_000_000, 1, 0));
}

pub(crate) fn history(rt: &impl Print) {
    let mut tally = after_calls(make(rt, SIDE_100_M, Ok(())));
    for k in 0..CELLS {
        tally = look(rt, tally, cell_of(k));
    }
    last_calls(rt, tally);
}
