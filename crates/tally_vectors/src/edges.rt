// How many slots the two loops get: each is sure of 96, and beyond these they share 64.
use crate::rows::{NOTHING, add, cell_at, clear, make, read};
use cells::SIDE_1_KM;
use readings::Reading;
use tallies::Tally;
use units::refusals::Refusal;

// A reading for each of the first `count` cells of a row. Were one of them refused, a later row would be accepted that expects to be refused.
fn filled(mut tally: Tally, loop_number: u64, north: i64, count: i64) -> Tally {
    for east in 0..count {
        let cell = cell_at(loop_number, east, north);
        tally = tally.add(cell, Reading::Overloaded(1.0)).tally;
    }
    tally
}

// One cell more of the loop gets a slot.
fn further(rt: &impl Print, tally: Tally, loop_number: u64, east: i64) -> Tally {
    let cell = cell_at(loop_number, east, -1);
    add(rt, tally, cell, Reading::Power(1.0), Ok(()))
}

// Or gets none.
fn no_further(rt: &impl Print, tally: Tally, loop_number: u64, east: i64) -> Tally {
    let cell = cell_at(loop_number, east, -1);
    let right = Err(Refusal::NoNewSlot);
    add(rt, tally, cell, Reading::Power(1.0), right)
}

// One loop gets 160, and then the other its 96.
pub(crate) fn one_loop(rt: &impl Print) {
    let tally = filled(make(rt, SIDE_1_KM, Ok(())), 1, 0, 159);
    let tally = further(rt, tally, 1, 0);
    let tally = no_further(rt, tally, 1, 1);
    let tally = filled(tally, 2, 0, 95);
    let tally = further(rt, tally, 2, 0);
    let tally = no_further(rt, tally, 2, 1);
    let tally = no_further(rt, tally, 1, 1);
    let tally = clear(rt, tally, cell_at(2, 0, -1), Ok(()));
    let tally = no_further(rt, tally, 1, 1);
    let tally = further(rt, tally, 2, 1);
    let tally = clear(rt, tally, cell_at(1, 0, -1), Ok(()));
    let tally = further(rt, tally, 2, 2);
    let tally = no_further(rt, tally, 1, 1);
    read(rt, tally, cell_at(1, 0, -1), NOTHING);
}

// Both have 96, and then 64 more together.
pub(crate) fn both_loops(rt: &impl Print) {
    let tally = filled(make(rt, SIDE_1_KM, Ok(())), 1, 0, 96);
    let tally = filled(tally, 2, 0, 96);
    let tally = filled(tally, 1, 1, 40);
    let tally = filled(tally, 2, 1, 23);
    let tally = further(rt, tally, 1, 0);
    let tally = no_further(rt, tally, 1, 1);
    let tally = no_further(rt, tally, 2, 1);
    let tally = clear(rt, tally, cell_at(1, 0, -1), Ok(()));
    let tally = further(rt, tally, 2, 1);
    no_further(rt, tally, 2, 2);
}
