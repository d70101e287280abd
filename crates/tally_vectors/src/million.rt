// A cell with as many readings as it takes, each as great as a power can be.
use crate::rows::{add, cell_at, clear, make, read, sums};
use cells::SIDE_10_KM;
use readings::Reading;
use slots::{LoopCell, READINGS_MOST};
use tallies::Tally;
use units::refusals::Refusal;

const GREATEST: f64 = 1_000.0;

// The cell with READINGS_MOST readings.
fn filled(mut tally: Tally, cell: LoopCell) -> Tally {
    for _ in 0..READINGS_MOST {
        tally = tally.add(cell, Reading::Power(GREATEST)).tally;
    }
    tally
}

pub(crate) fn history(rt: &impl Print) {
    let cell = cell_at(2, -5_000, 5_000);
    let tally = filled(make(rt, SIDE_10_KM, Ok(())), cell);
    let full = sums(1_000_000_000_000_000, 1_000_000, 0);
    let tally = read(rt, tally, cell, full);
    let refused = Err(Refusal::FullCell);
    let tally = add(rt, tally, cell, Reading::Power(0.0), refused);
    let tally = add(rt, tally, cell, Reading::Overloaded(0.0), refused);
    let tally = read(rt, tally, cell, full);
    let tally = clear(rt, tally, cell, Ok(()));
    let tally = add(rt, tally, cell, Reading::Overloaded(GREATEST), Ok(()));
    read(rt, tally, cell, sums(0, 0, 1));
}
