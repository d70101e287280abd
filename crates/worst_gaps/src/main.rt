// Runs some thousands of round trips over sets of every aspect and prints the worst gaps; the gate holds it to `stdout`.
#![tactic(auto)]

mod gaps;
mod positions;
mod sets;
mod tally;
mod trips;

use sine_table::SineTable;

fn main(rt: HostRuntime) {
    let t = SineTable::new();
    sets::oblique(&rt, &t);
    sets::equatorial(&rt, &t);
    sets::north_polar(&rt, &t);
    sets::south_polar(&rt, &t);
}
