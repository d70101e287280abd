// Table T: the sine of each whole minute from 0 to 5400, in parts of U = 1,000,000,000. What its values are is said in
// specs/Table.antt, and what follows from that in proofs/Laws.antt.
#![tactic(auto)]

mod minutes;

ghost use Rattle.sine_table.specs.Table.{IsTable, IsTable-prop};

// T: one value for each whole minute from 0 to 90°.
#[derive(Clone, Copy)]
pub struct SineTable {
    pub sines: [u32; 5401],
    pub ghost is_table: { IsTable sines } by { IsTable-prop sines },
}

impl SineTable {
    // T, for a caller to make once and lend. A function that names the array copies its 5,401 values at each call, so this is the
    // only one that names it.
    pub fn new() -> SineTable {
        SineTable {
            sines: minutes::SINES,
        }
    }
}
