// Power per cell of two control loops: tallies of readings.
ghost use Rattle.std.specs.Prelude.{◌≡◌};
ghost use Rattle.readings.specs.declared.Reading.TheVariants.{Power, Overloaded};
ghost use Rattle.tallies.specs.Tallies.{made, added, cleared, read_from, next_tally};
ghost use Rattle.laea_c.specs.Calls.{loop_cell, tally_result, SumsAnswered};

use c_answers::{answer, number_of};
use readings::Reading;
use slots::LoopCell;
use tallies::{NextTally, Tally};

// What a call on a tally gives: the next tally, and the refusal number; 0 is none.
#[repr(C)]
#[derive(Clone, Copy)]
pub struct TallyResult {
    pub tally: Tally,
    pub refusal: u8,
}

impl From<NextTally> for TallyResult {
    ghost from_gives = { λ next given. given ≡ tally_result (next_tally next) };

    fn from(next: NextTally) -> TallyResult {
        TallyResult {
            tally: next.tally,
            refusal: number_of(next.answer),
        }
    }
}

fn loop_cell(loop_number: u64, east: i64, north: i64) -> LoopCell
    ensures { result ≡ loop_cell loop_number east north }
{
    LoopCell {
        loop_number,
        east,
        north,
    }
}

// An empty tally for cells of a side in cm.
#[unsafe(no_mangle)]
pub extern "C" fn laea2_tally_new(side: i64) -> TallyResult
    ensures { result ≡ tally_result (made side) }
{
    TallyResult::from(Tally::new(side))
}

// Adds a power in milliwatts to a cell of a loop.
#[unsafe(no_mangle)]
pub extern "C" fn laea2_tally_add_power(
    tally: Tally,
    loop_number: u64,
    east: i64,
    north: i64,
    milliwatts: f64,
) -> TallyResult
    ensures { result ≡ tally_result (added tally (loop_cell loop_number east north) (Power milliwatts)) }
{
    let cell = loop_cell(loop_number, east, north);
    TallyResult::from(tally.add(cell, Reading::Power(milliwatts)))
}

// Adds a reading of an overloaded receiver, with the last good power in milliwatts, to a cell of a loop.
#[unsafe(no_mangle)]
pub extern "C" fn laea2_tally_add_overload(
    tally: Tally,
    loop_number: u64,
    east: i64,
    north: i64,
    milliwatts: f64,
) -> TallyResult
    ensures { result ≡ tally_result (added tally (loop_cell loop_number east north) (Overloaded milliwatts)) }
{
    let cell = loop_cell(loop_number, east, north);
    TallyResult::from(tally.add(cell, Reading::Overloaded(milliwatts)))
}

// Frees the slot of a cell of a loop.
#[unsafe(no_mangle)]
pub extern "C" fn laea2_tally_clear(
    tally: Tally,
    loop_number: u64,
    east: i64,
    north: i64,
) -> TallyResult
    ensures { result ≡ tally_result (cleared tally (loop_cell loop_number east north)) }
{
    let cell = loop_cell(loop_number, east, north);
    TallyResult::from(tally.clear(cell))
}

// Reads a cell of a loop: its sum in nanowatts, its count and its overload count.
#[unsafe(no_mangle)]
pub extern "C" fn laea2_tally_read(
    tally: Tally,
    loop_number: u64,
    east: i64,
    north: i64,
    out: &mut [u64; 3],
) -> u8
    ensures { SumsAnswered (read_from tally (loop_cell loop_number east north)).answer out.old out.new result }
{
    let cell = loop_cell(loop_number, east, north);
    answer(tally.read(cell).answer, out)
}
