// A row is one call: what is asked, what is answered, and what is expected. Each gives the next tally.
ghost use Rattle.std.specs.Prelude.{◌≡◌};
ghost use Rattle.tallies.specs.Tallies.{made, added, cleared, read_from};

use printing::{Shown, verdict};
use readings::Reading;
use slots::LoopCell;
use std::fmt;
use tallies::{NextTally, Sums, Tally};
use units::refusals::Refusal;

pub(crate) fn cell_at(loop_number: u64, east: i64, north: i64) -> LoopCell {
    LoopCell {
        loop_number,
        east,
        north,
    }
}

pub(crate) fn sums(sum: u64, count: u64, overloads: u64) -> Sums {
    Sums {
        sum,
        count,
        overloads,
    }
}

// The sums of a cell without a slot.
pub(crate) const NOTHING: Sums = Sums {
    sum: 0,
    count: 0,
    overloads: 0,
};

// A cell as a row shows it.
#[derive(Clone, Copy)]
struct ShownCell(LoopCell);

impl fmt::Display for ShownCell {
    fn fmt<W: fmt::Write>(&self, f: &mut fmt::Formatter<W>) -> fmt::Result {
        let LoopCell {
            loop_number,
            east,
            north,
        } = self.0;
        write!(f, "{loop_number} {east} {north}")
    }
}

// A power by the double's bit pattern, where it is a finite number.
#[derive(Clone, Copy)]
struct Power(f64);

impl fmt::Display for Power {
    fn fmt<W: fmt::Write>(&self, f: &mut fmt::Formatter<W>) -> fmt::Result {
        let milliwatts = self.0;
        if !milliwatts.is_finite() {
            return f.write_str("not finite");
        }
        let bits = milliwatts.to_bits();
        write!(f, "{bits:016x}")
    }
}

#[derive(Clone, Copy)]
struct ShownReading(Reading);

impl fmt::Display for ShownReading {
    fn fmt<W: fmt::Write>(&self, f: &mut fmt::Formatter<W>) -> fmt::Result {
        match self.0 {
            Reading::Power(milliwatts) => write!(f, "power {}", Power(milliwatts)),
            Reading::Overloaded(milliwatts) => write!(f, "overloaded {}", Power(milliwatts)),
        }
    }
}

#[derive(Clone, Copy)]
struct ShownSums(Sums);

impl fmt::Display for ShownSums {
    fn fmt<W: fmt::Write>(&self, f: &mut fmt::Formatter<W>) -> fmt::Result {
        let Sums {
            sum,
            count,
            overloads,
        } = self.0;
        write!(f, "{sum} {count} {overloads}")
    }
}

// What making a tally, adding to it and clearing a cell answer.
pub(crate) type Answer = Result<(), Refusal>;

fn shown(answer: Answer) -> Shown<&'static str> {
    Shown(answer.map(|()| "done"))
}

// The row from the answer on.
fn end(rt: &impl Print, next: NextTally, right: Answer) -> Tally
    ensures { result ≡ next.tally }
{
    let found = shown(next.answer);
    let expected = shown(right);
    let _ = print!(rt; ": {found}, expected {expected}");
    verdict(rt, next.answer == right);
    next.tally
}

pub(crate) fn make(rt: &impl Print, side: i64, right: Answer) -> Tally
    ensures { result ≡ (made side).tally }
{
    let _ = print!(rt; "make {side}");
    end(rt, Tally::new(side), right)
}

pub(crate) fn add(
    rt: &impl Print,
    tally: Tally,
    cell: LoopCell,
    reading: Reading,
    right: Answer,
) -> Tally
    ensures { result ≡ (added tally cell reading).tally }
{
    let _ = print!(rt; "add {} {}", ShownCell(cell), ShownReading(reading));
    end(rt, tally.add(cell, reading), right)
}

pub(crate) fn clear(rt: &impl Print, tally: Tally, cell: LoopCell, right: Answer) -> Tally
    ensures { result ≡ (cleared tally cell).tally }
{
    let _ = print!(rt; "clear {}", ShownCell(cell));
    end(rt, tally.clear(cell), right)
}

// What is read is expected to be these sums.
pub(crate) fn read(rt: &impl Print, tally: Tally, cell: LoopCell, sums: Sums) -> Tally
    ensures { result ≡ (read_from tally cell).tally }
{
    let read = tally.read(cell);
    let found = Shown(read.answer.map(ShownSums));
    let _ = print!(rt;
        "read {}: {found}, expected {}",
        ShownCell(cell),
        ShownSums(sums)
    );
    verdict(rt, read.answer == Ok(sums));
    read.tally
}

// Nothing is expected: the row is held to the stored output alone.
pub(crate) fn look(rt: &impl Print, tally: Tally, cell: LoopCell) -> Tally
    ensures { result ≡ (read_from tally cell).tally }
{
    let read = tally.read(cell);
    let found = Shown(read.answer.map(ShownSums));
    let _ = println!(rt; "read {}: {found}", ShownCell(cell));
    read.tally
}
