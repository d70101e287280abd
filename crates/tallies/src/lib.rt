// A running tally of power per cell of two control loops: document 02, e) and f). A tally goes in by value, and the next one comes back.
#![tactic(auto)]

ghost use Rattle.std.specs.Prelude.{◌≡◌, position};
ghost use Rattle.slots.specs.Slots.{index_in, holds, slot_of};
ghost use Rattle.shares.specs.Shares.{place_of};
ghost use Rattle.units.specs.Refusals.{refusal_number};
ghost use Rattle.tallies.specs.Tallies.{
  side_refusal,
  is_loop,
  named_refusal,
  made,
  added,
  cleared,
  read_from,
  sums_in,
  sums_answer,
  tally_answer,
  next_tally,
  read_tally,
};

use cells::{Side, check_numbers};
use readings::Reading;
use shares::new_slot;
use slots::{LoopCell, SLOT_COUNT, Slot, empty_slot, is_full, slot_of, with_reading};
use units::refusals::Refusal;

// Every bit pattern is a value of every field.
#[repr(C)]
#[derive(Clone, Copy)]
pub struct Tally {
    // the cells' side in cm
    pub side: i64,
    pub slots: [Slot; SLOT_COUNT],
}

// What a cell holds: the sum in nanowatts, and how many readings of each kind it has.
#[derive(Clone, Copy, Debug, PartialEq, Eq)]
pub struct Sums {
    pub sum: u64,
    pub count: u64,
    pub overloads: u64,
}

// An answer, and the tally after the call.
#[derive(Clone, Copy)]
pub struct NextTally {
    pub tally: Tally,
    pub answer: Result<(), Refusal>,
}

// What reading a cell gives: its answer, and the tally as it was.
#[derive(Clone, Copy)]
pub struct ReadTally {
    pub tally: Tally,
    pub answer: Result<Sums, Refusal>,
}

// Whether there is a loop of this number.
#[tactic(auto, unfolding(crate::specs::Tallies::is_loop))]
fn is_loop(loop_number: u64) -> bool
    ensures { result ≡ is_loop loop_number }
{
    loop_number == 1 || loop_number == 2
}

// Refuses a side that cells do not have.
#[tactic(auto, using(crate::proofs::Outcomes::handed_on), unfolding(crate::specs::Tallies::side_refusal))]
fn check_side(side: i64) -> Result<(), Refusal>
    ensures { refusal_number result ≡ side_refusal side }
{
    Side::try_from(side)?;
    Ok(())
}

// Refuses a loop number, a side or a cell that no position has.
#[tactic(auto, using(crate::proofs::Outcomes::handed_on), unfolding(crate::specs::Tallies::named_refusal))]
fn check_name(side: i64, cell: LoopCell) -> Result<(), Refusal>
    ensures { refusal_number result ≡ named_refusal side cell }
{
    Refusal::BadLoop.unless(is_loop(cell.loop_number))?;
    check_numbers(side, cell.east, cell.north)
}

// What is at the index of a cell's slot; an empty slot where it has none.
#[tactic(auto, using(crate::proofs::Outcomes::own_index, crate::proofs::Outcomes::slot_held, crate::proofs::Outcomes::none_held))]
fn held_at(slots: &[Slot; SLOT_COUNT], cell: LoopCell, own: Option<usize>) -> Slot
    requires { own ≡ position (holds cell) slots.now }
    ensures { result ≡ slot_of cell slots.now }
{
    match own {
        Some(at) => slots[at],
        None => empty_slot(),
    }
}

// The index of the slot that an add to the cell uses.
fn place_for(slots: &[Slot; SLOT_COUNT], cell: LoopCell, own: Option<usize>) -> Option<usize>
    requires { own ≡ position (holds cell) slots.now }
    ensures { result ≡ index_in slots.now (place_of cell slots.now) }
{
    own.or_else(|| new_slot(slots, cell.loop_number))
}

// What a slot holds.
fn sums_in(slot: Slot) -> Sums
    ensures { sums_answer (Ok result) ≡ sums_in slot }
{
    Sums {
        sum: slot.sum,
        count: slot.count,
        overloads: slot.overloads,
    }
}

impl Tally {
    // An empty tally for cells of a side.
    pub fn new(side: i64) -> NextTally
        ensures { next_tally result ≡ made side }
    {
        let answer = check_side(side);
        let tally = Tally {
            side,
            slots: [empty_slot(); SLOT_COUNT],
        };
        NextTally { tally, answer }
    }

    // Adds a reading to a cell of a loop.
    pub fn add(mut self, cell: LoopCell, reading: Reading) -> NextTally
        ensures { next_tally result ≡ added self cell reading }
    {
        let answer = self.try_add(cell, reading);
        NextTally {
            tally: self,
            answer,
        }
    }

    // Adds a reading, or changes nothing.
    fn try_add(&mut self, cell: LoopCell, reading: Reading) -> Result<(), Refusal>
        ensures { record { tally = self.new; answer = tally_answer result } ≡ added self.old cell reading }
    {
        check_name(self.side, cell)?;
        reading.check()?;
        let own = slot_of(&self.slots, cell);
        let slot = held_at(&self.slots, cell, own);
        Refusal::FullCell.unless(!is_full(&slot))?;
        let place = place_for(&self.slots, cell, own).ok_or(Refusal::NoNewSlot)?;
        self.slots[place] = with_reading(reading, cell, slot);
        Ok(())
    }

    // Frees a cell's slot, with all that it holds.
    pub fn clear(mut self, cell: LoopCell) -> NextTally
        ensures { next_tally result ≡ cleared self cell }
    {
        let answer = self.try_clear(cell);
        NextTally {
            tally: self,
            answer,
        }
    }

    // Frees a cell's slot, or changes nothing.
    fn try_clear(&mut self, cell: LoopCell) -> Result<(), Refusal>
        ensures { record { tally = self.new; answer = tally_answer result } ≡ cleared self.old cell }
    {
        check_name(self.side, cell)?;
        if let Some(own) = slot_of(&self.slots, cell) {
            self.slots[own] = empty_slot();
        }
        Ok(())
    }

    // Reads a cell's sum and counts.
    pub fn read(self, cell: LoopCell) -> ReadTally
        ensures { read_tally result ≡ read_from self cell }
    {
        let answer = self.sums_of(cell);
        ReadTally {
            tally: self,
            answer,
        }
    }

    // What a cell holds.
    fn sums_of(&self, cell: LoopCell) -> Result<Sums, Refusal>
        ensures { sums_answer result ≡ (read_from self.now cell).answer }
    {
        check_name(self.side, cell)?;
        let own = slot_of(&self.slots, cell);
        Ok(sums_in(held_at(&self.slots, cell, own)))
    }
}
