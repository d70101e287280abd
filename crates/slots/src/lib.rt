// The slots of a tally: which cell of a loop has one, which is free, and a slot with one reading more.
#![tactic(auto)]

ghost use Rattle.std.specs.Prelude.{◌≡◌, false, position};
ghost use Rattle.readings.specs.Readings.{reading_refusal};
ghost use Rattle.slots.specs.Slots.{empty_slot, free, holds, full, with_reading};

use readings::{Reading, nanowatts};

// How many slots a tally has.
pub const SLOT_COUNT: usize = 256;

// The most readings of both kinds together that a cell takes.
pub const READINGS_MOST: u64 = 1_000_000;

// A cell of a control loop: the loop's number, and the cell's numbers along the two axes. Cells of two loops are two cells.
#[repr(C)]
#[derive(Clone, Copy, Debug, PartialEq, Eq)]
pub struct LoopCell {
    pub loop_number: u64,
    pub east: i64,
    pub north: i64,
}

// Every bit pattern is a value of every field.
#[repr(C)]
#[derive(Clone, Copy)]
pub struct Slot {
    // the cell that has the slot; its loop number is 0 where the slot is free
    pub cell: LoopCell,
    // in nanowatts
    pub sum: u64,
    pub count: u64,
    pub overloads: u64,
}

// A slot that no cell has.
pub fn empty_slot() -> Slot
    ensures { result ≡ empty_slot }
{
    Slot {
        cell: LoopCell {
            loop_number: 0,
            east: 0,
            north: 0,
        },
        sum: 0,
        count: 0,
        overloads: 0,
    }
}

// Whether no cell has the slot.
#[tactic(auto, unfolding(crate::specs::Slots::free))]
fn is_free(slot: &Slot) -> bool
    ensures { result ≡ free slot.now }
{
    slot.cell.loop_number == 0
}

// Whether the cell has the slot.
#[tactic(auto, using(std::proofs::lemmas::Int::ints), unfolding(crate::specs::Slots::holds, crate::specs::Slots::same_cell, units::specs::Spans::same, units::specs::Spans::within))]
fn is_held_by(slot: &Slot, cell: LoopCell) -> bool
    ensures { result ≡ holds cell slot.now }
{
    !is_free(slot) && slot.cell == cell
}

// The index of the cell's slot.
pub fn slot_of(slots: &[Slot; SLOT_COUNT], cell: LoopCell) -> Option<usize>
    ensures { result ≡ position (holds cell) slots.now }
{
    slots.iter().position(|slot| is_held_by(slot, cell))
}

// The index of the first free slot.
pub fn free_slot(slots: &[Slot; SLOT_COUNT]) -> Option<usize>
    ensures { result ≡ position free slots.now }
{
    slots.iter().position(is_free)
}

// Whether the slot has as many readings as a cell takes.
#[tactic(auto, unfolding(crate::specs::Slots::full))]
pub fn is_full(slot: &Slot) -> bool
    ensures { result ≡ full slot.now }
{
    READINGS_MOST <= slot.count.saturating_add(slot.overloads)
}

// The cell's slot with one reading more.
#[tactic(auto, using(std::proofs::lemmas::Bool::Decides::nat_tests), unfolding(crate::specs::Slots::full))]
pub fn with_reading(reading: Reading, cell: LoopCell, slot: Slot) -> Slot
    requires { (reading_refusal reading ≡ 0) × (full slot ≡ false) }
    ensures { result ≡ with_reading reading cell slot }
{
    match reading {
        Reading::Power(milliwatts) => Slot {
            cell,
            sum: slot.sum.saturating_add(nanowatts(milliwatts)),
            count: slot.count + 1,
            overloads: slot.overloads,
        },
        Reading::Overloaded(_) => Slot {
            cell,
            sum: slot.sum,
            count: slot.count,
            overloads: slot.overloads + 1,
        },
    }
}
