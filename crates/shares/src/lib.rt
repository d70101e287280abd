// The share of a tally's slots that each of two control loops has: when a loop gets a new slot, and which.
#![tactic(auto)]

ghost use Rattle.std.specs.Prelude.{◌≡◌, ◌-◌};
ghost use Rattle.slots.specs.Slots.{index_in};
ghost use Rattle.shares.specs.Shares.{held_in, sure_slots, granted, new_slot};

use slots::{SLOT_COUNT, Slot, free_slot};

// How many slots each loop is sure of.
pub const SURE_SLOTS: usize = 96;

// How many slots the two loops share beyond those.
pub const SHARED_SLOTS: usize = 64;

// How many slots the loop holds.
#[tactic(auto, using(crate::proofs::Counting::passing_is), unfolding(crate::specs::Shares::of_loop))]
fn held_by(slots: &[Slot; SLOT_COUNT], loop_number: u64) -> usize
    ensures { result ≡ held_in slots.now loop_number }
{
    slots
        .iter()
        .filter(|slot| slot.cell.loop_number == loop_number)
        .count()
}

// How many of the slots that the loop holds are beyond those it is sure of.
fn beyond_sure(slots: &[Slot; SLOT_COUNT], loop_number: u64) -> usize
    ensures { result ≡ held_in slots.now loop_number - sure_slots }
{
    held_by(slots, loop_number).saturating_sub(SURE_SLOTS)
}

// Whether the loop gets a new slot.
#[tactic(auto, using(crate::proofs::Counting::passing_most), unfolding(crate::specs::Shares::granted, crate::specs::Shares::beyond))]
fn is_granted(slots: &[Slot; SLOT_COUNT], loop_number: u64) -> bool
    ensures { result ≡ granted (held_in slots.now) loop_number }
{
    held_by(slots, loop_number) < SURE_SLOTS
        || beyond_sure(slots, 1) + beyond_sure(slots, 2) < SHARED_SLOTS
}

// The index of the slot that a new cell of the loop gets.
#[tactic(auto, using(slots::proofs::Searching::position_is), unfolding(crate::specs::Shares::new_slot))]
pub fn new_slot(slots: &[Slot; SLOT_COUNT], loop_number: u64) -> Option<usize>
    ensures { result ≡ index_in slots.now (new_slot loop_number slots.now) }
{
    if is_granted(slots, loop_number) {
        free_slot(slots)
    } else {
        None
    }
}
