// Which job sits in which slot, and in what state.
ghost use Rattle.std.specs.Prelude.{◌≡◌, ℕ, true, None, length, slice_index_or};
ghost use Rattle.tables.specs.Seats.{all_given, distinct, numbers_in, proper};

use crate::slot::Slot;

pub mod asks;
pub mod moves;

// The jobs in the 16 slots, none where a slot is free, and the last number that was given. No job has the number 0, none
// that sits has ended, and what one waits for is an operation on one of the 256 granules. An array,
// since no call takes memory.
#[derive(Clone, Copy)]
pub struct Seats {
    slots: [Option<Slot>; 16],
    opened: u32,
    ghost full: { length slots ≡ 16 },
    ghost apart: { distinct (numbers_in slots) ≡ true },
    ghost known: { all_given opened (numbers_in slots) ≡ true },
    ghost proper: { (i : ℕ) → proper (slice_index_or slots i None) ≡ true },
}
