// What a laid-out engine keeps: the shelf, who sits where, the modes that are held and the notes.
ghost use Rattle.std.specs.Prelude.{◌≡◌, ℕ, true, slice_index};
ghost use Rattle.ledger.specs.declared.job.Note.TheVariants.{Nothing};
ghost use Rattle.tables.specs.Grids.{cell, is_nothing};
ghost use Rattle.tables.specs.Seats.{numbers_in};

use crate::grid::Grid;
use crate::held::Held;
use crate::seats::Seats;
use ledger::Note;

pub mod asks;
pub mod calls;
pub mod ends;
pub mod lays;
pub mod meets;
pub mod takes;
pub mod tries;
pub mod walks;

// A free slot holds nothing and has no notes, at any time.
#[derive(Drop)]
pub struct Core<S> {
    shelf: S,
    seats: Seats,
    held: Held,
    noted: Grid<Note>,
    ghost unlocked: { (i x : ℕ) → slice_index (numbers_in seats.slots) i ≡ 0 → cell 0 held.modes.rows i x ≡ 0 },
    ghost unnoted: { (i x : ℕ) → slice_index (numbers_in seats.slots) i ≡ 0 → is_nothing (cell Nothing noted.rows i x) ≡ true },
}
