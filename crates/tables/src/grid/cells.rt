// Reading and writing cells.
ghost use Rattle.std.specs.Prelude.{◌≡◌, replicate, slice_set};
ghost use Rattle.tables.specs.Grids.{cell, with_cell};

use super::Grid;
use crate::seat::Seat;

impl<T: Copy> Grid<T> {
    // The same in every cell.
    pub(crate) fn filled(blank: T) -> Grid<T>
        ensures rows { result.rows ≡ replicate 16 (replicate 256 blank) }
    {
        Grid {
            rows: [[blank; 256]; 16],
        }
    }

    pub(crate) fn get(&self, seat: Seat, granule: u8) -> T
        ensures value { (d : T) → result ≡ cell d self.now.rows seat.slot granule }
    {
        self.rows[seat.slot][granule as usize]
    }

    pub(crate) fn put(&mut self, seat: Seat, granule: u8, value: T)
        ensures rows { self.new.rows ≡ with_cell self.old.rows seat.slot granule value }
    {
        self.rows[seat.slot][granule as usize] = value;
    }

    // The same in every cell of a slot.
    pub(crate) fn fill(&mut self, seat: Seat, blank: T)
        ensures rows { self.new.rows ≡ slice_set self.old.rows seat.slot (replicate 256 blank) }
    {
        self.rows[seat.slot] = [blank; 256];
    }
}
