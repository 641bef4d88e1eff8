// Reading and writing the modes that jobs hold.
ghost use Rattle.std.specs.Prelude.{◌≡◌, ◌<◌, replicate, slice_set};
ghost use Rattle.tables.specs.Grids.{cell, with_cell};

use super::Held;
use super::counts::moved;
use crate::grid::Grid;
use crate::seat::Seat;

impl Held {
    // Nobody holds anything.
    pub fn new() -> Held
        ensures rows { result.modes.rows ≡ replicate 16 (replicate 256 0) }
    {
        Held {
            modes: Grid::filled(0),
            counts: [[0; 16]; 256],
        }
    }

    pub(crate) fn get(&self, seat: Seat, granule: u8) -> u8
        ensures value { result ≡ cell 0 self.now.modes.rows seat.slot granule }
    {
        self.modes.get(seat, granule)
    }

    pub(crate) fn put(&mut self, seat: Seat, granule: u8, mode: u8)
        requires { mode < 16 }
        ensures rows { self.new.modes.rows ≡ with_cell self.old.modes.rows seat.slot granule mode }
    {
        let old = self.modes.get(seat, granule);
        self.counts[granule as usize] = moved(self.counts[granule as usize], old, mode);
        self.modes.put(seat, granule, mode);
    }

    // A slot lets go of a granule. Most hold nothing there, and then there is nothing to do.
    fn release(&mut self, seat: Seat, granule: u8)
        ensures rows { self.new.modes.rows ≡ with_cell self.old.modes.rows seat.slot granule 0 }
    {
        if self.get(seat, granule) != 0 {
            self.put(seat, granule, 0);
        }
    }

    // A slot lets go of everything.
    pub(crate) fn wipe(&mut self, seat: Seat)
        ensures rows { self.new.modes.rows ≡ slice_set self.old.modes.rows seat.slot (replicate 256 0) }
    {
        // By number, which is all that a granule's cell and its counts have in common.
        for granule in 0..=u8::MAX {
            self.release(seat, granule);
        }
    }
}
