// The modes that jobs hold.
ghost use Rattle.std.specs.Prelude.{◌≡◌, ℕ, true, length};
ghost use Rattle.tables.specs.Grids.{all_long, cell};
ghost use Rattle.tables.specs.Heads.{tally};

use crate::grid::Grid;

pub mod cells;
pub mod counts;

// The mode that each slot holds on each granule; and for each granule, how many slots hold each mode, which agrees with
// these at any time. Arrays, since no call takes memory.
#[derive(Drop)]
pub struct Held {
    modes: Grid<u8>,
    counts: [[u8; 16]; 256],
    ghost counted: { (length counts ≡ 256) × (all_long 16 counts ≡ true) },
    ghost agree: { (x m : ℕ) → cell 0 counts x m ≡ tally modes.rows x m },
}
