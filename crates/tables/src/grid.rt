// Something for each slot and granule: the modes that jobs hold, or their notes.
ghost use Rattle.std.specs.Prelude.{◌≡◌, true, length};
ghost use Rattle.tables.specs.Grids.{all_long};

pub mod cells;
pub mod notes;

// A row for each of the 16 slots, with a cell for each of 256 granules: an array, like all that is kept, since no call takes
// memory.
#[derive(Drop)]
pub struct Grid<T> {
    rows: [[T; 256]; 16],
    ghost full: { length rows ≡ 16 },
    ghost long: { all_long 256 rows ≡ true },
}
