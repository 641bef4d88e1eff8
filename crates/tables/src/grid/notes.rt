// Notes taken of an operation.
ghost use Rattle.std.specs.Prelude.{◌≡◌, ℕ, [], slice_index_or, slice_set};
ghost use Rattle.granules.specs.Trees.{table};
ghost use Rattle.ledger.specs.declared.job.Note.TheVariants.{Nothing};
ghost use Rattle.tables.specs.Grids.{cell};
ghost use Rattle.tables.specs.Notes.{noted_at};

use super::Grid;
use crate::seat::Seat;
use granules::Tree;
use ledger::Note;
use modes::kind::Kind;
use operations::Operation;
use shelf::Shelf;

impl Grid<Note> {
    // Notes in a slot what an operation is about to change on a shelf. A read changes nothing.
    pub(crate) fn note<S: Shelf>(
        &mut self,
        tree: &Tree,
        shelf: &S,
        seat: Seat,
        operation: Operation,
    )
        ensures others { self.new.rows ≡ slice_set self.old.rows seat.slot (slice_index_or self.new.rows seat.slot []) }
        ensures notes { (r : ℕ) → cell Nothing self.new.rows seat.slot r ≡ noted_at (table tree.now) operation (S.Shelf.words shelf.now) r (cell Nothing self.old.rows seat.slot r) }
    {
        if operation.action.kind() == Kind::Read {
            return;
        }
        let granule = operation.granule as usize;
        for record in tree.records(granule) {
            let word = shelf.get(record).unwrap_or(0);
            // It fits: `try_from` would add a case that cannot be.
            let place = record as u8;
            let note = self.get(seat, place).noted(operation.action, word);
            self.put(seat, place, note);
        }
    }
}
