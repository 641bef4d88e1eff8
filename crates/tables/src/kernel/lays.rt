// The tables before any call.
ghost use Rattle.std.specs.Prelude.{◌≡◌};
ghost use Rattle.shelf.specs.Words.{over};
ghost use Rattle.ledger.specs.Models.{fresh};
ghost use Rattle.tables.specs.Views.{model, words_on};

use super::Core;
use crate::grid::Grid;
use crate::held::Held;
use crate::seats::Seats;
use ledger::Note;
use shelf::Shelf;

impl<S: Shelf> Core<S> {
    // A shelf, and no job.
    pub fn blank(shelf: S) -> Core<S>
        ensures made { words_on S.Shelf.words result ≡ S.Shelf.words shelf }
    {
        Core {
            shelf,
            seats: Seats::new(),
            held: Held::new(),
            noted: Grid::filled(Note::Nothing),
        }
    }

    pub fn shelf(&self) -> &S
        ensures value { S.Shelf.words result.now ≡ words_on S.Shelf.words self.now }
    {
        &self.shelf
    }

    // First word i at place i of the shelf, and no job.
    pub fn lay(&mut self, words: &[u32])
        ensures model { model S.Shelf.words self.new ≡ fresh (over words.now (words_on S.Shelf.words self.old)) }
    {
        self.seats = Seats::new();
        self.held = Held::new();
        self.noted = Grid::filled(Note::Nothing);
        shelf::lay(&mut self.shelf, words);
    }
}
