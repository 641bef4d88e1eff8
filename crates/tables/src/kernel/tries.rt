// Operations tried: the locks taken, and the work done once they are had.
ghost use Rattle.std.specs.Prelude.{◌≡◌, ◌<◌, true};
ghost use Rattle.granules.specs.Trees.{table};
ghost use Rattle.modes.specs.Systems.{System};
ghost use Rattle.operations.specs.Words.{answer, after};
ghost use Rattle.ledger.specs.Jobs.{is_open};
ghost use Rattle.ledger.specs.Ledgers.{attempt};
ghost use Rattle.ledger.specs.Models.{carried, model_hands, try};
ghost use Rattle.tables.specs.Seats.{slot, status_of};
ghost use Rattle.tables.specs.Turns.{layout, told};
ghost use Rattle.tables.specs.Views.{model, numbers_of, states_of};

use super::Core;
use super::walks::Walker;
use crate::slot::Event;
use granules::Tree;
use modes::system::ModeSystem;
use operations::{Operation, Outcome, carry_out};
use shelf::Shelf;

impl<S: Shelf> Core<S> {
    // A job takes the locks for an operation, and is then working; or it waits with it. Whether it has them.
    fn attempt<M: ModeSystem>(
        &mut self,
        system: &M,
        tree: &Tree,
        job: u32,
        operation: Operation,
    ) -> bool
        requires seated { slot (numbers_of self.old.seats) job < 16 }
        requires opened { is_open (status_of (numbers_of self.old.seats) (states_of self.old.seats) job) ≡ true }
        requires near { operation.granule < 256 }
        ensures attempt { attempt model_hands (layout M.ModeSystem.meaning tree.now) job operation (model S.Shelf.words self.old) ≡ record { left = model S.Shelf.words self.new; complete = result } }
        ensures numbers { (numbers_of self.new.seats) ≡ (numbers_of self.old.seats) }
    {
        let walker = Walker {
            job,
            kind: operation.action.kind(),
            goal: operation.granule as usize,
        };
        let path = tree.path(walker.goal);
        let seat = self.seats.seat(job);
        let complete = self.walk(system, walker, seat, &path);
        self.seats.turn(seat, Event::of_walk(operation, complete));
        complete
    }

    // Does the work of an operation on the shelf.
    fn work(&mut self, tree: &Tree, operation: Operation) -> Outcome
        ensures value { result ≡ answer (table tree.now) operation (S.Shelf.words self.old.shelf) }
        ensures after { S.Shelf.words self.new.shelf ≡ after (table tree.now) operation (S.Shelf.words self.old.shelf) }
        ensures seats { self.new.seats ≡ self.old.seats }
        ensures held { self.new.held ≡ self.old.held }
        ensures noted { self.new.noted ≡ self.old.noted }
    {
        carry_out(tree, &mut self.shelf, operation)
    }

    // Carries an operation of a job out, and notes what is changed so that it can be taken back.
    fn carry(&mut self, tree: &Tree, job: u32, operation: Operation) -> Outcome
        requires { slot (numbers_of self.old.seats) job < 16 }
        ensures value { result ≡ answer (table tree.now) operation (S.Shelf.words self.old.shelf) }
        ensures model { (s : System) → model S.Shelf.words self.new ≡ carried (layout s tree.now) job operation (model S.Shelf.words self.old) }
    {
        let seat = self.seats.seat(job);
        self.noted.note(tree, &self.shelf, seat, operation);
        self.work(tree, operation)
    }

    // A job's operation: carried out if it gets the locks, else it waits. A `then` would hand what `carry` asks to a closure.
    pub(super) fn try_out<M: ModeSystem>(
        &mut self,
        system: &M,
        tree: &Tree,
        job: u32,
        operation: Operation,
    ) -> Option<Outcome>
        requires seated { slot (numbers_of self.old.seats) job < 16 }
        requires opened { is_open (status_of (numbers_of self.old.seats) (states_of self.old.seats) job) ≡ true }
        requires near { operation.granule < 256 }
        ensures served { try (layout M.ModeSystem.meaning tree.now) job operation (model S.Shelf.words self.old) ≡ record { left = model S.Shelf.words self.new; said = told (λ o. o) result } }
    {
        if !self.attempt(system, tree, job, operation) {
            return None;
        }
        Some(self.carry(tree, job, operation))
    }
}
