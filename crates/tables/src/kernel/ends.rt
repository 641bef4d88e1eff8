// Jobs that come and go.
ghost use Rattle.std.specs.Prelude.{◌≡◌, ◌+◌, ◌<◌, true, slice_index};
ghost use Rattle.ledger.specs.Jobs.{is_wounded};
ghost use Rattle.tables.specs.Ends.{with_one_more, at_work, without_job, undone};
ghost use Rattle.tables.specs.Seats.{slot, status_of};
ghost use Rattle.tables.specs.Views.{model, numbers_of, states_of};

use super::Core;
use crate::seat::Seat;
use crate::slot::Event;
use ledger::Note;
use shelf::Shelf;

impl<S: Shelf> Core<S> {
    // A new job sits down in a free slot; its number.
    pub(super) fn seat(&mut self, seat: Seat) -> u32
        requires vacant { slice_index (numbers_of self.old.seats) seat.slot ≡ 0 }
        requires left { self.old.seats.opened < 1000000 }
        ensures value { result ≡ self.old.seats.opened + 1 }
        ensures model { model S.Shelf.words self.new ≡ with_one_more (model S.Shelf.words self.old) }
    {
        self.seats.sit(seat);
        self.seats.opened()
    }

    // A wounded job works again.
    pub(super) fn reopen(&mut self, job: u32)
        requires seated { slot (numbers_of self.old.seats) job < 16 }
        requires wounded { is_wounded (status_of (numbers_of self.old.seats) (states_of self.old.seats) job) ≡ true }
        ensures model { model S.Shelf.words self.new ≡ at_work job (model S.Shelf.words self.old) }
    {
        let seat = self.seats.seat(job);
        self.seats.turn(seat, Event::Reopen);
    }

    // A job ends: its locks are free, its notes gone, its work stays.
    pub(super) fn end(&mut self, job: u32)
        requires { slot (numbers_of self.old.seats) job < 16 }
        ensures model { model S.Shelf.words self.new ≡ without_job job (model S.Shelf.words self.old) }
    {
        let seat = self.seats.seat(job);
        self.held.wipe(seat);
        self.noted.fill(seat, Note::Nothing);
        self.seats.leave(seat);
    }

    // A job ends whose work is taken back.
    pub(super) fn withdraw(&mut self, job: u32)
        requires { slot (numbers_of self.old.seats) job < 16 }
        ensures model { model S.Shelf.words self.new ≡ without_job job (undone job (model S.Shelf.words self.old)) }
    {
        let seat = self.seats.seat(job);
        self.take_back(seat);
        self.end(job);
    }
}
