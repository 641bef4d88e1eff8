// A job's work taken back.
ghost use Rattle.std.specs.Prelude.{◌≡◌, ◌<◌, replicate, slice_index, slice_index_or, slice_set};
ghost use Rattle.ledger.specs.declared.job.Note.TheVariants.{Nothing};
ghost use Rattle.ledger.specs.declared.job.Status.TheVariants.{Ended};
ghost use Rattle.tables.specs.declared.slot.Event.TheVariants.{Wound};
ghost use Rattle.ledger.specs.Models.{back, taken_back};
ghost use Rattle.tables.specs.Grids.{cell};
ghost use Rattle.tables.specs.Seats.{slot};
ghost use Rattle.tables.specs.Slots.{moved};
ghost use Rattle.tables.specs.Views.{model, numbers_of, states_of};
ghost use Rattle.tables.specs.Wounds.{wounded_one};

use super::Core;
use crate::seat::Seat;
use crate::slot::Event;
use ledger::Note;
use shelf::Shelf;

impl<S: Shelf> Core<S> {
    // The word of one record taken back by the note of a slot. The shelf alone changes, and it is said of each table by name
    // that it does not: a word for all three would hide them.
    fn take_back_at(&mut self, seat: Seat, place: u8)
        ensures words { S.Shelf.words self.new.shelf ≡ slice_set (S.Shelf.words self.old.shelf) place (back (cell Nothing self.old.noted.rows seat.slot place) (slice_index (S.Shelf.words self.old.shelf) place)) }
        ensures seats { self.new.seats ≡ self.old.seats }
        ensures held { self.new.held ≡ self.old.held }
        ensures noted { self.new.noted ≡ self.old.noted }
    {
        let note = self.noted.get(seat, place);
        // No `==`: its yes is no proof that the two notes are the same.
        if let Note::Nothing = note {
            return;
        }
        let place = place as usize;
        if let Some(word) = self.shelf.get(place) {
            let old = note.back(word);
            let _ = self.shelf.put(place, old);
        }
    }

    // The words with the work of the job in a slot taken back.
    pub(super) fn take_back(&mut self, seat: Seat)
        ensures words { S.Shelf.words self.new.shelf ≡ taken_back (cell Nothing self.old.noted.rows seat.slot) (S.Shelf.words self.old.shelf) }
        ensures seats { self.new.seats ≡ self.old.seats }
        ensures held { self.new.held ≡ self.old.held }
        ensures noted { self.new.noted ≡ self.old.noted }
    {
        // By number, which is all that a note and a place of the shelf have in common.
        for place in 0..=u8::MAX {
            self.take_back_at(seat, place);
        }
    }

    // The job in a slot is wounded: its work is taken back, and it holds and notes nothing.
    fn wound(&mut self, seat: Seat)
        ensures words { S.Shelf.words self.new.shelf ≡ taken_back (cell Nothing self.old.noted.rows seat.slot) (S.Shelf.words self.old.shelf) }
        ensures numbers { (numbers_of self.new.seats) ≡ (numbers_of self.old.seats) }
        ensures states { (states_of self.new.seats) ≡ slice_set (states_of self.old.seats) seat.slot (moved (slice_index_or (states_of self.old.seats) seat.slot Ended) Wound) }
        ensures opened { self.new.seats.opened ≡ self.old.seats.opened }
        ensures held { self.new.held.modes.rows ≡ slice_set self.old.held.modes.rows seat.slot (replicate 256 0) }
        ensures noted { self.new.noted.rows ≡ slice_set self.old.noted.rows seat.slot (replicate 256 Nothing) }
    {
        self.take_back(seat);
        self.held.wipe(seat);
        self.noted.fill(seat, Note::Nothing);
        self.seats.turn(seat, Event::Wound);
    }

    // A job that sits in a slot is wounded, as the model has it.
    pub(crate) fn wound_job(&mut self, job: u32)
        requires { slot (numbers_of self.old.seats) job < 16 }
        ensures model { model S.Shelf.words self.new ≡ wounded_one job (model S.Shelf.words self.old) }
        ensures numbers { (numbers_of self.new.seats) ≡ (numbers_of self.old.seats) }
    {
        let seat = self.seats.seat(job);
        self.wound(seat);
    }
}
