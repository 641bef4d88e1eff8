// Taking a seat, moving on, and leaving.
ghost use Rattle.std.specs.Prelude.{◌≡◌, ◌+◌, ◌<◌, true, None, replicate, slice_index, slice_index_or, slice_set};
ghost use Rattle.ledger.specs.declared.job.Status.TheVariants.{Working, Ended};
ghost use Rattle.tables.specs.Slots.{moved, near};
ghost use Rattle.tables.specs.Seats.{after};
ghost use Rattle.tables.specs.Views.{numbers_of, states_of};

use super::Seats;
use crate::seat::Seat;
use crate::slot::{Event, Slot};
use ledger::Status;

impl Seats {
    // All slots are free, and no number was given.
    pub fn new() -> Seats
        ensures numbers { numbers_of result ≡ replicate 16 0 }
        ensures states { states_of result ≡ replicate 16 Ended }
        ensures opened { result.opened ≡ 0 }
    {
        Seats {
            slots: [None; 16],
            opened: 0,
        }
    }

    // The number that the next job gets. That one is left is no invariant: the seats are in order where none is.
    fn next_number(&self) -> u32
        requires { self.now.opened < 1000000 }
        ensures value { result ≡ self.now.opened + 1 }
    {
        self.opened + 1
    }

    // The next number sits down in a free slot, working.
    pub(crate) fn sit(&mut self, seat: Seat)
        requires vacant { slice_index (numbers_of self.old) seat.slot ≡ 0 }
        requires left { self.old.opened < 1000000 }
        ensures numbers { numbers_of self.new ≡ slice_set (numbers_of self.old) seat.slot (self.old.opened + 1) }
        ensures states { states_of self.new ≡ slice_set (states_of self.old) seat.slot Working }
        ensures opened { self.new.opened ≡ self.old.opened + 1 }
    {
        let number = self.next_number();
        self.slots[seat.slot] = Some(Slot {
            number,
            state: Status::Working,
        });
        self.opened = number;
    }

    // The job in a slot after something has happened to it.
    fn after(&self, seat: Seat, event: Event) -> Option<Slot>
        ensures value { result ≡ after event (slice_index_or self.now.slots seat.slot None) }
    {
        let mut job = self.slots[seat.slot]?;
        job.meet(event);
        Some(job)
    }

    // Something happens to the job in a slot, which keeps its seat.
    pub(crate) fn turn(&mut self, seat: Seat, event: Event)
        requires { near event ≡ true }
        ensures numbers { numbers_of self.new ≡ numbers_of self.old }
        ensures states { states_of self.new ≡ slice_set (states_of self.old) seat.slot (moved (slice_index_or (states_of self.old) seat.slot Ended) event) }
        ensures opened { self.new.opened ≡ self.old.opened }
    {
        self.slots[seat.slot] = self.after(seat, event);
    }

    // The job in a slot ends, and the slot is free again.
    pub(crate) fn leave(&mut self, seat: Seat)
        ensures numbers { numbers_of self.new ≡ slice_set (numbers_of self.old) seat.slot 0 }
        ensures states { states_of self.new ≡ slice_set (states_of self.old) seat.slot Ended }
        ensures opened { self.new.opened ≡ self.old.opened }
    {
        self.slots[seat.slot] = None;
    }
}
