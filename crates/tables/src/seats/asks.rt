// Questions to the seats.
ghost use Rattle.std.specs.Prelude.{◌≡◌, ◌<◌, filter_map, min, position, slice_index};
ghost use Rattle.std.specs.List.{reduce};
ghost use Rattle.std.specs.Option.{option_map};
ghost use Rattle.tables.specs.Seats.{above, given, has, next_above, place, seated, slot, status_of};
ghost use Rattle.tables.specs.Views.{numbers_of, states_of};

use super::Seats;
use crate::seat::Seat;
use crate::slot::Slot;
use ledger::Status;

// Whether the job in a slot has this number; or none, that the slot is free.
fn has(number: Option<u32>, slot: &Option<Slot>) -> bool
    ensures value { result ≡ has number slot.now }
{
    slot.map(|job| job.number) == number
}

// The number of the job in a slot, if it is above another.
fn above(number: u32, slot: &Option<Slot>) -> Option<u32>
    ensures value { result ≡ above number slot.now }
{
    slot.map(|job| job.number).filter(|job| *job > number)
}

impl Seats {
    // The last number that was given.
    pub fn opened(&self) -> u32
        ensures value { result ≡ self.now.opened }
    {
        self.opened
    }

    // The first slot whose job has this number; or for none, the first that is free.
    fn place(&self, number: Option<u32>) -> Option<usize>
        ensures value { result ≡ position (has number) self.now.slots }
    {
        self.slots.iter().position(|slot| has(number, slot))
    }

    // That slot as a seat. A `map` would hand what `Seat::at` asks to a closure.
    fn find(&self, number: Option<u32>) -> Option<Seat>
        ensures value { option_map (λ s. s.slot) result ≡ position (has number) self.now.slots }
    {
        let slot = self.place(number)?;
        Some(Seat::at(slot))
    }

    // The first free slot.
    #[tactic(auto, using(crate::proofs::Sitting::free_place))]
    pub(crate) fn free_seat(&self) -> Option<Seat>
        ensures value { option_map (λ s. s.slot) result ≡ seated (place (numbers_of self.now) 0) }
    {
        self.find(None)
    }

    // The slot of a job.
    #[tactic(auto, using(crate::proofs::Sitting::place_of))]
    pub(crate) fn seat_of(&self, job: u32) -> Option<Seat>
        ensures value { option_map (λ s. s.slot) result ≡ seated (slot (numbers_of self.now) job) }
    {
        self.find(Some(job))
    }

    // The slot of a job that has one.
    pub(crate) fn seat(&self, job: u32) -> Seat
        requires { slot (numbers_of self.now) job < 16 }
        ensures value { result.slot ≡ slot (numbers_of self.now) job }
    {
        self.seat_of(job).unwrap()
    }

    // The number of the job in a slot.
    pub(crate) fn number(&self, seat: Seat) -> Option<u32>
        ensures value { result ≡ given (slice_index (numbers_of self.now) seat.slot) }
    {
        self.slots[seat.slot].map(|job| job.number)
    }

    // The state of a job.
    pub fn status(&self, job: u32) -> Status
        ensures value { result ≡ status_of (numbers_of self.now) (states_of self.now) job }
    {
        let job = self.seat_of(job).and_then(|seat| self.slots[seat.slot]);
        job.map_or(Status::Ended, |job| job.state)
    }

    // The least number above another.
    fn least_above(&self, number: u32) -> Option<u32>
        ensures value { result ≡ reduce min (filter_map (above number) self.now.slots) }
    {
        self.slots
            .iter()
            .filter_map(|slot| above(number, slot))
            .min()
    }

    // The oldest job that is younger than a number.
    #[tactic(auto, using(crate::proofs::Sitting::least_above))]
    pub fn next_above(&self, number: u32) -> Option<u32>
        ensures value { result ≡ given (next_above number (numbers_of self.now)) }
    {
        self.least_above(number)
    }
}
