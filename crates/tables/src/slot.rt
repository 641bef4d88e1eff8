// How the state of the job in a slot moves.
ghost use Rattle.std.specs.Prelude.{◌≡◌};
ghost use Rattle.tables.specs.Slots.{moved, walked};

use ledger::Status;
use operations::Operation;

// What can happen to a job while it sits in its slot.
#[derive(Clone, Copy)]
pub enum Event {
    // its walk is completed
    Through,
    // its walk for this operation stops
    Stop(Operation),
    // an older job wounds it
    Wound,
    // it is reopened
    Reopen,
}

impl Event {
    // What a walk for an operation comes to.
    pub fn of_walk(operation: Operation, complete: bool) -> Event
        ensures value { result ≡ walked operation complete }
    {
        if complete {
            Event::Through
        } else {
            Event::Stop(operation)
        }
    }
}

// The job in a slot: its number, and its state.
#[derive(Clone, Copy)]
pub struct Slot {
    pub number: u32,
    pub state: Status,
}

impl Slot {
    // Moves to the state that follows; an event that the state does not know leaves it.
    pub fn meet(&mut self, event: Event)
        ensures number { self.new.number ≡ self.old.number }
        ensures state { self.new.state ≡ moved self.old.state event }
    {
        self.state = match (self.state, event) {
            (Status::Working | Status::Waiting(_), Event::Through) => Status::Working,
            (Status::Working | Status::Waiting(_), Event::Stop(operation)) => Status::Waiting(
                operation,
            ),
            (Status::Working | Status::Waiting(_), Event::Wound) => Status::Wounded,
            (Status::Wounded, Event::Reopen) => Status::Working,
            (state, _) => state,
        };
    }
}
