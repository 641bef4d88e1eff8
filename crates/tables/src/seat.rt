// Where a job sits.
ghost use Rattle.std.specs.Prelude.{◌≡◌, ◌<◌};

// One of the 16 slots, by its place.
#[derive(Clone, Copy)]
pub(crate) struct Seat {
    pub(crate) slot: usize,
    ghost within: { slot < 16 },
}

impl Seat {
    // The seat at a place.
    pub(crate) fn at(slot: usize) -> Seat
        requires { slot < 16 }
        ensures { result.slot ≡ slot }
    {
        Seat { slot }
    }
}
