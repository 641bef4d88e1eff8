// Two shelves end to end.
ghost use Rattle.std.specs.Prelude.{◌≡◌, ◌+◌, ◌≤◌, min};
ghost use Rattle.shelf.specs.Sides.{Leads, side};
ghost use Rattle.shelf.specs.Words.{joined};
ghost use Rattle.shelf.specs.SidesLemmas.{joined_few, joined_fit};

use crate::interface::Shelf;

// The most places that a shelf has.
const LIMIT: usize = 65536;

// The places of the first, then those of the second, up to 65,536.
#[derive(Drop)]
pub struct JoinedShelf<A, B> {
    first: A,
    second: B,
}

impl<A, B> JoinedShelf<A, B> {
    pub fn new(first: A, second: B) -> JoinedShelf<A, B>
        ensures first { result.first ≡ first }
        ensures second { result.second ≡ second }
    {
        JoinedShelf { first, second }
    }
}

// The shelf that a place lies on, with the place that it is there.
enum Side {
    First(usize),
    Second(usize),
}

// The side of a place, where the first shelf has `size` places; a place beyond the most lies on neither. This and the next are
// functions of their own, so that an error in one fails at its own promise.
fn side_of(size: usize, place: usize) -> Option<Side>
    ensures { result ≡ side size place }
{
    if place >= LIMIT {
        None
    } else if place < size {
        Some(Side::First(place))
    } else {
        Some(Side::Second(place - size))
    }
}

// How many places two shelves of so many have end to end.
fn size_of_both(first: usize, second: usize) -> usize
    requires { (first ≤ 65536) × (second ≤ 65536) }
    ensures { result ≡ min (first + second) 65536 }
{
    (first + second).min(LIMIT)
}

impl<A: Shelf, B: Shelf> JoinedShelf<A, B> {
    // The side of a place, where a get and a put do what they should do at the place of the two.
    fn side(&self, place: usize) -> Option<Side>
        ensures { Leads (A.Shelf.words self.now.first) (B.Shelf.words self.now.second) place result }
    {
        side_of(self.first.size(), place)
    }
}

impl<A: Shelf, B: Shelf> Shelf for JoinedShelf<A, B> {
    ghost words = { λ s. joined (A.Shelf.words s.first) (B.Shelf.words s.second) };

    ghost few = { λ s. joined_few (A.Shelf.words s.first) (B.Shelf.words s.second) };

    ghost fit = { λ s. joined_fit _ _ (A.Shelf.fit s.first) (B.Shelf.fit s.second) };

    fn size(&self) -> usize {
        size_of_both(self.first.size(), self.second.size())
    }

    fn get(&self, place: usize) -> Option<u32> {
        match self.side(place)? {
            Side::First(at) => self.first.get(at),
            Side::Second(at) => self.second.get(at),
        }
    }

    fn put(&mut self, place: usize, word: u32) -> bool {
        match self.side(place) {
            Some(Side::First(at)) => self.first.put(at, word),
            Some(Side::Second(at)) => self.second.put(at, word),
            None => false,
        }
    }
}
