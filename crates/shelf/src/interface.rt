// The interface of a shelf.
ghost use Rattle.std.specs.Prelude.{◌≡◌, ℕ, ◌≤◌, List, length, nat_lt, slice_set};
ghost use Rattle.shelf.specs.Words.{at, Fit};

// Places 0 to `size` - 1, each with a word.
pub trait Shelf {
    // The words, in the order of their places.
    ghost words: { Self → List ℕ };

    fn size(&self) -> usize
        ensures value { result ≡ length (words self.now) };

    // The word at a place; a place outside has none.
    fn get(&self, place: usize) -> Option<u32>
        ensures value { result ≡ at (words self.now) place };

    // Puts a word at a place and at no other, and says yes; outside it changes nothing and says no.
    fn put(&mut self, place: usize, word: u32) -> bool
        ensures after { words self.new ≡ slice_set (words self.old) place word }
        ensures test { result ≡ nat_lt place (length (words self.old)) };

    // There are at most 65,536 places.
    ghost few: { (s : Self) → length (words s) ≤ 65536 };

    // Each word has 32 bits.
    ghost fit: { (s : Self) → Fit (words s) };
}
