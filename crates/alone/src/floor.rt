// The shelf that the program runs on, and its words.
ghost use Rattle.std.specs.Prelude.{◌≡◌, take, IfOk};
ghost use Rattle.alone.specs.Reports.{bare};

use shelf::{JoinedShelf, PackedShelf, Shelf, WordShelf};
use std::alloc::{AllocError, Global};

// 128 places of words, then 128 of four bytes each.
pub type Floor = JoinedShelf<WordShelf, PackedShelf>;

// A floor whose places hold 0.
pub fn bare_floor(heap: Global) -> Result<Floor, AllocError>
    ensures made { IfOk result (λ f. ⟦<Floor as Shelf>⟧.words f ≡ bare) }
{
    let first = WordShelf::new(heap, 128)?;
    let second = PackedShelf::new(heap, 128)?;
    Ok(JoinedShelf::new(first, second))
}

// The words at the first places of a shelf, as many as wanted or as there are.
pub fn words_of<S: Shelf>(heap: Global, shelf: &S, wanted: usize) -> Result<Vec<u32>, AllocError>
    ensures made { IfOk result (λ v. v.items ≡ take wanted (S.Shelf.words shelf.now)) }
{
    (0..wanted)
        .filter_map(|place| shelf.get(place))
        .collect(heap)
}
