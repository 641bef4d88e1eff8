// Words laid on a shelf.
ghost use Rattle.std.specs.Prelude.{◌≡◌};
ghost use Rattle.shelf.specs.Words.{over};

use crate::interface::Shelf;

// First word i at place i of the shelf; those past its end are left out.
#[tactic(auto, using(crate::proofs::FirstWords::over_more))]
pub fn lay<S: Shelf>(shelf: &mut S, words: &[u32])
    ensures after { S.Shelf.words shelf.new ≡ over words.now (S.Shelf.words shelf.old) }
{
    // By number, since that is the place that is put.
    for (place, word) in words.iter().enumerate() {
        let _ = shelf.put(place, *word);
    }
}
