// One operation carried out over a shelf. A place that the shelf does not have reads as 0 and takes no word. Tree and shelf are
// two parameters: some functions only read the shelf, others change it, and callers keep the two apart.
ghost use Rattle.std.specs.Prelude.{◌≡◌, ◌≤◌, slice_index};
ghost use Rattle.granules.specs.Paths.{records_beneath};
ghost use Rattle.granules.specs.Trees.{table};
ghost use Rattle.operations.specs.Actions.{rounded};
ghost use Rattle.operations.specs.Words.{sum, largest_sum, answer, after};

use crate::operation::{Action, Operation, Outcome};
use granules::Tree;
use shelf::Shelf;

// The word at a place.
#[tactic(auto, using(crate::proofs::Places::word_at))]
fn word<S: Shelf>(shelf: &S, place: usize) -> u32
    ensures value { result ≡ slice_index (S.Shelf.words shelf.now) place }
{
    shelf.get(place).unwrap_or(0)
}

// The sum of the words of the records beneath a granule.
fn total<S: Shelf>(tree: &Tree, shelf: &S, granule: usize) -> u64
    ensures value { result ≡ sum (table tree.now) (S.Shelf.words shelf.now) granule }
    ensures bound { result ≤ largest_sum }
{
    tree.records(granule)
        .map(|r| u64::from(word(shelf, r)))
        .sum()
}

// What a read answers: the sum of the words of the records beneath a granule, and how many records there are. A pair, as
// callers of the engine get it.
pub fn figures<S: Shelf>(tree: &Tree, shelf: &S, granule: usize) -> (u64, u32)
    ensures sum { result.0 ≡ sum (table tree.now) (S.Shelf.words shelf.now) granule }
    ensures count { result.1 ≡ records_beneath (table tree.now) granule }
    ensures bound { result.0 ≤ largest_sum }
{
    (
        total(tree, shelf, granule),
        // There are at most 256, so it fits.
        tree.records_beneath(granule) as u32,
    )
}

// A sum over a count, to the nearest whole number, halves up; over no records it is 0.
fn mean(sum: u64, count: u32) -> u64
    requires { sum ≤ largest_sum }
    ensures value { result ≡ rounded sum count }
{
    if count == 0 {
        return 0;
    }
    (2 * sum + u64::from(count)) / (2 * u64::from(count))
}

// Changes the words of the records beneath a granule.
fn change<S: Shelf>(tree: &Tree, shelf: &mut S, operation: Operation)
    ensures after { S.Shelf.words shelf.new ≡ after (table tree.now) operation (S.Shelf.words shelf.old) }
{
    let granule = operation.granule as usize;
    for r in tree.records(granule) {
        let new = operation.action.changed(word(shelf, r));
        let _ = shelf.put(r, new);
    }
}

// Carries an operation out and answers it. Beneath a granule that the tree does not have there is no record.
#[tactic(auto, using(crate::proofs::Places::after_read, crate::proofs::Places::after_mean))]
pub fn carry_out<S: Shelf>(tree: &Tree, shelf: &mut S, operation: Operation) -> Outcome
    ensures value { result ≡ answer (table tree.now) operation (S.Shelf.words shelf.old) }
    ensures after { S.Shelf.words shelf.new ≡ after (table tree.now) operation (S.Shelf.words shelf.old) }
{
    let granule = operation.granule as usize;
    match operation.action {
        Action::Read => {
            let (sum, count) = figures(tree, shelf, granule);
            Outcome::Figures(sum, count)
        }
        Action::Mean => {
            let (sum, count) = figures(tree, shelf, granule);
            Outcome::Average(mean(sum, count))
        }
        Action::Set(_) | Action::Add(_) => {
            change(tree, shelf, operation);
            Outcome::Done
        }
    }
}
