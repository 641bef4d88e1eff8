// A list of operations run alone.
ghost use Rattle.std.specs.Prelude.{vec_items};
ghost use Rattle.std.specs.Option.{option_map};
ghost use Rattle.std.specs.Result.{result_ok};
ghost use Rattle.granules.specs.Trees.{table};
ghost use Rattle.operations.specs.Alone.{Ran};

use crate::carry::carry_out;
use crate::operation::{Operation, Outcome};
use granules::Tree;
use shelf::Shelf;
use std::alloc::{AllocError, Global};

// Carries operations out one after the other, nothing between them, and answers each. The memory for the answers is
// taken before the first.
pub fn run_alone<S: Shelf>(
    heap: Global,
    tree: &Tree,
    shelf: &mut S,
    operations: &[Operation],
) -> Result<Vec<Outcome>, AllocError>
    ensures ran { Ran (table tree.now) (S.Shelf.words shelf.old) operations.now (option_map vec_items (result_ok result)) (S.Shelf.words shelf.new) }
{
    // No `collect`: where memory runs out it would not say that nothing was done.
    let mut answers = Vec::with_capacity(heap, operations.len())?;
    for operation in operations {
        let answer = carry_out(tree, shelf, *operation);
        answers.push_reserved(answer);
    }
    Ok(answers)
}
