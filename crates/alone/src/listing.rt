// Running what was read, and writing down what came of it.
ghost use Rattle.std.specs.Prelude.{IfOk};
ghost use Rattle.granules.specs.Trees.{table};
ghost use Rattle.shelf.specs.Words.{over};
ghost use Rattle.alone.specs.Reports.{Finished, Reported};

use crate::denied::Denied;
use crate::floor::{bare_floor, words_of};
use crate::input;
use crate::input::Work;
use granules::Tree;
use operations::{Outcome, run_alone};
use shelf::{Shelf, lay};
use std::alloc::{AllocError, Global};
use std::fmt;
use std::fmt::Write;

// What came of a text that was run.
#[derive(Drop)]
pub struct Report {
    // the answer to each operation
    pub answers: Vec<Outcome>,
    // the words that are left
    pub words: Vec<u32>,
}

// Lays the first words on a shelf, runs the operations there, and reads off the words that are left.
fn run<S: Shelf>(
    heap: Global,
    tree: &Tree,
    shelf: &mut S,
    work: &Work,
) -> Result<Report, AllocError>
    ensures made { IfOk result (λ r. Finished (table tree.now) (over work.now.words.items (S.Shelf.words shelf.old)) work.now.operations.items r.answers.items r.words.items) }
{
    lay(shelf, work.words.as_slice());
    let answers = run_alone(heap, tree, shelf, work.operations.as_slice())?;
    let words = words_of(heap, shelf, tree.size())?;
    Ok(Report { answers, words })
}

// Runs a text, or says why it is not admitted.
pub fn report_on(heap: Global, text: &[u8]) -> Result<Report, Denied>
    ensures value { Reported text.now result }
{
    let work = input::read(heap, text)?;
    let tree = Tree::new(work.parents.as_slice(), work.words.len())?;
    let mut floor = bare_floor(heap)?;
    let report = run(heap, &tree, &mut floor, &work)?;
    Ok(report)
}

// A line for each answer, and one for the words that are left.
impl fmt::Display for Report {
    fn fmt<W: Write>(&self, f: &mut fmt::Formatter<W>) -> fmt::Result {
        for (answer, number) in self.answers.iter().zip(1u32..) {
            writeln!(f, "{number} {answer}")?;
        }
        write!(f, "end")?;
        for word in &self.words {
            write!(f, " {word}")?;
        }
        writeln!(f)
    }
}
