// A whole run.
ghost use Rattle.std.specs.Prelude.{IfOk, vec_items};
ghost use Rattle.std.specs.Result.{result_map_both};
ghost use Rattle.ledger.specs.declared.call.Call.TheVariants.{Lay};
ghost use Rattle.engine.specs.Runs.{Ran};
ghost use Rattle.engine.specs.States.{state, words_of};

use crate::engine::Engine;
use ledger::{Answer, Call, Refusal};
use modes::system::ModeSystem;
use shelf::Shelf;
use std::alloc::{AllocError, Global};

// What a run leaves: the engine, and an answer to each call, or why the laying was refused.
#[derive(Drop)]
pub struct Finished<M, S> {
    pub engine: Engine<M, S>,
    pub answers: Result<Vec<Answer>, Refusal>,
}

// Lays an engine out over a shelf and serves calls, one after the other. The memory for the answers is taken before the
// first of them.
pub fn run<M: ModeSystem + Drop, S: Shelf + Drop>(
    heap: Global,
    system: M,
    shelf: S,
    parents: &[u32],
    words: &[u32],
    calls: &[Call<'_>],
) -> Result<Finished<M, S>, AllocError>
    ensures promise { IfOk result (λ x. Ran M.ModeSystem.meaning (S.Shelf.words shelf) (Lay parents.entry words.entry) parents.now words.now calls.now (result_map_both vec_items (λ e. e) x.answers) (words_of (state S.Shelf.words x.engine))) }
{
    let mut engine = Engine::new(system, shelf);
    if let Err(refusal) = engine.lay(parents, words) {
        return Ok(Finished {
            engine,
            answers: Err(refusal),
        });
    }
    // No `collect`: the memory is taken before the first call, so that none is served in vain.
    let mut answers = Vec::with_capacity(heap, calls.len())?;
    for call in calls {
        let answer = engine.serve(*call);
        answers.push_reserved(answer);
    }
    Ok(Finished {
        engine,
        answers: Ok(answers),
    })
}
