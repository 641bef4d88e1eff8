// Calls as values.
ghost use Rattle.std.specs.Prelude.{◌≡◌};
ghost use Rattle.tables.specs.Replies.{as_answer};
ghost use Rattle.tables.specs.Turns.{told};
ghost use Rattle.engine.specs.States.{Served, state};

use super::Engine;
use ledger::{Answer, Call, Refusal};
use modes::system::ModeSystem;
use operations::Outcome;
use shelf::Shelf;

// What an operation that was carried out, or waits, answers.
fn told(outcome: Option<Outcome>) -> Answer
    ensures value { result ≡ told (λ o. o) outcome }
{
    outcome.map_or(Answer::Waits, Answer::Told)
}

impl<M: ModeSystem, S: Shelf> Engine<M, S> {
    // Any call: its answer, or why it is refused.
    fn answer(&mut self, call: Call<'_>) -> Result<Answer, Refusal>
        ensures served { Served M.ModeSystem.meaning call.entry (state S.Shelf.words self.old) (state S.Shelf.words self.new) (as_answer (λ a. a) result) }
    {
        match call {
            Call::Lay(parents, words) => self.lay(parents, words)?,
            Call::Open => return Ok(Answer::Job(self.open()?)),
            Call::Carry(job, operation) => return Ok(told(self.carry(job, operation)?)),
            Call::Go(job) => return Ok(told(self.go(job)?)),
            Call::Again(job) => self.again(job)?,
            Call::Commit(job) => self.commit(job)?,
            Call::GiveUp(job) => self.giveup(job)?,
            Call::Look(granule) => {
                let (group, holders) = self.look(granule)?;
                return Ok(Answer::Head(group, holders));
            }
        }
        Ok(Answer::Told(Outcome::Done))
    }

    // Any call, with its answer.
    pub fn serve(&mut self, call: Call<'_>) -> Answer
        ensures served { Served M.ModeSystem.meaning call.entry (state S.Shelf.words self.old) (state S.Shelf.words self.new) result }
    {
        self.answer(call).unwrap_or_else(Answer::Refused)
    }
}
