// The operations of jobs.
ghost use Rattle.operations.specs.declared.operation.Action.TheVariants.{Read, Mean, Set, Add};
ghost use Rattle.operations.specs.declared.operation.Outcome.TheVariants.{Done};
ghost use Rattle.ledger.specs.declared.call.Call.TheVariants.{Carry, Go};
ghost use Rattle.ledger.specs.Promises.{Shaped};
ghost use Rattle.tables.specs.Replies.{as_figures, as_average, as_written, as_outcome, InShape};
ghost use Rattle.engine.specs.States.{Served, state};

use super::{Engine, laid_out};
use ledger::Refusal;
use modes::system::ModeSystem;
use operations::{Action, Operation, Outcome};
use shelf::Shelf;

impl<M: ModeSystem, S: Shelf> Engine<M, S> {
    // An operation of a working job: it takes its locks and is carried out, or waits for an older job, and then there is no
    // outcome.
    pub fn carry(&mut self, job: u32, operation: Operation) -> Result<Option<Outcome>, Refusal>
        ensures served { Served M.ModeSystem.meaning (Carry job operation) (state S.Shelf.words self.old) (state S.Shelf.words self.new) (as_outcome result) }
        ensures shape { InShape operation.action result }
    {
        let tree = laid_out(&self.tree)?;
        self.core.operate(&self.system, tree, job, operation)
    }

    // The operation for which a job waits, tried anew.
    pub fn go(&mut self, job: u32) -> Result<Option<Outcome>, Refusal>
        ensures served { Served M.ModeSystem.meaning (Go job) (state S.Shelf.words self.old) (state S.Shelf.words self.new) (as_outcome result) }
    {
        let tree = laid_out(&self.tree)?;
        self.core.go(&self.system, tree, job)
    }

    // The sum of the words of the records beneath a granule, and how many records there are. This, `mean` and `write` each take
    // their own outcome apart; the closure of a `map` would not know that no other comes.
    pub fn read(&mut self, job: u32, granule: u32) -> Result<Option<(u64, u32)>, Refusal>
        ensures served { Served M.ModeSystem.meaning (Carry job (record { granule = granule; action = Read })) (state S.Shelf.words self.old) (state S.Shelf.words self.new) (as_figures result) }
    {
        let operation = Operation {
            granule,
            action: Action::Read,
        };
        match self.carry(job, operation)? {
            Some(Outcome::Figures(sum, count)) => Ok(Some((sum, count))),
            Some(_) => unreachable(),
            None => Ok(None),
        }
    }

    // That sum over that number, rounded to a whole number, halves up.
    pub fn mean(&mut self, job: u32, granule: u32) -> Result<Option<u64>, Refusal>
        ensures served { Served M.ModeSystem.meaning (Carry job (record { granule = granule; action = Mean })) (state S.Shelf.words self.old) (state S.Shelf.words self.new) (as_average result) }
    {
        let operation = Operation {
            granule,
            action: Action::Mean,
        };
        match self.carry(job, operation)? {
            Some(Outcome::Average(mean)) => Ok(Some(mean)),
            Some(_) => unreachable(),
            None => Ok(None),
        }
    }

    // A set or an add, which has no more to tell than that it is done.
    fn write(&mut self, job: u32, operation: Operation) -> Result<Option<()>, Refusal>
        requires { Shaped operation.action Done }
        ensures served { Served M.ModeSystem.meaning (Carry job operation) (state S.Shelf.words self.old) (state S.Shelf.words self.new) (as_written result) }
    {
        match self.carry(job, operation)? {
            Some(Outcome::Done) => Ok(Some(())),
            Some(_) => unreachable(),
            None => Ok(None),
        }
    }

    // Puts a word into every record beneath a granule.
    pub fn set(&mut self, job: u32, granule: u32, word: u32) -> Result<Option<()>, Refusal>
        ensures served { Served M.ModeSystem.meaning (Carry job (record { granule = granule; action = Set word })) (state S.Shelf.words self.old) (state S.Shelf.words self.new) (as_written result) }
    {
        let operation = Operation {
            granule,
            action: Action::Set(word),
        };
        self.write(job, operation)
    }

    // Adds a word to every record beneath a granule, wrapping.
    pub fn add(&mut self, job: u32, granule: u32, word: u32) -> Result<Option<()>, Refusal>
        ensures served { Served M.ModeSystem.meaning (Carry job (record { granule = granule; action = Add word })) (state S.Shelf.words self.old) (state S.Shelf.words self.new) (as_written result) }
    {
        let operation = Operation {
            granule,
            action: Action::Add(word),
        };
        self.write(job, operation)
    }
}
