// The calls on an engine that is laid out: first the rows of the table of refusals from the top, then the work.
ghost use Rattle.std.specs.Prelude.{◌≡◌};
ghost use Rattle.ledger.specs.declared.call.Call.TheVariants.{Open, Carry, Go, Again, Commit, GiveUp, Look};
ghost use Rattle.ledger.specs.Ledgers.{Layout};
ghost use Rattle.ledger.specs.Models.{serve};
ghost use Rattle.tables.specs.Replies.{as_done, as_job, as_head, as_outcome};
ghost use Rattle.tables.specs.Turns.{layout};
ghost use Rattle.tables.specs.Views.{model};

use super::Core;
use crate::rows::{must_be_wounded, must_not_have_ended, must_wait, must_work};
use granules::Tree;
use ledger::Refusal;
use modes::system::ModeSystem;
use operations::{Operation, Outcome};
use shelf::Shelf;

impl<S: Shelf> Core<S> {
    // A new job, while fewer than 16 have not ended and fewer than 1,000,000 were opened.
    pub fn open(&mut self) -> Result<u32, Refusal>
        ensures served { (y : Layout) → serve y Open (model S.Shelf.words self.old) ≡ record { left = model S.Shelf.words self.new; said = as_job result } }
    {
        let Some(seat) = self.seats.free_seat() else {
            return Err(Refusal::TooManyJobs);
        };
        if self.seats.opened() >= 1000000 {
            return Err(Refusal::NumbersUsedUp);
        }
        Ok(self.seat(seat))
    }

    // An operation of a working job.
    pub fn operate<M: ModeSystem>(
        &mut self,
        system: &M,
        tree: &Tree,
        job: u32,
        operation: Operation,
    ) -> Result<Option<Outcome>, Refusal>
        ensures served { serve (layout M.ModeSystem.meaning tree.now) (Carry job operation) (model S.Shelf.words self.old) ≡ record { left = model S.Shelf.words self.new; said = as_outcome result } }
    {
        must_work(self.status(job))?;
        if !tree.has(operation.granule as usize) {
            return Err(Refusal::NoSuchGranule);
        }
        Ok(self.try_out(system, tree, job, operation))
    }

    // The operation for which a job waits, tried anew.
    pub fn go<M: ModeSystem>(
        &mut self,
        system: &M,
        tree: &Tree,
        job: u32,
    ) -> Result<Option<Outcome>, Refusal>
        ensures served { serve (layout M.ModeSystem.meaning tree.now) (Go job) (model S.Shelf.words self.old) ≡ record { left = model S.Shelf.words self.new; said = as_outcome result } }
    {
        let operation = must_wait(self.status(job))?;
        Ok(self.try_out(system, tree, job, operation))
    }

    // A wounded job works again, with no operations.
    pub fn again(&mut self, job: u32) -> Result<(), Refusal>
        ensures served { (y : Layout) → serve y (Again job) (model S.Shelf.words self.old) ≡ record { left = model S.Shelf.words self.new; said = as_done result } }
    {
        must_be_wounded(self.status(job))?;
        self.reopen(job);
        Ok(())
    }

    // A working job ends, and its work stays.
    pub fn commit(&mut self, job: u32) -> Result<(), Refusal>
        ensures served { (y : Layout) → serve y (Commit job) (model S.Shelf.words self.old) ≡ record { left = model S.Shelf.words self.new; said = as_done result } }
    {
        must_work(self.status(job))?;
        self.end(job);
        Ok(())
    }

    // A job ends, and its work is taken back.
    pub fn giveup(&mut self, job: u32) -> Result<(), Refusal>
        ensures served { (y : Layout) → serve y (GiveUp job) (model S.Shelf.words self.old) ≡ record { left = model S.Shelf.words self.new; said = as_done result } }
    {
        must_not_have_ended(self.status(job))?;
        self.withdraw(job);
        Ok(())
    }

    // The group mode of a granule, and how many hold one.
    pub fn look<M: ModeSystem>(
        &self,
        system: &M,
        tree: &Tree,
        granule: u32,
    ) -> Result<(u8, u32), Refusal>
        ensures served { serve (layout M.ModeSystem.meaning tree.now) (Look granule) (model S.Shelf.words self.now) ≡ record { left = model S.Shelf.words self.now; said = as_head result } }
    {
        let granule = granule as usize;
        if !tree.has(granule) {
            return Err(Refusal::NoSuchGranule);
        }
        // A granule of a tree is below 256, so it fits: `try_from` would add a case that cannot be.
        Ok(self.head(system, granule as u8))
    }
}
