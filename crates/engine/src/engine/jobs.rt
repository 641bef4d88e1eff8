// Jobs opened, reopened and ended, and a look at who holds a granule.
ghost use Rattle.ledger.specs.declared.call.Call.TheVariants.{Open, Again, Commit, GiveUp, Look};
ghost use Rattle.tables.specs.Replies.{as_done, as_job, as_head};
ghost use Rattle.engine.specs.States.{Served, state};

use super::{Engine, laid_out};
use ledger::Refusal;
use modes::system::ModeSystem;
use shelf::Shelf;

impl<M: ModeSystem, S: Shelf> Engine<M, S> {
    // A new job; its number, which is one more than the last.
    pub fn open(&mut self) -> Result<u32, Refusal>
        ensures served { Served M.ModeSystem.meaning Open (state S.Shelf.words self.old) (state S.Shelf.words self.new) (as_job result) }
    {
        laid_out(&self.tree)?;
        self.core.open()
    }

    // A wounded job works again, with no operations.
    pub fn again(&mut self, job: u32) -> Result<(), Refusal>
        ensures served { Served M.ModeSystem.meaning (Again job) (state S.Shelf.words self.old) (state S.Shelf.words self.new) (as_done result) }
    {
        laid_out(&self.tree)?;
        self.core.again(job)
    }

    // A working job ends. Its work stays, and its locks are free.
    pub fn commit(&mut self, job: u32) -> Result<(), Refusal>
        ensures served { Served M.ModeSystem.meaning (Commit job) (state S.Shelf.words self.old) (state S.Shelf.words self.new) (as_done result) }
    {
        laid_out(&self.tree)?;
        self.core.commit(job)
    }

    // A job that has not ended ends. Its work is taken back, and its locks are free.
    pub fn giveup(&mut self, job: u32) -> Result<(), Refusal>
        ensures served { Served M.ModeSystem.meaning (GiveUp job) (state S.Shelf.words self.old) (state S.Shelf.words self.new) (as_done result) }
    {
        laid_out(&self.tree)?;
        self.core.giveup(job)
    }

    // A granule's group mode, the join of all modes held there, and how many jobs hold one.
    pub fn look(&self, granule: u32) -> Result<(u8, u32), Refusal>
        ensures served { Served M.ModeSystem.meaning (Look granule) (state S.Shelf.words self.now) (state S.Shelf.words self.now) (as_head result) }
    {
        let tree = laid_out(&self.tree)?;
        self.core.look(&self.system, tree, granule)
    }
}
