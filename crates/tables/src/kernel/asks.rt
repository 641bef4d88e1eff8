// Questions to what an engine keeps.
ghost use Rattle.std.specs.Prelude.{◌≡◌, suc};
ghost use Rattle.ledger.specs.Promises.{group, holders};
ghost use Rattle.tables.specs.Views.{jobs_of};

use super::Core;
use crate::head::Head;
use ledger::Status;
use modes::system::ModeSystem;
use shelf::Shelf;

impl<S: Shelf> Core<S> {
    pub(super) fn status(&self, job: u32) -> Status
        ensures value { result ≡ (jobs_of self.now.seats self.now.held).status job }
    {
        self.seats.status(job)
    }

    // The group mode of a granule, and how many hold one. A pair, as callers of the engine get it.
    pub(super) fn head<M: ModeSystem>(&self, system: &M, granule: u8) -> (u8, u32)
        ensures group { result.0 ≡ group M.ModeSystem.meaning (jobs_of self.now.seats self.now.held) granule (suc self.now.seats.opened) }
        ensures holders { result.1 ≡ holders (jobs_of self.now.seats self.now.held) granule }
    {
        let head = Head::from(self.held.row(system, granule));
        (head.group(), head.holders())
    }
}
