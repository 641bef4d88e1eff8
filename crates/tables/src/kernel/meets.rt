// Those who are in the way of a job that asks for a lock.
ghost use Rattle.std.specs.Prelude.{◌≡◌, ◌<◌};
ghost use Rattle.granules.specs.Below.{some_below};
ghost use Rattle.ledger.specs.Models.{model_hands};
ghost use Rattle.ledger.specs.Walks.{blocks, yields};
ghost use Rattle.tables.specs.Meetings.{holds_up_at};
ghost use Rattle.tables.specs.Seats.{slot};
ghost use Rattle.tables.specs.Views.{jobs_of, model, numbers_of};
ghost use Rattle.tables.specs.Wounds.{wounded_if};

use super::Core;
use crate::claim::Claim;
use crate::seat::Seat;
use ledger::Judgement;
use modes::system::ModeSystem;
use shelf::Shelf;

impl<S: Shelf> Core<S> {
    // A job is met by a claim, and is wounded if it must give way. That it sits, and that nobody changes seats, is said at each
    // call, here and below: neither is an invariant of a job or of the seats.
    fn meet<M: ModeSystem>(&mut self, system: &M, claim: Claim, job: u32)
        requires { slot (numbers_of self.old.seats) job < 16 }
        ensures model { model S.Shelf.words self.new ≡ wounded_if (yields M.ModeSystem.meaning (jobs_of self.old.seats self.old.held) claim.asker claim.granule claim.target job) job (model S.Shelf.words self.old) }
        ensures numbers { numbers_of self.new.seats ≡ numbers_of self.old.seats }
    {
        let mode = self.held.get(self.seats.seat(job), claim.granule);
        if claim.judge(system, job, mode) == Judgement::GivesWay {
            self.wound_job(job);
        }
    }

    // Every younger job that is in the way is wounded, the oldest of them first.
    fn wound_younger<M: ModeSystem>(&mut self, system: &M, claim: Claim)
        ensures model { model S.Shelf.words self.new ≡ model_hands.wound (yields M.ModeSystem.meaning (jobs_of self.old.seats self.old.held) claim.asker claim.granule claim.target) (model S.Shelf.words self.old) }
        ensures numbers { numbers_of self.new.seats ≡ numbers_of self.old.seats }
    {
        let mut next = self.seats.next_above(claim.asker);
        while let Some(job) = next {
            self.meet(system, claim, job);
            next = self.seats.next_above(job);
        }
    }

    // Whether the job in a slot, if there is one, holds a claim up.
    fn holds_up<M: ModeSystem>(&self, system: &M, claim: Claim, seat: Seat) -> bool
        ensures value { result ≡ holds_up_at M.ModeSystem.meaning self.now.seats self.now.held claim.asker claim.granule claim.target seat.slot }
    {
        let Some(job) = self.seats.number(seat) else {
            return false;
        };
        let mode = self.held.get(seat, claim.granule);
        claim.judge(system, job, mode) == Judgement::HoldsUp
    }

    // Whether an older job is in the way.
    fn is_held_up<M: ModeSystem>(&self, system: &M, claim: Claim) -> bool
        ensures value { result ≡ some_below claim.asker (blocks M.ModeSystem.meaning (jobs_of self.now.seats self.now.held) claim.asker claim.granule claim.target) }
    {
        (0..16).any(|slot| self.holds_up(system, claim, Seat::at(slot)))
    }

    // Makes way for a claim: whoever is younger and in the way is wounded. Whether an older one is in the way.
    pub(crate) fn make_way<M: ModeSystem>(&mut self, system: &M, claim: Claim) -> bool
        ensures value { result ≡ some_below claim.asker (blocks M.ModeSystem.meaning (jobs_of self.old.seats self.old.held) claim.asker claim.granule claim.target) }
        ensures model { model S.Shelf.words self.new ≡ model_hands.wound (yields M.ModeSystem.meaning (jobs_of self.old.seats self.old.held) claim.asker claim.granule claim.target) (model S.Shelf.words self.old) }
        ensures numbers { numbers_of self.new.seats ≡ numbers_of self.old.seats }
    {
        // What stands with the group mode stands with each mode held: no job need be looked at.
        let row = self.held.row(system, claim.granule);
        if system.stands(row.group, claim.target) {
            return false;
        }
        let waits = self.is_held_up(system, claim);
        self.wound_younger(system, claim);
        waits
    }
}
