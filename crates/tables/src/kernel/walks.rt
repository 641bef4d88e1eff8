// Locks taken along a path.
ghost use Rattle.std.specs.Prelude.{◌≡◌, ℕ, ◌<◌, List, ◌∷◌};
ghost use Rattle.granules.specs.Trees.{steps};
ghost use Rattle.ledger.specs.Jobs.{raise};
ghost use Rattle.ledger.specs.Models.{model_hands};
ghost use Rattle.tables.specs.Seats.{slot};
ghost use Rattle.tables.specs.Views.{model, jobs_of, numbers_of};
ghost use Rattle.ledger.specs.Walks.{target};
ghost use Rattle.tables.specs.Steps.{walk_on, after_step};

use super::Core;
use crate::claim::Claim;
use crate::seat::Seat;
use granules::Path;
use modes::kind::Kind;
use modes::system::ModeSystem;
use shelf::Shelf;

// A job that takes locks for an operation of a kind on a granule.
#[derive(Clone, Copy)]
pub struct Walker {
    pub job: u32,
    pub kind: Kind,
    pub goal: usize,
}

// What comes of one granule of a walk: all beneath is covered and the walk complete, it goes on below, or an older job
// stops it.
#[derive(Clone, Copy)]
pub enum Step {
    Covered,
    On,
    Stopped,
}

impl Walker {
    // The mode that is wanted on a granule of the path, by a job that has a mode there.
    fn target<M: ModeSystem>(self, system: &M, granule: u8, mode: u8) -> u8
        ensures value { result ≡ target M.ModeSystem.meaning self.kind self.goal granule mode }
    {
        let part = if granule as usize == self.goal {
            system.full(self.kind)
        } else {
            system.intent(self.kind)
        };
        system.join(mode, part)
    }
}

impl<S: Shelf> Core<S> {
    // A job's mode on a granule raised. That it sits in a slot, here and in other clauses, ties it to the seats as they are
    // at the call, and so is no invariant of a type.
    fn raise(&mut self, job: u32, seat: Seat, granule: u8, mode: u8)
        requires seated { slot (numbers_of self.old.seats) job ≡ seat.slot }
        requires mode { mode < 16 }
        ensures model { model S.Shelf.words self.new ≡ model_hands.with_jobs (raise job granule mode (jobs_of self.old.seats self.old.held)) (model S.Shelf.words self.old) }
        ensures numbers { (numbers_of self.new.seats) ≡ (numbers_of self.old.seats) }
    {
        self.held.put(seat, granule, mode);
    }

    // One granule of a walk: whoever is younger and in the way is wounded, and the mode is raised unless somebody older
    // is in the way.
    fn step<M: ModeSystem>(&mut self, system: &M, walker: Walker, seat: Seat, granule: u8) -> Step
        requires { slot (numbers_of self.old.seats) walker.job ≡ seat.slot }
        ensures walk { (xs : List ℕ) → walk_on M.ModeSystem.meaning walker (granule ∷ xs) (model S.Shelf.words self.old) ≡ after_step M.ModeSystem.meaning walker result xs (model S.Shelf.words self.new) }
        ensures numbers { (numbers_of self.new.seats) ≡ (numbers_of self.old.seats) }
    {
        let mode = self.held.get(seat, granule);
        let full = system.full(walker.kind);
        if system.join(mode, full) == mode {
            return Step::Covered;
        }
        let target = walker.target(system, granule, mode);
        if target == mode {
            return Step::On;
        }
        let claim = Claim {
            asker: walker.job,
            granule,
            target,
        };
        if self.make_way(system, claim) {
            return Step::Stopped;
        }
        self.raise(walker.job, seat, granule, target);
        Step::On
    }

    // The locks along a path; whether all were had. The job's seat is looked for once, before the walk, which moves nobody.
    pub(crate) fn walk<M: ModeSystem>(
        &mut self,
        system: &M,
        walker: Walker,
        seat: Seat,
        path: &Path,
    ) -> bool
        requires { slot (numbers_of self.old.seats) walker.job ≡ seat.slot }
        ensures walk { walk_on M.ModeSystem.meaning walker (steps path.now) (model S.Shelf.words self.old) ≡ record { left = model S.Shelf.words self.new; complete = result } }
        ensures numbers { (numbers_of self.new.seats) ≡ (numbers_of self.old.seats) }
    {
        for granule in path.as_slice() {
            match self.step(system, walker, seat, *granule) {
                Step::Covered => return true,
                Step::Stopped => return false,
                Step::On => {}
            }
        }
        true
    }
}
