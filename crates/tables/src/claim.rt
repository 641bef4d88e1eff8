// What a job asks for, and the judgement of one holder.
ghost use Rattle.std.specs.Prelude.{◌≡◌};
ghost use Rattle.ledger.specs.Walks.{judge};

use ledger::Judgement;
use modes::system::ModeSystem;

// A job asks for a mode on a granule, the target.
#[derive(Clone, Copy)]
pub(crate) struct Claim {
    pub asker: u32,
    pub granule: u8,
    pub target: u8,
}

impl Claim {
    // What follows from a job that holds a mode on the granule: first whether there is a conflict, then which of the two
    // is older.
    pub(crate) fn judge<M: ModeSystem>(self, system: &M, holder: u32, held: u8) -> Judgement
        ensures value { result ≡ judge M.ModeSystem.meaning self.asker self.target holder held }
    {
        if holder == self.asker || system.stands(held, self.target) {
            return Judgement::Passes;
        }
        if self.asker < holder {
            Judgement::GivesWay
        } else {
            Judgement::HoldsUp
        }
    }
}
