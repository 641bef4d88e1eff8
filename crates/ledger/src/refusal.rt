// Why a call is refused.
ghost use Rattle.std.specs.Prelude.{◌≡◌};
ghost use Rattle.ledger.specs.declared.refusal.Refusal.TheVariants.{Table};
ghost use Rattle.ledger.specs.Refusals.{number};

use granules::Unfit;

#[derive(Clone, Copy, PartialEq, Eq, Debug)]
pub enum Refusal {
    NotLaidOut,
    TooManyJobs,
    NumbersUsedUp,
    NoSuchJob,
    JobWounded,
    JobWaiting,
    NoSuchGranule,
    JobNotWaiting,
    JobNotWounded,
    AlreadyLaidOut,
    Table(Unfit),
    ShelfTooShort,
}

impl Refusal {
    // The number by which callers know the refusal. Not by discriminants, since a table's fault brings its own.
    pub fn number(self) -> u8
        ensures value { result ≡ number self }
    {
        match self {
            Refusal::NotLaidOut => 1,
            Refusal::TooManyJobs => 2,
            Refusal::NumbersUsedUp => 3,
            Refusal::NoSuchJob => 4,
            Refusal::JobWounded => 5,
            Refusal::JobWaiting => 6,
            Refusal::NoSuchGranule => 7,
            Refusal::JobNotWaiting => 8,
            Refusal::JobNotWounded => 9,
            Refusal::Table(unfit) => unfit.number(),
            Refusal::ShelfTooShort => 13,
            Refusal::AlreadyLaidOut => 14,
        }
    }
}

impl From<Unfit> for Refusal {
    ghost from_gives = { λ unfit refusal. refusal ≡ Table unfit };

    fn from(unfit: Unfit) -> Refusal {
        Self::Table(unfit)
    }
}
