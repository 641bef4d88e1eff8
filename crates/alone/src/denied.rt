// Why a text is not run.
ghost use Rattle.std.specs.Prelude.{◌≡◌};
ghost use Rattle.alone.specs.declared.denied.Denied.TheVariants.{Table, Memory};

use granules::Unfit;
use std::alloc::{AllocError, AllocFailed};
use std::error::Error;
use std::fmt;
use std::fmt::Write;

#[derive(Clone, Copy, PartialEq, Eq, Debug)]
pub enum Denied {
    // the entry at this line and place, both from 1, is empty, missing, surplus, ill formed or out of range
    Entry(u32, u32),
    // what is wrong with the parents table
    Table(Unfit),
    Memory,
}

// The three conversions are written out: clauses name the error that a `?` makes, and a derive would state none.
impl From<Unfit> for Denied {
    ghost from_gives = { λ unfit d. d ≡ Table unfit };

    fn from(unfit: Unfit) -> Denied {
        Denied::Table(unfit)
    }
}

impl From<AllocError> for Denied {
    ghost from_gives = { λ _ d. d ≡ Memory };

    fn from(_: AllocError) -> Denied {
        Denied::Memory
    }
}

impl<T: Drop> From<AllocFailed<T>> for Denied {
    ghost from_gives = { λ _ d. d ≡ Memory };

    fn from(_: AllocFailed<T>) -> Denied {
        Denied::Memory
    }
}

impl fmt::Display for Denied {
    fn fmt<W: Write>(&self, f: &mut fmt::Formatter<W>) -> fmt::Result {
        match self {
            Denied::Entry(line, entry) => write!(f, "bad line {line} entry {entry}"),
            Denied::Table(unfit) => write!(f, "refused {}", unfit.number()),
            Denied::Memory => write!(f, "memory allocation failed"),
        }
    }
}

impl Error for Denied {}
