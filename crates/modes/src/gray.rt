// The six modes of Gray, Lorie, Putzolu and Traiger (1976): two readers stand together, nobody else does.
// The tables are written out for speed; that they are what the rights of each mode say is proved.
ghost use Rattle.std.specs.Prelude.{◌≡◌, map, refl};
ghost use Rattle.modes.specs.Rights.{system, gray};
ghost use Rattle.std.specs.List.{range_with_len as numbered};
ghost use Rattle.modes.specs.Laws;

use crate::kind::Kind;
use crate::system::ModeSystem;

// No lock; intent to read below; intent to do anything below; reads all beneath; reads all beneath with
// intent to do anything there; does anything with all beneath.
pub const NL: u8 = 0;

pub const IS: u8 = 1;

pub const IX: u8 = 2;

pub const S: u8 = 3;

pub const SIX: u8 = 4;

pub const X: u8 = 5;

// The modes of a job that holds `a` and, in turn, each of the system's modes.
#[rattlefmt::skip]
fn joins(a: u8) -> [u8; 6]
    ensures value { result ≡ map (λ b. (system gray).join a b) (numbered 0 6) }
{
    match a {
        //       NL   IS   IX   S    SIX  X
        NL  => [NL,  IS,  IX,  S,   SIX, X],
        IS  => [IS,  IS,  IX,  S,   SIX, X],
        IX  => [IX,  IX,  IX,  SIX, SIX, X],
        S   => [S,   S,   SIX, S,   SIX, X],
        SIX => [SIX, SIX, SIX, SIX, SIX, X],
        _   => [X,   X,   X,   X,   X,   X], // X, and beyond
    }
}

// Whether two jobs may hold the row's and the column's mode at once.
#[rattlefmt::skip]
const STANDS: [[bool; 6]; 6] = [
    // NL   IS     IX     S      SIX    X
    [true,  true,  true,  true,  true,  true ], // NL
    [true,  true,  true,  true,  true,  false], // IS
    [true,  true,  true,  false, false, false], // IX
    [true,  true,  false, true,  false, false], // S
    [true,  true,  false, false, false, false], // SIX
    [true,  false, false, false, false, false], // X
];

#[derive(Clone, Copy)]
pub struct Gray;

impl ModeSystem for Gray {
    const COUNT: u8 = 6;

    ghost meaning = { system gray };

    ghost lawful = { Laws.lawful gray refl };

    fn modes(&self) -> u8 {
        Self::COUNT
    }

    // Both systems look their tables up alike, here and in `stands`: one function over a table of any size wants a proof file for
    // each table, and an error in an entry would then show there and not at the entry.
    fn join(&self, a: u8, b: u8) -> u8 {
        joins(a)[b.min(X) as usize]
    }

    fn stands(&self, a: u8, b: u8) -> bool {
        STANDS[a.min(X) as usize][b.min(X) as usize]
    }

    fn full(&self, kind: Kind) -> u8 {
        match kind {
            Kind::Read => S,
            Kind::Set | Kind::Add => X,
        }
    }

    fn intent(&self, kind: Kind) -> u8 {
        match kind {
            Kind::Read => IS,
            Kind::Set | Kind::Add => IX,
        }
    }
}
