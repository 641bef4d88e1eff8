// Gray's modes with three more for jobs that only add: such jobs stand together, so that additions to one record
// go on side by side. The tables are written out for speed; that they are what the rights of each mode say is proved.
ghost use Rattle.std.specs.Prelude.{◌≡◌, map, refl};
ghost use Rattle.modes.specs.Rights.{system, counting};
ghost use Rattle.std.specs.List.{range_with_len as numbered};
ghost use Rattle.modes.specs.Laws;

use crate::kind::Kind;
use crate::system::ModeSystem;

// No lock; intent to read, to add, to do anything below; reads all beneath; adds to all beneath; either with
// intent to do anything there; does anything with all beneath.
pub const NL: u8 = 0;

pub const IS: u8 = 1;

pub const IN: u8 = 2;

pub const IX: u8 = 3;

pub const S: u8 = 4;

pub const N: u8 = 5;

pub const SIX: u8 = 6;

pub const NIX: u8 = 7;

pub const X: u8 = 8;

// The modes of a job that holds `a` and, in turn, each of the system's modes.
#[rattlefmt::skip]
fn joins(a: u8) -> [u8; 9]
    ensures value { result ≡ map (λ b. (system counting).join a b) (numbered 0 9) }
{
    match a {
        //       NL   IS   IN   IX   S    N    SIX  NIX  X
        NL  => [NL,  IS,  IN,  IX,  S,   N,   SIX, NIX, X],
        IS  => [IS,  IS,  IX,  IX,  S,   NIX, SIX, NIX, X],
        IN  => [IN,  IX,  IN,  IX,  SIX, N,   SIX, NIX, X],
        IX  => [IX,  IX,  IX,  IX,  SIX, NIX, SIX, NIX, X],
        S   => [S,   S,   SIX, SIX, S,   X,   SIX, X,   X],
        N   => [N,   NIX, N,   NIX, X,   N,   X,   NIX, X],
        SIX => [SIX, SIX, SIX, SIX, SIX, X,   SIX, X,   X],
        NIX => [NIX, NIX, NIX, NIX, X,   NIX, X,   NIX, X],
        _   => [X,   X,   X,   X,   X,   X,   X,   X,   X], // X, and beyond
    }
}

// Whether two jobs may hold the row's and the column's mode at once.
#[rattlefmt::skip]
const STANDS: [[bool; 9]; 9] = [
    // NL   IS     IN     IX     S      N      SIX    NIX    X
    [true,  true,  true,  true,  true,  true,  true,  true,  true ], // NL
    [true,  true,  true,  true,  true,  false, true,  false, false], // IS
    [true,  true,  true,  true,  false, true,  false, true,  false], // IN
    [true,  true,  true,  true,  false, false, false, false, false], // IX
    [true,  true,  false, false, true,  false, false, false, false], // S
    [true,  false, true,  false, false, true,  false, false, false], // N
    [true,  true,  false, false, false, false, false, false, false], // SIX
    [true,  false, true,  false, false, false, false, false, false], // NIX
    [true,  false, false, false, false, false, false, false, false], // X
];

#[derive(Clone, Copy)]
pub struct Counting;

impl ModeSystem for Counting {
    const COUNT: u8 = 9;

    ghost meaning = { system counting };

    ghost lawful = { Laws.lawful counting refl };

    fn modes(&self) -> u8 {
        Self::COUNT
    }

    // Both systems look their tables up alike, here and in `stands`: one function over a table of any size wants a proof file for
    // each table, and an error in an entry would then show there and not at the entry.
    fn join(&self, a: u8, b: u8) -> u8 {
        joins(a)[b.min(X) as usize]
    }

    fn stands(&self, a: u8, b: u8) -> bool {
        STANDS[a.min(X) as usize][b.min(X) as usize]
    }

    fn full(&self, kind: Kind) -> u8 {
        match kind {
            Kind::Read => S,
            Kind::Set => X,
            Kind::Add => N,
        }
    }

    fn intent(&self, kind: Kind) -> u8 {
        match kind {
            Kind::Read => IS,
            Kind::Set => IX,
            Kind::Add => IN,
        }
    }
}
