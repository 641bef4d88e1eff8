// What an operation does to the words of records, as far as locks care.
ghost use Rattle.std.specs.Prelude.{◌≡◌};
ghost use Rattle.modes.specs.Kinds.{commutes};

#[derive(Clone, Copy, PartialEq, Eq, Debug)]
pub enum Kind {
    Read,
    Set,
    Add,
}

impl Kind {
    // Whether two operations of these kinds on one record may change places unnoticed.
    pub fn commutes(self, other: Kind) -> bool
        ensures { result ≡ commutes self other }
    {
        self == other && self != Kind::Set
    }
}
