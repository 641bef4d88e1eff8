// What is wrong with a parents table that is no tree.
ghost use Rattle.std.specs.Prelude.{◌≡◌};
ghost use Rattle.granules.specs.Tables.{number};

// Each refusal by the number that callers know it by.
#[derive(Clone, Copy, PartialEq, Eq, Debug)]
pub enum Unfit {
    // The table has another length than the first words, or there are 0 or more than 256.
    Lengths = 10,
    // The parent of granule 0 is not 0, or another parent is not smaller than its child.
    Parent = 11,
    // A path has more than 8 granules.
    Path = 12,
}

impl Unfit {
    // The number by which callers know the refusal. It is no `From` for `u8`: there a call would not say which number.
    pub fn number(self) -> u8
        ensures value { result ≡ number self }
    {
        self as u8
    }
}
