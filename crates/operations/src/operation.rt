// The operations that a job is made of, and what they answer.
ghost use Rattle.std.specs.Prelude.{◌≡◌, Some};
ghost use Rattle.operations.specs.Actions.{kind, changed};
ghost use Rattle.operations.specs.Words.{written};

use modes::kind::Kind;
use std::fmt;
use std::fmt::Write;

// What is done with each record beneath a granule.
#[derive(Clone, Copy, PartialEq, Eq, Debug)]
pub enum Action {
    // asks for the sum of the words and how many there are
    Read,
    // asks for the sum over the number, rounded, halves up
    Mean,
    // puts a word there
    Set(u32),
    // adds a word
    Add(u32),
}

#[derive(Clone, Copy, PartialEq, Eq, Debug)]
pub struct Operation {
    pub granule: u32,
    pub action: Action,
}

// What an operation answers.
#[derive(Clone, Copy, PartialEq, Eq, Debug)]
pub enum Outcome {
    // of a read: the sum of the words, and how many records there are
    Figures(u64, u32),
    // of a mean
    Average(u64),
    // of a set or an add
    Done,
}

impl Action {
    pub fn kind(self) -> Kind
        ensures value { result ≡ kind self }
    {
        match self {
            Action::Read | Action::Mean => Kind::Read,
            Action::Set(_) => Kind::Set,
            Action::Add(_) => Kind::Add,
        }
    }

    // What is left of a word. Additions wrap.
    pub fn changed(self, word: u32) -> u32
        ensures value { result ≡ changed self word }
    {
        match self {
            Action::Read | Action::Mean => word,
            Action::Set(new) => new,
            Action::Add(more) => word.wrapping_add(more),
        }
    }
}

// An answer in writing: neither its operation's number nor an end of line.
impl fmt::Display for Outcome {
    ghost output = { λ o. Some (written o) };

    fn fmt<W: Write>(&self, f: &mut fmt::Formatter<W>) -> fmt::Result {
        match self {
            Outcome::Figures(sum, count) => write!(f, "read {sum} {count}"),
            Outcome::Average(mean) => write!(f, "mean {mean}"),
            Outcome::Done => write!(f, "done"),
        }
    }
}
