// What a job is, at any time, and what it notes of its work.
ghost use Rattle.std.specs.Prelude.{◌≡◌};
ghost use Rattle.ledger.specs.Jobs.{is_open};
ghost use Rattle.ledger.specs.Models.{back, noted};

use operations::{Action, Operation};

// A job is open if it is working or waiting. A number that was never given counts as ended.
#[derive(Clone, Copy, PartialEq, Eq, Debug)]
pub enum Status {
    // it may be given an operation
    Working,
    // an older job is in the way of this operation
    Waiting(Operation),
    // an older job needed what it held: its work has been taken back
    Wounded,
    // committed or given up
    Ended,
}

// What a job notes on a record so that its work there can be taken back. To have changed nothing is a note like the others, with its own
// row in each table below.
#[derive(Clone, Copy, PartialEq, Eq, Debug)]
pub enum Note {
    // it has changed nothing there
    Nothing,
    // it has only added, this much in all
    Added(u32),
    // it has set the record, which had this word without it
    PutBack(u32),
}

// What follows from one holder for a job that asks for a mode.
#[derive(Clone, Copy, PartialEq, Eq, Debug)]
pub enum Judgement {
    // it is not in the way
    Passes,
    // it is younger, and is wounded
    GivesWay,
    // it is older, and the asker waits
    HoldsUp,
}

impl Status {
    // Whether a job has work that nobody has taken back.
    pub fn is_open(self) -> bool
        ensures value { result ≡ is_open self }
    {
        matches!(self, Status::Working | Status::Waiting(_))
    }
}

impl Note {
    // A word with the work of the note's job taken back.
    pub fn back(self, word: u32) -> u32
        ensures value { result ≡ back self word }
    {
        match self {
            Note::Nothing => word,
            Note::Added(sum) => word.wrapping_sub(sum),
            Note::PutBack(old) => old,
        }
    }

    // The note after an action of the job on a record that holds a word.
    pub fn noted(self, action: Action, word: u32) -> Note
        ensures value { result ≡ noted action word self }
    {
        match action {
            Action::Read | Action::Mean => self,
            Action::Set(_) => Note::PutBack(self.back(word)),
            Action::Add(more) => match self {
                Note::Nothing => Note::Added(more),
                Note::Added(sum) => Note::Added(sum.wrapping_add(more)),
                Note::PutBack(old) => Note::PutBack(old),
            },
        }
    }
}
