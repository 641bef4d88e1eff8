// The calls of the engine and what they answer.
use crate::refusal::Refusal;
use operations::{Operation, Outcome};

// A job is known by its number. Numbers are given from 1 on, so that the smaller number is the older job.
#[derive(Clone, Copy)]
pub enum Call<'a> {
    // lays the engine out: a parents table and first words, one of each for a granule; two slices, since a caller may give
    // of one more than of the other, and is then refused
    Lay(&'a [u32], &'a [u32]),
    // opens a job
    Open,
    // a job's read, mean, set or add
    Carry(u32, Operation),
    // takes up the operation for which a job waits
    Go(u32),
    // reopens a wounded job
    Again(u32),
    // ends a job whose work stays
    Commit(u32),
    // ends a job whose work is taken back
    GiveUp(u32),
    // asks who holds a granule
    Look(u32),
}

// A refusal is one of the answers, and no `Err` beside them: a history lists what was answered, and a refusal with the rest.
#[derive(Clone, Copy, PartialEq, Eq, Debug)]
pub enum Answer {
    // the number of a job that was opened
    Job(u32),
    // what an operation answers; `Done` of what asks for nothing
    Told(Outcome),
    // an older job is in the way
    Waits,
    // a granule's group mode, the join of all modes held on it, and how many jobs hold one
    Head(u8, u32),
    Refused(Refusal),
}
