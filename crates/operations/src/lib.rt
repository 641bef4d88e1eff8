// Operations on records, and jobs run alone.
//
// An operation reads, averages, sets or adds to all records beneath one granule. Here it is said what each answers
// and what it leaves, and what it means to run jobs alone, one after another: the measure of everything above.
//
// Files: `operation` (the vocabulary), `carry` (one operation carried out over any shelf), `alone` (a list of them),
// `facts` (cases at the edges).
#![tactic(auto)]

pub mod alone;
pub mod carry;
pub mod facts;
pub mod operation;
#[cfg(test)]
mod tests;

pub use alone::run_alone;
pub use carry::carry_out;
pub use operation::{Action, Operation, Outcome};
