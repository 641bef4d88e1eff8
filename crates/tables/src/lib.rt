// What a laid-out engine keeps, and the calls on it.
//
// The way of a call: `kernel/calls` tries the rows of the table of refusals from the top (with `rows` for those that go by a job's
// state) and finds the job's slot (`seats`); `kernel/walks` takes its locks from granule to granule, where whoever is in the way of its
// claim is judged (`kernel/meets`, `claim`); `kernel/tries` does the work on the shelf, with its notes (`grid/notes`). `kernel/takes` takes a job
// back, `kernel/ends` lets jobs come and go, `head` tells who holds a granule.
//
// What is kept. At most 16 jobs have not ended, so each sits in one of 16 slots (a `Seat` is one of them, by its place):
//
//     seats   slots     which job sits in a slot, with its number and state; none where it is free
//             opened    the last number given
//     held    modes     for each slot, the mode held on each of 256 granules
//             counts    for each granule, how many slots hold each mode: agrees with the modes
//     noted             for each slot, its note on each of 256 granules
//     kernel  shelf     the words; a free slot holds nothing and notes nothing
//
// Each of these sentences is an invariant of the type. Nothing after the construction takes memory.
//
// Read specs/ in this order: `Views` (the model of the tables, in which every call is stated), `Replies` and `Turns` (which answer a result
// is), then what the parts are held to.
#![tactic(auto)]

mod claim;
mod grid;
mod head;
mod held;
pub mod kernel;
mod rows;
mod seat;
mod seats;
mod slot;

pub use kernel::Core;
