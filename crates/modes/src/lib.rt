// Lock modes.
//
// A job that wants to work on a granule holds a lock on it in some mode. A mode system says which modes
// there are, which two may be held on one granule by two jobs at once ("stand together"), and which
// single mode a job has that holds two ("join"). The engine above is written once, over the trait
// `ModeSystem`; the two systems of the product, `Gray` and `Counting`, are proved to keep its laws.
//
// Files: `kind` (what operations do to a word), `system` (the trait and its laws), `gray` and
// `counting` (a table each), `facts` (single entries of the tables, as a theorem).
#![tactic(auto)]

pub mod counting;
pub mod facts;
pub mod gray;
pub mod kind;
pub mod system;
