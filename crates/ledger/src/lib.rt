// The ledger: what jobs side by side are held to.
//
// Nothing here runs. This crate has the words in which the engine speaks with its callers, the rules by which jobs take
// locks, wait and are wounded, the promise that is made of every history of calls, and the proof that a
// model of the engine keeps it. The engine's contracts rest on these definitions.
//
// Read specs/ in this order: `Refusals` (which call is refused, and why), `Jobs` (what is held of a job), `Walks` (how
// locks are taken), `Ledgers` (what calls do to jobs), `Promises` (what is promised), `Models` (what an engine has to
// keep in order to promise it), `Theorems`, `Stories`.
#![tactic(auto)]

pub mod call;
pub mod job;
pub mod promises;
pub mod refusal;

pub use call::{Answer, Call};
pub use job::{Judgement, Note, Status};
pub use refusal::Refusal;
