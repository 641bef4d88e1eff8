// The engine: eleven calls over a mode system and a shelf.
//
// `engine` has the calls: they know whether the engine is laid out, and hand on to `tables`, which does the work. Each ensures
// that it leaves and answers what its definition says, and that the promise holds of every history that it is part of. `run` is a whole run.
//
// Read specs/ in this order: `States` (what an engine is to its callers, what a call does, what every call ensures), `Runs`.
#![tactic(auto)]

pub mod engine;
pub mod run;

pub use engine::Engine;
