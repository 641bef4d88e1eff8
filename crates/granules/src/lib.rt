// Granules: the tree of what can be locked.
//
// A database is divided into files and records, or however deep its owner likes: granules, numbered from 0. Granule 0
// is the whole; each other granule lies in one parent. Words lie at the records, the granules that are nobody's parent.
//
// Files: `unfit` (what can be wrong with a parents table), `tree` (a table that has passed; `makes` is the check, `asks`
// the questions to it, `records` the records beneath a granule), `path` (the granules from the root down to one).
#![tactic(auto)]

pub mod path;
pub mod tree;
pub mod unfit;

pub use path::Path;
pub use tree::Tree;
pub use tree::records::Records;
pub use unfit::Unfit;
