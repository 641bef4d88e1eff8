// Lines and entries of a text.
//
// The programs read texts of lines that end with byte 10, each with entries that are separated by one space. This crate
// cuts them, without copying, and reads numbers, so that whoever reads such a text can say at which line and entry it fails.
#![tactic(auto)]

pub mod cut;
pub mod line;
pub mod number;

pub use line::{Line, Lines};

#[cfg(test)]
mod tests;
