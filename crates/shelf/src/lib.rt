// Shelves: where the words of records lie.
//
// A shelf is a row of places, each with a word of 32 bits. Its size is fixed when it is made. The engine above
// is written over the trait `Shelf`, whose meaning is the list of its words, so it runs on any of these:
// `WordShelf` keeps words, `PackedShelf` four bytes a word, both a `CellShelf` of the cells that hold them, and
// `JoinedShelf` puts two shelves, of any sort, end to end.
#![tactic(auto)]

pub mod cells;
pub mod interface;
pub mod joined;
pub mod laying;
#[cfg(test)]
mod tests;

pub use cells::{Cell, CellShelf, PackedShelf, WordShelf};
pub use interface::Shelf;
pub use joined::JoinedShelf;
pub use laying::lay;
