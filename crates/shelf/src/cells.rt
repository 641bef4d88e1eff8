// A shelf of cells, each of which holds a word.
ghost use Rattle.std.specs.Prelude.{◌≡◌, ℕ, ◌≤◌, min, map, replicate, IfOk, vec_len};
ghost use Rattle.shelf.specs.Words.{Fit, word as word_in, bytes_of};
ghost use Rattle.shelf.specs.Places.{few_words, same_word};

use crate::interface::Shelf;
use std::alloc::{AllocError, Global};

// The most places that a shelf of its own has.
pub const MOST: usize = 256;

// What holds one word.
pub trait Cell: Copy {
    // The word of a cell.
    ghost held: { Self → ℕ };

    // A cell that holds a word.
    fn pack(word: u32) -> Self
        ensures value { held result ≡ word };

    // The word that a cell holds.
    fn unpack(self) -> u32
        ensures value { result ≡ held self };

    // A clone holds the same word.
    ghost clones: { (x y : Self) → Self.is_clone x y → held y ≡ held x };
}

// A word as it is.
impl Cell for u32 {
    ghost held = { λ n. n };

    ghost clones = { λ _ _ same. same };

    fn pack(word: u32) -> u32 {
        word
    }

    fn unpack(self) -> u32 {
        // It is its own word.
        self
    }
}

// Four bytes, highest first.
impl Cell for [u8; 4] {
    ghost held = { word_in };

    ghost clones = { λ x y same. same_word x y (λ i within. same.at i 0 0 within) };

    fn pack(word: u32) -> [u8; 4]
        ensures value { word_in result ≡ word }
        ensures bytes { result ≡ bytes_of word }
    {
        word.to_be_bytes()
    }

    fn unpack(self) -> u32 {
        u32::from_be_bytes(self)
    }
}

// The cells of places, in their order.
#[derive(Drop)]
pub struct CellShelf<C: Cell> {
    cells: Vec<C>,
    ghost few: { vec_len cells ≤ 256 },
    ghost fit: { Fit (map C.held cells.items) },
}

// Words as they are.
pub type WordShelf = CellShelf<u32>;

// Four bytes a word.
pub type PackedShelf = CellShelf<[u8; 4]>;

// How many of the places wanted a shelf of its own has. This and the next two are functions of their own, so that an error in
// one fails at its own promise.
fn places(wanted: usize) -> usize
    ensures { result ≡ min wanted 256 }
{
    wanted.min(MOST)
}

// A cell that holds 0.
fn zero<C: Cell>() -> C
    ensures { C.held result ≡ 0 }
{
    C::pack(0)
}

// A word put into a cell.
fn fill<C: Cell>(cell: &mut C, word: u32)
    ensures { C.held cell.new ≡ word }
{
    *cell = C::pack(word);
}

impl<C: Cell> CellShelf<C> {
    // A shelf of as many places as wanted, at most 256, which hold 0.
    pub fn new(heap: Global, wanted: usize) -> Result<CellShelf<C>, AllocError>
        ensures made { IfOk result (λ s. ⟦<CellShelf<C> as Shelf>⟧.words s ≡ replicate (min wanted 256) 0) }
    {
        let cells = vec![in heap; zero::<C>(); places(wanted)]?;
        Ok(CellShelf { cells })
    }
}

impl<C: Cell> Shelf for CellShelf<C> {
    ghost words = { λ s. map C.held s.cells.items };

    ghost few = { λ s. few_words C.held s.cells s.few };

    ghost fit = { λ s. s.fit };

    fn size(&self) -> usize {
        self.cells.len()
    }

    fn get(&self, place: usize) -> Option<u32> {
        self.cells.get(place).map(|cell| cell.unpack())
    }

    fn put(&mut self, place: usize, word: u32) -> bool {
        let Some(cell) = self.cells.get_mut(place) else {
            return false;
        };
        fill(cell, word);
        true
    }
}
