// The granules from the root down to one, at most 8.
ghost use Rattle.std.specs.Prelude.{◌≡◌, ◌≤◌, length};

pub mod steps;

// The array has a count beside it, since a path is copied freely and takes no memory from a heap.
#[derive(Clone, Copy)]
pub struct Path {
    len: usize,
    granules: [u8; 8],
    ghost few: { len ≤ 8 },
    ghost full: { length granules ≡ 8 },
}
