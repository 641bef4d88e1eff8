// What is known of a granule: who holds it.
ghost use Rattle.std.specs.Prelude.{◌≡◌, length, sum};

pub mod sums;

// A plain row: how many hold each mode, and the group mode, the join of all modes held.
#[derive(Clone, Copy)]
pub struct Row {
    pub counts: [u8; 16],
    pub group: u8,
    ghost full: { length counts ≡ 16 },
}

// A row with its counts added up. There is no head whose counts and sum disagree.
#[derive(Clone, Copy)]
pub struct Head {
    row: Row,
    holders: u32,
    ghost summed: { holders ≡ sum row.counts },
}
