// How many hold each mode of a granule.
ghost use Rattle.std.specs.Prelude.{◌≡◌, ℕ, ◌+◌, ◌<◌, ◌≤◌, [], if◌then◌else◌, nat_eq, length, slice_index, slice_index_or};
ghost use Rattle.tables.specs.Heads.{one, group_of};

use super::Held;
use crate::head::Row;
use modes::system::ModeSystem;

// The counts where one holder goes from a mode to another. A mode is a code, as it is to callers; that it is below 16 comes
// from a system's laws or from the counts, and few ask for it.
pub(super) fn moved(mut counts: [u8; 16], from: u8, to: u8) -> [u8; 16]
    requires from { from < 16 }
    requires to { to < 16 }
    requires held { one from from ≤ slice_index counts from }
    requires room { slice_index counts to < 255 }
    ensures value { (m : ℕ) → slice_index result m + one from m ≡ slice_index counts m + one to m }
    ensures len { length result ≡ 16 }
{
    if from != 0 {
        counts[from as usize] -= 1;
    }
    if to != 0 {
        counts[to as usize] += 1;
    }
    counts
}

// A mode if somebody is counted there, else no lock. Below 16, it fits.
fn if_held(count: u8, mode: usize) -> u8
    requires { mode < 16 }
    ensures value { result ≡ (if nat_eq count 0 then 0 else mode) }
{
    if count == 0 { 0 } else { mode as u8 }
}

impl Held {
    // The row of a granule: its counts, and the join of the modes that somebody holds.
    pub(crate) fn row<M: ModeSystem>(&self, system: &M, granule: u8) -> Row
        ensures counts { result.counts ≡ slice_index_or self.now.counts granule [] }
        ensures group { result.group ≡ group_of M.ModeSystem.meaning (slice_index_or self.now.counts granule []) }
    {
        let counts = self.counts[granule as usize];
        let mut group = 0;
        // A loop knows that each place is below 16; of a `fold`'s closure that would have to be shown apart.
        for (mode, count) in counts.iter().enumerate() {
            group = system.join(group, if_held(*count, mode));
        }
        Row { counts, group }
    }
}
