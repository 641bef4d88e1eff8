// Questions to a tree. A granule that the tree does not have counts as a child of the root, and is no record.
ghost use Rattle.std.specs.Prelude.{◌≡◌, ℕ, ◌<◌, ◌≤◌, true, [], ◌∷◌, length, MatchOption, if◌then◌else◌, nat_lt};
ghost use Rattle.granules.specs.Paths.{parent, path, beneath, is_record, record_beneath, records_beneath};
ghost use Rattle.granules.specs.Trees.{ahead, table, steps, span};

use super::records::Records;
use super::{Node, Tree};
use crate::path::Path;

// How many records are still to come.
fn counted(records: Records<'_>) -> usize
    requires { length (ahead records) ≤ 256 }
    ensures { result ≡ length (ahead records.entry) }
{
    records.count()
}

impl Tree {
    // How many granules there are.
    pub fn size(&self) -> usize
        ensures value { result ≡ length (table self.now) }
        ensures bound { result ≤ 256 }
    {
        self.granules
    }

    // Whether there is such a granule.
    pub fn has(&self, granule: usize) -> bool
        ensures value { result ≡ nat_lt granule (length (table self.now)) }
    {
        granule < self.granules
    }

    // What is kept of a granule, if there is such a one.
    fn node(&self, granule: usize) -> Option<&Node>
        ensures kept { MatchOption result (length (table self.now) ≤ granule) (λ n. (n.now.parent ≡ parent (table self.now) granule) × (n.now.leaf ≡ is_record (table self.now) granule)) }
    {
        self.nodes[..self.granules].get(granule)
    }

    pub fn parent(&self, granule: usize) -> usize
        ensures value { result ≡ parent (table self.now) granule }
    {
        self.node(granule).map_or(0, |n| usize::from(n.parent))
    }

    #[tactic(auto, using(crate::proofs::Climbs::record_outside))]
    pub fn is_record(&self, granule: usize) -> bool
        ensures value { result ≡ is_record (table self.now) granule }
    {
        self.node(granule).is_some_and(|n| n.leaf)
    }

    // Whether a granule lies beneath another. All lie beneath the root, and none beneath a larger number.
    #[tactic(auto, using(crate::proofs::Kept::climbs))]
    pub fn is_beneath(&self, above: usize, granule: usize) -> bool
        ensures value { result ≡ beneath (table self.now) above granule }
    {
        if above == 0 {
            true
        } else if granule > above {
            self.is_beneath(above, self.parent(granule))
        } else {
            granule == above
        }
    }

    // The granules from the root down to one; for a number beyond 255, which is no granule's, the root alone.
    #[tactic(auto, using(crate::proofs::Kept::paths))]
    pub fn path(&self, granule: usize) -> Path
        ensures value { steps result ≡ (if nat_lt granule 256 then path (table self.now) granule else 0 ∷ []) }
    {
        match u8::try_from(granule) {
            Ok(last) if last != 0 => self.path(self.parent(granule)).then(last),
            _ => Path::root(),
        }
    }

    // Where records beneath a granule can lie: from the first number up to the second, which is not among them. A pair, as
    // callers know it.
    #[tactic(auto, using(crate::proofs::Kept::spans))]
    pub fn span(&self, granule: usize) -> (usize, usize)
        ensures value { result ≡ span (table self.now) granule }
        ensures all { (k : ℕ) → record_beneath (table self.now) granule k ≡ true → (result.0 ≤ k) × (k < result.1) }
        ensures bound { result.1 ≤ length (table self.now) }
    {
        if self.is_record(granule) {
            (granule, granule + 1)
        } else {
            (granule, self.granules)
        }
    }

    // Whether a granule is a record that lies beneath another.
    pub fn is_record_beneath(&self, above: usize, granule: usize) -> bool
        ensures value { result ≡ record_beneath (table self.now) above granule }
    {
        self.is_record(granule) && self.is_beneath(above, granule)
    }

    // How many records lie beneath a granule: never none, so that a mean can be taken.
    pub fn records_beneath(&self, granule: usize) -> usize
        ensures value { result ≡ records_beneath (table self.now) granule }
        ensures some { granule < length (table self.now) → 0 < result }
        ensures bound { result ≤ 256 }
    {
        counted(self.records(granule))
    }
}
