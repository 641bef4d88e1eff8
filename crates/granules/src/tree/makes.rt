// The check of a parents table.
ghost use Rattle.std.specs.Prelude.{◌≡◌, ℕ, ◌+◌, ◌<◌, ◌≤◌, true, false, not, ◌&&◌, length, map, IfOk, ◌==◌, nat_lt, slice_index_or};
ghost use Rattle.std.specs.Result.{result_err};
ghost use Rattle.granules.specs.Below.{some_below};
ghost use Rattle.granules.specs.Nodes.{first_parents};
ghost use Rattle.granules.specs.Paths.{parent, path};
ghost use Rattle.granules.specs.Tables.{fault, rooted, right_for, shallow};
ghost use Rattle.granules.specs.Trees.{table};

use super::{Node, Tree};
use crate::unfit::Unfit;

// Whether a granule may have this parent.
fn is_right(granule: usize, parent: u32) -> bool
    ensures value { result ≡ right_for granule parent }
{
    if granule == 0 {
        parent == 0
    } else {
        (parent as usize) < granule
    }
}

// Whether each granule has a parent that it may have.
fn is_rooted(parents: &[u32]) -> bool
    ensures value { result ≡ rooted parents.now }
{
    parents.iter().enumerate().all(|(g, p)| is_right(g, *p))
}

// How many granules the path of one has. That a table is rooted is asked for here and below, and is no invariant: the table
// is the caller's, and looked at only while it is checked.
#[tactic(auto, using(crate::proofs::Climbs::depths))]
fn depth(parents: &[u32], granule: usize) -> usize
    requires rooted { rooted parents.now ≡ true }
    requires within { granule < length parents.now }
    ensures value { result ≡ length (path parents.now granule) }
    ensures bound { result ≤ granule + 1 }
{
    if granule == 0 {
        return 1;
    }
    depth(parents, parents[granule] as usize) + 1
}

// Whether no path has more than 8 granules.
fn is_shallow(parents: &[u32]) -> bool
    requires { rooted parents.now ≡ true }
    ensures value { result ≡ shallow parents.now }
{
    (0..parents.len()).all(|g| depth(parents, g) <= 8)
}

// What a tree keeps of a table: each granule's parent, which is never beyond 255, and whether it is nobody's parent.
fn kept(parents: &[u32]) -> [Node; 256]
    requires rooted { rooted parents.now ≡ true }
    requires few { length parents.now ≤ 256 }
    ensures parents { first_parents (length parents.now) result ≡ parents.now }
    ensures leaves { (g : ℕ) → g < 256 → slice_index_or (map (λ n. n.leaf) result) g false ≡ not (some_below (length parents.now) (λ h. nat_lt 0 h && parent parents.now h == g)) }
    ensures len { length result ≡ 256 }
{
    let mut nodes = [Node {
        parent: 0,
        leaf: true,
    }; 256];
    // By number: a `zip` with `iter_mut` would leave an invariant about cells that are lent.
    for (g, p) in parents.iter().enumerate() {
        // A parent is below its granule, so it fits.
        nodes[g].parent = *p as u8;
    }
    for p in parents.iter().skip(1) {
        nodes[*p as usize].leaf = false;
    }
    nodes
}

impl Tree {
    // The tree of a parents table that comes with so many first words, or the first thing that is wrong with it.
    pub fn new(parents: &[u32], words: usize) -> Result<Tree, Unfit>
        ensures refused { result_err result ≡ fault parents.now words }
        ensures made { IfOk result (λ t. table t ≡ parents.now) }
    {
        let granules = parents.len();
        if granules != words || granules == 0 || granules > 256 {
            return Err(Unfit::Lengths);
        }
        if !is_rooted(parents) {
            return Err(Unfit::Parent);
        }
        if !is_shallow(parents) {
            return Err(Unfit::Path);
        }
        Ok(Tree {
            granules,
            nodes: kept(parents),
        })
    }
}
