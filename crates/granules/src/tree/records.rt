// The records beneath a granule, one after the other.
ghost use Rattle.std.specs.Prelude.{◌≡◌, ◌-◌};
ghost use Rattle.std.specs.List.{filter, range_with_len};
ghost use Rattle.std.specs.Iterator.{YieldsFirst, item_count};
ghost use Rattle.granules.specs.Paths.{record_beneath, records};
ghost use Rattle.granules.specs.Trees.{table, ahead};

use super::Tree;
use std::ops::Range;

// The numbers of the records beneath a granule that are still to come, in ascending order.
#[derive(Drop)]
pub struct Records<'a> {
    tree: &'a Tree,
    above: usize,
    rest: Range<usize>,
}

// The records beneath a granule that are numbered from `first` to before `end`.
fn among(tree: &Tree, above: usize, first: usize, end: usize) -> Records<'_>
    ensures { ahead result ≡ filter (record_beneath (table tree.now) above) (range_with_len first (end - first)) }
{
    Records {
        tree,
        above,
        rest: first..end,
    }
}

impl Tree {
    // The records beneath a granule. It looks at no granule outside its span.
    pub fn records(&self, granule: usize) -> Records<'_>
        ensures value { ahead result ≡ records (table self.now) granule }
    {
        let (first, end) = self.span(granule);
        among(self, granule, first, end)
    }
}

impl<'a> Iterator for Records<'a> {
    type Item = usize;

    ghost next_gives = { YieldsFirst ahead };

    ghost remaining = { item_count ahead };

    fn next(&mut self) -> Option<usize> {
        let tree = self.tree;
        let above = self.above;
        self.rest.find(|r| tree.is_record_beneath(above, *r))
    }
}
