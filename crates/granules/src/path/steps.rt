// How a path grows, and how it is read.
ghost use Rattle.std.specs.Prelude.{◌≡◌, ◌<◌, [], ◌∷◌, ◌++◌, length, slice_index};
ghost use Rattle.granules.specs.Trees.{steps};

use super::Path;

impl Path {
    // The path of the root.
    pub fn root() -> Path
        ensures value { steps result ≡ 0 ∷ [] }
    {
        Path {
            len: 1,
            granules: [0; 8],
        }
    }

    // This path, and then one granule more.
    pub(crate) fn then(self, granule: u8) -> Path
        requires { self.len < 8 }
        ensures value { steps result ≡ steps self ++ granule ∷ [] }
    {
        let mut granules = self.granules;
        granules[self.len] = granule;
        Path {
            len: self.len + 1,
            granules,
        }
    }

    // The granules, from the root down.
    pub fn as_slice(&self) -> &[u8]
        ensures value { result.now ≡ steps self.now }
    {
        &self.granules[..self.len]
    }

    pub fn len(&self) -> usize
        ensures value { result ≡ length (steps self.now) }
    {
        self.len
    }

    // The granule at a place, counted from the root; past the end it is the root.
    pub fn at(&self, place: usize) -> usize
        ensures value { result ≡ slice_index (steps self.now) place }
        ensures bound { result < 256 }
    {
        self.as_slice().get(place).map_or(0, |g| usize::from(*g))
    }
}
