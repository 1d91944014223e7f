//! Binary search by key and version.
ghost use Rattle.std.specs.Prelude.{◌≡◌, ◌+◌, ◌*◌, ◌<◌, length, MatchResult, slice_index, slice_index_or};
ghost use Rattle.std.specs.List.{slice_get};
ghost use Rattle.shelf.specs.Meaning.{shelved};
ghost use Rattle.shelf.specs.Search.{standing, standing_of, Hit, Miss};

use crate::shelf::Shelf;
use model::Record;
use std::cmp::Ordering;

/// Key and version as one number, in whose order they stand.
fn joined(key: u64, version: u64) -> u128
    ensures number { result ≡ key * 18446744073709551616 + version }
    ensures low { version < 18446744073709551616 }
{
    u128::from(key) * 18446744073709551616 + u128::from(version)
}

/// How the record stands to that key and version. A search asks at each step whether it is greater, so that is told by one test.
fn order<V: Copy>(r: &Record<V>, key: u64, version: u64) -> Ordering
    ensures { result ≡ standing key version r.now }
{
    let found = joined(r.key, r.version);
    let wanted = joined(key, version);
    if found > wanted {
        Ordering::Greater
    } else if found == wanted {
        Ordering::Equal
    } else {
        Ordering::Less
    }
}

impl<'a, V: Copy> Shelf<'a, V> {
    /// The place that the index names at i.
    pub(crate) fn place(&self, i: usize) -> usize
        requires { i < length self.now.index.now }
        ensures { result ≡ slice_index self.now.index.now i }
    {
        usize::from(self.index[i])
    }

    /// The record that stands at i in the order.
    pub(crate) fn record_at(&self, i: usize) -> Record<V>
        requires { i < self.now.len }
        ensures { result ≡ slice_index_or (shelved self.now) i result }
    {
        self.records[self.place(i)]
    }

    /// How the record at a place stands to that key and version. A search may ask it of any number, so a place past the end counts as below them.
    fn compare(&self, place: u16, key: u64, version: u64) -> Ordering
        ensures { result ≡ standing_of key version (slice_get self.now.records.now place) }
    {
        match self.records.get(usize::from(place)) {
            Some(r) => order(r, key, version),
            None => Ordering::Less,
        }
    }

    /// Where that key and version stand in the order, or else where they would go.
    pub(crate) fn find(&self, key: u64, version: u64) -> Result<usize, usize>
        ensures { MatchResult result (Hit (shelved self.now) key version) (Miss (shelved self.now) key version) }
    {
        self.index[..self.len].binary_search_by(|place| self.compare(*place, key, version))
    }
}
