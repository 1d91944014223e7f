//! The memory that a host lends to a shelf.
ghost use Rattle.std.specs.Prelude.{◌≡◌, ◌≤◌, length};

use crate::shelf::Shelf;
use model::{Record, Refusal};

/// Places for 1 to 4,096 records, and as many numbers for the index.
#[derive(Drop)]
pub struct ShelfMemory<'a, V> {
    pub(crate) records: &'a mut [Record<V>],
    pub(crate) index: &'a mut [u16],
    ghost some: { 1 ≤ length records.now },
    ghost limit: { length records.now ≤ 4096 },
    ghost as_long: { length index.now ≡ length records.now },
}

impl<'a, V: Copy> ShelfMemory<'a, V> {
    ghost use Rattle.std.specs.Prelude.{[], IfOk};
    ghost use Rattle.version_store.specs.Making.{answered};
    ghost use Rattle.shelf.specs.Meaning.{shelved, making_both};

    /// Memory for 1 to 4,096 records, with an index number for each, left as it is; any other is refused.
    pub fn lent(
        records: &'a mut [Record<V>],
        index: &'a mut [u16],
    ) -> Result<ShelfMemory<'a, V>, Refusal>
        ensures answer { answered result ≡ making_both (length records.old) (length index.old) }
        ensures holds { IfOk result (λ m. (m.records.now ≡ records.old) × (m.index.now ≡ index.old)) }
    {
        let places = records.len();
        if !(1..=4096).contains(&places) || index.len() != places {
            return Err(Refusal::OutsideLimits);
        }
        Ok(ShelfMemory { records, index })
    }

    /// A shelf with no records, over this memory. The index is numbered anew; the places of the records stay as they are.
    pub fn shelf(self) -> Shelf<'a, V>
        ensures empty { shelved result ≡ [] }
        ensures whole { length result.records.now ≡ length self.entry.records.now }
        ensures same { result.records.now ≡ self.entry.records.now }
    {
        let ShelfMemory { records, index } = self;
        for (place, number) in index.iter_mut().enumerate() {
            *number = place as u16;
        }
        Shelf {
            records,
            index,
            len: 0,
        }
    }
}
