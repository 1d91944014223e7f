//! The calls of a shelf.
ghost use Rattle.std.specs.Prelude.{length};
ghost use Rattle.version_store.proofs.Ascents.{ascends};
ghost use Rattle.shelf.specs.Meaning.{shelved};

use crate::shelf::Shelf;
use model::{Full, Record};
use version_store::VersionStore;

impl<'a, V: Copy> VersionStore for Shelf<'a, V> {
    type Value = V;

    ghost records = { λ s. shelved s };

    ghost capacity = { λ s. length s.records.now };

    ghost ordered = { λ s. ascends (shelved s) s.sorted };

    ghost within = { λ s. s.within };

    fn capacity(&self) -> usize {
        self.records.len()
    }

    fn count(&self) -> usize {
        self.len
    }

    fn newest(&self, key: u64, bound: u64) -> Option<Record<V>> {
        let position = match self.find(key, bound) {
            Ok(position) => position,
            Err(above) => above.checked_sub(1)?,
        };
        let newest = self.record_at(position);
        (newest.key == key).then_some(newest)
    }

    fn put(&mut self, item: &Record<V>) -> Result<(), Full> {
        match self.find(item.key, item.version) {
            Ok(position) => {
                let place = self.place(position);
                self.records[place] = *item;
            }
            Err(position) => {
                let len = self.len;
                if len == self.records.len() {
                    return Err(Full {});
                }
                let place = self.place(len);
                self.records[place] = *item;
                self.index[position..=len].rotate_right(1);
                self.len += 1;
            }
        }
        Ok(())
    }

    fn mark(&mut self, key: u64, version: u64, number: u64) -> bool {
        let Ok(position) = self.find(key, version) else {
            return false;
        };
        let place = self.place(position);
        self.records[place].number = Some(number);
        true
    }

    fn drop_record(&mut self, key: u64, version: u64) -> bool {
        let Ok(position) = self.find(key, version) else {
            return false;
        };
        self.index[position..self.len].rotate_left(1);
        self.len -= 1;
        true
    }
}
