//! A set of records, at most one for a key and version, with a capacity.
ghost use Rattle.std.specs.Prelude.{◌≡◌, ℕ, ◌≤◌, List};
ghost use Rattle.model.specs.declared.words.Record.{Record};
ghost use Rattle.model.specs.Maps.{is_there};
ghost use Rattle.model.specs.Records.{Ascending, count, record_at, newest, mark, drop_record};
ghost use Rattle.version_store.specs.Putting.{putting, put_in};

use model::{Full, Record};

/// A store names its kind of value and its capacity; it asks of a value only that it can be copied. An implementation shows just this, and how the records lie in memory is its own.
pub trait VersionStore {
    type Value: Copy;

    /// The records, strictly ascending by key and then version: two stores that mean the same set are equal in it.
    ghost records: { Self → List (Record Self.Value) };

    ghost capacity: { Self → ℕ };

    ghost ordered: { (s : Self) → Ascending (records s) };

    ghost within: { (s : Self) → count (records s) ≤ capacity s };

    fn capacity(&self) -> usize
        ensures { result ≡ capacity self.now };

    fn count(&self) -> usize
        ensures { result ≡ count (records self.now) };

    /// The key's record of greatest version at or below the bound.
    fn newest(&self, key: u64, bound: u64) -> Option<Record<Self::Value>>
        ensures { newest key bound (records self.now) ≡ result };

    /// Adds the record, or replaces that of its key and version; full exactly for a new record at capacity, and then nothing changes.
    fn put(&mut self, item: &Record<Self::Value>) -> Result<(), Full>
        ensures after { putting result (records self.new) ≡ put_in (capacity self.old) item.now (records self.old) }
        ensures kept { capacity self.new ≡ capacity self.old };

    /// Sets the number of the record, or answers that it is absent.
    fn mark(&mut self, key: u64, version: u64, number: u64) -> bool
        ensures answer { result ≡ is_there (record_at (records self.old) key version) }
        ensures after { records self.new ≡ mark key version number (records self.old) }
        ensures kept { capacity self.new ≡ capacity self.old };

    /// Takes the record out, or answers that it is absent.
    fn drop_record(&mut self, key: u64, version: u64) -> bool
        ensures answer { result ≡ is_there (record_at (records self.old) key version) }
        ensures after { records self.new ≡ drop_record key version (records self.old) }
        ensures kept { capacity self.new ≡ capacity self.old };
}
