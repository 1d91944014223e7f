//! Stamping records, and dropping pending ones.
ghost use Rattle.std.specs.Prelude.{◌≡◌};
ghost use Rattle.model.specs.Records.{record_at, mark};
ghost use Rattle.model.specs.Versions.{is_pending_record, drop_pending, drop_pending_all, count_pending_all};
ghost use Rattle.model.specs.Classes.{raise_class};
ghost use Rattle.model.specs.State.{State};
ghost use Rattle.model.specs.Stamping.{stamp_records};
ghost use Rattle.versions.specs.Meaning.{numbers_of, with_versions};

use crate::classes::ClassNumbers;
use crate::questions::record_at;
use version_store::VersionStore;

/// Gives the record its commit number, if it is still there, and raises the key's class number to at least that.
pub fn stamp_record<S: VersionStore>(
    store: &mut S,
    classes: &mut ClassNumbers,
    key: u64,
    version: u64,
    number: u64,
)
    ensures marked { S.VersionStore.records store.new ≡ mark key version number (S.VersionStore.records store.old) }
    ensures raised { numbers_of classes.new ≡ raise_class key number (numbers_of classes.old) }
    ensures kept { S.VersionStore.capacity store.new ≡ S.VersionStore.capacity store.old }
{
    let _ = store.mark(key, version, number);
    classes.raise(key, number);
}

/// Stamps the records of the version at these keys, the first key first.
pub fn stamp_records<S: VersionStore>(
    store: &mut S,
    classes: &mut ClassNumbers,
    version: u64,
    number: u64,
    keys: &[u64],
)
    ensures stamped { (s : State S.Value) → with_versions (numbers_of classes.new) (S.VersionStore.records store.new) s
        ≡ stamp_records version number keys.now (with_versions (numbers_of classes.old) (S.VersionStore.records store.old) s) }
    ensures kept { S.VersionStore.capacity store.new ≡ S.VersionStore.capacity store.old }
{
    for key in keys {
        stamp_record(store, classes, *key, version, number);
    }
}

/// Drops the record if it is pending, and says whether it was.
pub fn drop_pending<S: VersionStore>(store: &mut S, key: u64, version: u64) -> bool
    ensures answer { result ≡ is_pending_record (record_at (S.VersionStore.records store.old) key version) }
    ensures after { S.VersionStore.records store.new ≡ drop_pending version key (S.VersionStore.records store.old) }
    ensures kept { S.VersionStore.capacity store.new ≡ S.VersionStore.capacity store.old }
{
    let Some(found) = record_at(store, key, version) else {
        return false;
    };
    if found.number.is_some() {
        return false;
    }
    store.drop_record(key, version)
}

/// Drops the pending records of the version at these keys, the first key first, and says how many there were.
pub fn drop_pending_all<S: VersionStore>(store: &mut S, version: u64, keys: &[u64]) -> u64
    ensures answer { result ≡ count_pending_all version keys.now (S.VersionStore.records store.old) }
    ensures after { S.VersionStore.records store.new ≡ drop_pending_all version keys.now (S.VersionStore.records store.old) }
    ensures kept { S.VersionStore.capacity store.new ≡ S.VersionStore.capacity store.old }
{
    let mut dropped = 0;
    for key in keys {
        if drop_pending(store, *key, version) {
            dropped += 1;
        }
    }
    dropped
}
