//! The sweep of a key: pending records first, then old stamped ones. Its private functions say by how many the records become fewer.
ghost use Rattle.std.specs.Prelude.{◌≡◌, ℕ, ◌+◌, ◌-◌, ◌<◌, ◌≤◌, [], Some};
ghost use Rattle.model.specs.declared.call.Answer.TheVariants.{Number};
ghost use Rattle.model.specs.Records.{count, record_at};
ghost use Rattle.model.specs.Versions.{versions_down, versions, number_under};
ghost use Rattle.model.specs.State.{State, with_records};
ghost use Rattle.model.specs.Sweeping.{drop_low, sweep_number, sweep_down, sweep_under, swept};
ghost use Rattle.walks.specs.Memory.{with_lent};

use commit_table::CommitTable;
use model::{CommitEntry, Record};
use version_store::VersionStore;
use versions::ClassNumbers;
use versions::questions::{greatest_below, older};
use versions::stamping::stamp_record;

/// A pending record is stamped if its entry is committed; else it is dropped if its version is below the floor.
fn sweep_pending<S: VersionStore, C: CommitTable>(
    floor: u64,
    classes: &mut ClassNumbers,
    store: &mut S,
    commits: &C,
    key: u64,
    met: &Record<S::Value>,
)
    requires { record_at (S.VersionStore.records store.old) key met.now.version ≡ Some met.now }
    ensures swept { (s : State S.Value) → s.floor ≡ floor → (n : ℕ) → (with_lent classes.new S.VersionStore store.new C.CommitTable commits.now s, n + (count (S.VersionStore.records store.old) - count (S.VersionStore.records store.new)))
        ≡ sweep_number key met.now.version (with_lent classes.old S.VersionStore store.old C.CommitTable commits.now s) n met.now.number }
    ensures lower { (b : ℕ) → b < met.now.version → versions_down (S.VersionStore.records store.new) key b [] ≡ versions_down (S.VersionStore.records store.old) key b [] }
    ensures fewer { count (S.VersionStore.records store.new) ≤ count (S.VersionStore.records store.old) }
    ensures kept { S.VersionStore.capacity store.new ≡ S.VersionStore.capacity store.old }
{
    if let Some(_) = met.number {
        return;
    }
    if let Some(standing) = commits.look_up(met.version) {
        if let CommitEntry::Committed(number) = standing {
            stamp_record(store, classes, key, met.version, number);
            return;
        }
    }
    if met.version < floor {
        let _ = store.drop_record(key, met.version);
    }
}

/// Sweeps the key's pending records, the highest version first.
fn sweep_all_pending<S: VersionStore, C: CommitTable>(
    floor: u64,
    classes: &mut ClassNumbers,
    store: &mut S,
    commits: &C,
    key: u64,
)
    ensures swept { (s : State S.Value) → s.floor ≡ floor → (with_lent classes.new S.VersionStore store.new C.CommitTable commits.now s, count (S.VersionStore.records store.old) - count (S.VersionStore.records store.new))
        ≡ sweep_down key (versions key (S.VersionStore.records store.old)) (with_lent classes.old S.VersionStore store.old C.CommitTable commits.now s) 0 }
    ensures fewer { count (S.VersionStore.records store.new) ≤ count (S.VersionStore.records store.old) }
    ensures kept { S.VersionStore.capacity store.new ≡ S.VersionStore.capacity store.old }
{
    let mut next = store.newest(key, u64::MAX);
    while let Some(met) = next {
        sweep_pending(floor, classes, store, commits, key, &met);
        next = older(store, key, met.version);
    }
}

/// A record is dropped if it is stamped with a number below the limit.
fn drop_below<S: VersionStore>(store: &mut S, key: u64, limit: u64, met: &Record<S::Value>)
    requires { record_at (S.VersionStore.records store.old) key met.now.version ≡ Some met.now }
    ensures dropped { (s : State S.Value) (n : ℕ) → (with_records (S.VersionStore.records store.new) s, n + (count (S.VersionStore.records store.old) - count (S.VersionStore.records store.new)))
        ≡ drop_low key met.now.version (with_records (S.VersionStore.records store.old) s) n (number_under limit met.now.number) }
    ensures lower { (b : ℕ) → b < met.now.version → versions_down (S.VersionStore.records store.new) key b [] ≡ versions_down (S.VersionStore.records store.old) key b [] }
    ensures fewer { count (S.VersionStore.records store.new) ≤ count (S.VersionStore.records store.old) }
    ensures kept { S.VersionStore.capacity store.new ≡ S.VersionStore.capacity store.old }
{
    if let Some(number) = met.number {
        if number < limit {
            let _ = store.drop_record(key, met.version);
        }
    }
}

/// Drops the key's records that are stamped with a number below the limit, the highest version first.
fn drop_all_below<S: VersionStore>(store: &mut S, key: u64, limit: u64)
    ensures dropped { (s : State S.Value) (n : ℕ) → (with_records (S.VersionStore.records store.new) s, n + (count (S.VersionStore.records store.old) - count (S.VersionStore.records store.new)))
        ≡ sweep_under key limit (versions key (S.VersionStore.records store.old)) (with_records (S.VersionStore.records store.old) s) n }
    ensures fewer { count (S.VersionStore.records store.new) ≤ count (S.VersionStore.records store.old) }
    ensures kept { S.VersionStore.capacity store.new ≡ S.VersionStore.capacity store.old }
{
    let mut next = store.newest(key, u64::MAX);
    while let Some(met) = next {
        drop_below(store, key, limit, &met);
        next = older(store, key, met.version);
    }
}

/// Stamps or drops the key's pending records, then drops the stamped ones numbered below the floor except the greatest of these, and answers how many it dropped.
pub fn sweep<S: VersionStore, C: CommitTable>(
    floor: u64,
    classes: &mut ClassNumbers,
    store: &mut S,
    commits: &C,
    key: u64,
) -> u64
    ensures swept { (s : State S.Value) → s.floor ≡ floor → (with_lent classes.new S.VersionStore store.new C.CommitTable commits.now s, Number result)
        ≡ swept key (sweep_down key (versions key (S.VersionStore.records store.old)) (with_lent classes.old S.VersionStore store.old C.CommitTable commits.now s) 0) }
    ensures kept { S.VersionStore.capacity store.new ≡ S.VersionStore.capacity store.old }
{
    let before = store.count();
    sweep_all_pending(floor, classes, store, commits, key);
    let kept = greatest_below(store, key, floor);
    drop_all_below(store, key, kept);
    let after = store.count();
    (before - after) as u64
}
