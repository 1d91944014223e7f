//! The walk of a read down the versions of a key.
ghost use Rattle.std.specs.Prelude.{◌≡◌, ℕ, [], IfOk, Some, ◌≢◌};
ghost use Rattle.model.specs.Maps.{look_up};
ghost use Rattle.model.specs.Records.{record_of, record_at, newest};
ghost use Rattle.model.specs.Versions.{versions_down};
ghost use Rattle.model.specs.State.{State};
ghost use Rattle.model.specs.Reading.{walk};
ghost use Rattle.walks.specs.Memory.{with_lent};
ghost use Rattle.walks.specs.Reading.{learn, learnt, if_below, judged, read_answer, numbered_below};

use commit_table::CommitTable;
use model::{CommitEntry, Record, Refusal};
use version_store::VersionStore;
use versions::ClassNumbers;
use versions::questions::older;
use versions::stamping::stamp_record;

/// The commit number of a record, if it has one. A pending record whose entry is committed is stamped; one with no entry, at or above the fence, gets an aborted
/// entry, since it could otherwise commit below the reader's start after it was read past.
fn learn_number<S: VersionStore, C: CommitTable>(
    fence: u64,
    classes: &mut ClassNumbers,
    store: &mut S,
    commits: &mut C,
    key: u64,
    met: &Record<S::Value>,
) -> Result<Option<u64>, Refusal>
    requires { record_at (S.VersionStore.records store.old) key met.now.version ≡ Some met.now }
    ensures learned { (s : State S.Value) → s.fence ≡ fence → s.opening.entries ≡ C.CommitTable.capacity commits.old
        → (with_lent classes.new S.VersionStore store.new C.CommitTable commits.new s, result)
        ≡ learn key met.now.version (with_lent classes.old S.VersionStore store.old C.CommitTable commits.old s)
        met.now.number (look_up (C.CommitTable.entries commits.old) met.now.version) }
    ensures versions { (b : ℕ) → versions_down (S.VersionStore.records store.new) key b [] ≡ versions_down (S.VersionStore.records store.old) key b [] }
    ensures others { (v : ℕ) → (v ≢ met.now.version) → record_at (S.VersionStore.records store.new) key v ≡ record_at (S.VersionStore.records store.old) key v }
    ensures numbered { record_at (S.VersionStore.records store.new) key met.now.version
        ≡ Some (record_of met.now.key met.now.version (learnt result) met.now.value) }
    ensures records { S.VersionStore.capacity store.new ≡ S.VersionStore.capacity store.old }
    ensures entries { C.CommitTable.capacity commits.new ≡ C.CommitTable.capacity commits.old }
{
    if let Some(number) = met.number {
        return Ok(Some(number));
    }
    if let Some(standing) = commits.look_up(met.version) {
        return match standing {
            CommitEntry::Aborted => Ok(None),
            CommitEntry::Committed(number) => {
                stamp_record(store, classes, key, met.version, number);
                Ok(Some(number))
            }
        };
    }
    if met.version < fence {
        return Ok(None);
    }
    commits
        .place(met.version, CommitEntry::Aborted)
        .map_err(|_| Refusal::EntriesFull { id: met.version })?;
    Ok(None)
}

/// The record with its commit number, if that is below the reader's start.
fn judge<S: VersionStore, C: CommitTable>(
    fence: u64,
    classes: &mut ClassNumbers,
    store: &mut S,
    commits: &mut C,
    id: u64,
    key: u64,
    met: &Record<S::Value>,
) -> Result<Option<Record<S::Value>>, Refusal>
    requires { record_at (S.VersionStore.records store.old) key met.now.version ≡ Some met.now }
    ensures judged { (s : State S.Value) → s.fence ≡ fence → s.opening.entries ≡ C.CommitTable.capacity commits.old
        → (with_lent classes.new S.VersionStore store.new C.CommitTable commits.new s, result)
        ≡ judged id key met.now (with_lent classes.old S.VersionStore store.old C.CommitTable commits.old s) }
    ensures versions { (b : ℕ) → versions_down (S.VersionStore.records store.new) key b [] ≡ versions_down (S.VersionStore.records store.old) key b [] }
    ensures others { (v : ℕ) → (v ≢ met.now.version) → record_at (S.VersionStore.records store.new) key v ≡ record_at (S.VersionStore.records store.old) key v }
    ensures numbered { IfOk result (λ o. o ≡ if_below id (record_at (S.VersionStore.records store.new) key met.now.version)) }
    ensures records { S.VersionStore.capacity store.new ≡ S.VersionStore.capacity store.old }
    ensures entries { C.CommitTable.capacity commits.new ≡ C.CommitTable.capacity commits.old }
{
    let learned = learn_number(fence, classes, store, commits, key, met)?;
    let Some(number) = learned else {
        return Ok(None);
    };
    if number < id {
        return Ok(Some(Record {
            number: Some(number),
            ..*met
        }));
    }
    Ok(None)
}

/// Goes down the key's versions at or below `id`, the reader's start, to the first record that is committed below it. Where it is denied, what it did above stays.
pub fn walk<S: VersionStore, C: CommitTable>(
    fence: u64,
    classes: &mut ClassNumbers,
    store: &mut S,
    commits: &mut C,
    id: u64,
    key: u64,
) -> Result<Option<Record<S::Value>>, Refusal>
    ensures walked { (s : State S.Value) → s.fence ≡ fence → s.opening.entries ≡ C.CommitTable.capacity commits.old
        → (with_lent classes.new S.VersionStore store.new C.CommitTable commits.new s, read_answer result)
        ≡ walk id key (versions_down (S.VersionStore.records store.old) key id [])
        (with_lent classes.old S.VersionStore store.old C.CommitTable commits.old s) }
    ensures found { IfOk result (λ o. o ≡ newest key id (numbered_below id (S.VersionStore.records store.new))) }
    ensures records { S.VersionStore.capacity store.new ≡ S.VersionStore.capacity store.old }
    ensures entries { C.CommitTable.capacity commits.new ≡ C.CommitTable.capacity commits.old }
{
    let mut next = store.newest(key, id);
    while let Some(met) = next {
        let judged = judge(fence, classes, store, commits, id, key, &met)?;
        if let Some(found) = judged {
            classes.raise(key, id);
            return Ok(Some(found));
        }
        next = older(store, key, met.version);
    }
    classes.raise(key, id);
    Ok(None)
}
