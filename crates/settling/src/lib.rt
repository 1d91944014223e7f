//! Settle, which commits, and stamp, which carries the commit number to the records. Each call's contract is one equation: its answer, and the database that the engine means
//! after it with all that it is lent, are those of the reference step.
#![tactic(auto)]

ghost use Rattle.std.specs.Prelude.{◌≡◌};
ghost use Rattle.model.specs.declared.call.Call.TheVariants.{Settle, Stamp};
ghost use Rattle.model.specs.Maps.{look_up};
ghost use Rattle.model.specs.Answers.{answer_of};
ghost use Rattle.model.specs.Step.{step};
ghost use Rattle.engine.specs.Meaning.{lent, database};
ghost use Rattle.settling.specs.Committing.{committing, commit_at};

use commit_table::{CommitTable, NotPlaced};
use engine::{Engine, Row, Rows};
use manager::ConflictTables;
use model::{CommitEntry, Phase, Refusal};
use version_store::VersionStore;
use versions::stamping::stamp_record;

/// Places the commit entry; one that stands there stays, and refuses where it says aborted.
fn commit<C: CommitTable>(commits: &mut C, id: u64, number: u64) -> Result<(), Refusal>
    ensures placed { committing result (C.CommitTable.entries commits.new) ≡ commit_at (C.CommitTable.capacity commits.old) id number (C.CommitTable.entries commits.old) (look_up (C.CommitTable.entries commits.old) id) }
    ensures kept { C.CommitTable.capacity commits.new ≡ C.CommitTable.capacity commits.old }
{
    match commits.place(id, CommitEntry::Committed(number)) {
        Ok(()) => Ok(()),
        Err(NotPlaced::Full) => Err(Refusal::EntriesFull { id }),
        Err(NotPlaced::Stands(CommitEntry::Committed(_))) => Ok(()),
        Err(NotPlaced::Stands(CommitEntry::Aborted)) => Err(Refusal::EntryAborted { id }),
    }
}

/// Commits a validated transaction: from its commit entry on it is committed. It answers the commit number.
pub fn settle<S: VersionStore, C: CommitTable>(
    engine: &Engine,
    rows: &mut Rows,
    conflicts: &ConflictTables,
    store: &S,
    commits: &mut C,
    id: u64,
) -> Result<u64, Refusal>
    ensures { (database engine.now (lent rows.new conflicts.now) S.VersionStore store.now C.CommitTable commits.new, answer_of result)
        ≡ step (database engine.now (lent rows.old conflicts.now) S.VersionStore store.now C.CommitTable commits.old) (Settle id) }
{
    let Some(row) = rows.find(id) else {
        return Err(Refusal::NoRow { id });
    };
    let Phase::Validated(number) = row.phase else {
        return Err(Refusal::WrongPhase { id });
    };
    if id < engine.fence {
        return Err(Refusal::Fenced { id });
    }
    commit(commits, id, number)?;
    let settled = Row {
        phase: Phase::Settled(number),
        ..row
    };
    rows.put(settled);
    Ok(number)
}

/// Stamps the next key of a settled transaction, and answers how many keys are left. With the last one its commit entry and its row go.
pub fn stamp<S: VersionStore, C: CommitTable>(
    engine: &mut Engine,
    rows: &mut Rows,
    conflicts: &ConflictTables,
    store: &mut S,
    commits: &mut C,
    id: u64,
) -> Result<u64, Refusal>
    ensures { (database engine.new (lent rows.new conflicts.now) S.VersionStore store.new C.CommitTable commits.new, answer_of result)
        ≡ step (database engine.old (lent rows.old conflicts.now) S.VersionStore store.old C.CommitTable commits.old) (Stamp id) }
{
    let Some(row) = rows.find(id) else {
        return Err(Refusal::NoRow { id });
    };
    let Phase::Settled(number) = row.phase else {
        return Err(Refusal::WrongPhase { id });
    };
    let keys = row.keys_left();
    let left = keys.len();
    if left == 0 {
        commits.drop_entry(id);
        rows.remove(id);
        return Ok(0);
    }
    stamp_record(store, &mut engine.classes, keys[0], id, number);
    if left == 1 {
        commits.drop_entry(id);
        rows.remove(id);
        return Ok(0);
    }
    let stamped = Row {
        stamped: row.stamped + 1,
        ..row
    };
    rows.put(stamped);
    Ok((left - 1) as u64)
}
