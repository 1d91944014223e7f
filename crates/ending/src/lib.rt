//! Abandon, by a client that gives up its transaction, and bury, by a housekeeper, of a transaction that the fence has passed. Each call's contract is one equation: its answer, and the
//! database that the engine means after it with all that it is lent, are those of the reference step.
#![tactic(auto)]

ghost use Rattle.std.specs.Prelude.{◌≡◌};
ghost use Rattle.model.specs.declared.call.Call.TheVariants.{Abandon, Bury};
ghost use Rattle.model.specs.Answers.{answer_of};
ghost use Rattle.model.specs.Step.{step};
ghost use Rattle.engine.specs.Meaning.{lent, database};

use commit_table::CommitTable;
use engine::{Engine, Rows};
use manager::ConflictTables;
use model::{Phase, Refusal};
use version_store::VersionStore;
use versions::stamping::{drop_pending_all, stamp_records};

/// Drops the pending records, the commit entry and the row of a transaction that is not settled. It answers how many records went.
pub fn abandon<S: VersionStore, C: CommitTable>(
    engine: &Engine,
    rows: &mut Rows,
    conflicts: &ConflictTables,
    store: &mut S,
    commits: &mut C,
    id: u64,
) -> Result<u64, Refusal>
    ensures { (database engine.now (lent rows.new conflicts.now) S.VersionStore store.new C.CommitTable commits.new, answer_of result)
        ≡ step (database engine.now (lent rows.old conflicts.now) S.VersionStore store.old C.CommitTable commits.old) (Abandon id) }
{
    let Some(row) = rows.find(id) else {
        return Err(Refusal::NoRow { id });
    };
    if let Phase::Settled(_) = row.phase {
        return Err(Refusal::WrongPhase { id });
    }
    let dropped = drop_pending_all(store, id, row.keys.as_slice());
    commits.drop_entry(id);
    rows.remove(id);
    Ok(dropped)
}

/// Ends a transaction below the fence: a settled one has its remaining keys stamped, any other is abandoned. It answers how many keys or records that touched.
pub fn bury<S: VersionStore, C: CommitTable>(
    engine: &mut Engine,
    rows: &mut Rows,
    conflicts: &ConflictTables,
    store: &mut S,
    commits: &mut C,
    id: u64,
) -> Result<u64, Refusal>
    ensures { (database engine.new (lent rows.new conflicts.now) S.VersionStore store.new C.CommitTable commits.new, answer_of result)
        ≡ step (database engine.old (lent rows.old conflicts.now) S.VersionStore store.old C.CommitTable commits.old) (Bury id) }
{
    let Some(row) = rows.find(id) else {
        return Err(Refusal::NoRow { id });
    };
    if id >= engine.fence {
        return Err(Refusal::NotFenced { id });
    }
    let Phase::Settled(number) = row.phase else {
        return abandon(engine, rows, conflicts, store, commits, id);
    };
    let keys = row.keys_left();
    stamp_records(store, &mut engine.classes, id, number, keys);
    commits.drop_entry(id);
    rows.remove(id);
    Ok(keys.len() as u64)
}
