//! Write. The call's contract is one equation: its answer, and the database that the engine means after it with all that it is lent, are those of the reference step.
#![tactic(auto)]

ghost use Rattle.std.specs.Prelude.{◌≡◌};
ghost use Rattle.model.specs.declared.call.Call.TheVariants.{Write};
ghost use Rattle.model.specs.Answers.{answer_of};
ghost use Rattle.model.specs.Step.{step};
ghost use Rattle.engine.specs.Meaning.{lent, database};

use commit_table::CommitTable;
use engine::{Engine, Row, Rows};
use manager::ConflictTables;
use model::{Phase, Record, Refusal};
use version_store::VersionStore;
use versions::questions::summary;

/// Puts a pending record of the value at the transaction's version, or replaces the value of the one there. Answers how many keys the transaction holds.
pub fn write<S: VersionStore, C: CommitTable>(
    engine: &Engine,
    rows: &mut Rows,
    conflicts: &ConflictTables,
    store: &mut S,
    commits: &C,
    id: u64,
    key: u64,
    value: S::Value,
) -> Result<u64, Refusal>
    ensures { (database engine.now (lent rows.new conflicts.now) S.VersionStore store.new C.CommitTable commits.now, answer_of result)
        ≡ step (database engine.now (lent rows.old conflicts.now) S.VersionStore store.old C.CommitTable commits.now) (Write id key value) }
{
    let Some(found) = rows.find(id) else {
        return Err(Refusal::NoRow { id });
    };
    let Phase::Open = found.phase else {
        return Err(Refusal::WrongPhase { id });
    };
    if id < engine.fence {
        return Err(Refusal::Fenced { id });
    }
    let mut keys = found.keys;
    let Ok(()) = keys.add(key) else {
        return Err(Refusal::KeysFull { key });
    };
    if summary(store, key).is_above(id) {
        return Err(Refusal::ConflictAtEngine { key });
    }
    let item = Record {
        key,
        version: id,
        number: None,
        value,
    };
    let Ok(()) = store.put(&item) else {
        return Err(Refusal::StoreFull { key });
    };
    rows.put(Row { keys, ..found });
    Ok(keys.as_slice().len() as u64)
}
