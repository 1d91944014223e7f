//! Read: a transaction's own write, else what its snapshot holds. The contract is one equation: the answer, and the database that the engine means after it with all that it is lent,
//! are those of the reference step.
#![tactic(auto)]

ghost use Rattle.std.specs.Prelude.{◌≡◌};
ghost use Rattle.model.specs.declared.call.Call.TheVariants.{Read};
ghost use Rattle.model.specs.Answers.{value_answer};
ghost use Rattle.model.specs.Step.{step};
ghost use Rattle.engine.specs.Meaning.{database};
ghost use Rattle.walks.specs.Reading.{read_answer};

use commit_table::CommitTable;
use engine::{Engine, Tables};
use model::{Phase, Record, Refusal};
use version_store::VersionStore;
use versions::questions::record_at;
use walks::reading::walk;

/// The value of the record that a walk found.
fn value_found<V: Copy>(found: Result<Option<Record<V>>, Refusal>) -> Result<Option<V>, Refusal>
    ensures { value_answer result ≡ read_answer found }
{
    let Some(record) = found? else {
        return Ok(None);
    };
    Ok(Some(record.value))
}

/// Reads the key as it stood at the transaction's start, its own write first. A pending record on the way is stamped if it is committed, and aborted if it could still commit below the start.
pub fn read<S: VersionStore, C: CommitTable>(
    engine: &mut Engine,
    tables: &Tables,
    store: &mut S,
    commits: &mut C,
    id: u64,
    key: u64,
) -> Result<Option<S::Value>, Refusal>
    ensures { (database engine.new tables.now S.VersionStore store.new C.CommitTable commits.new, value_answer result)
        ≡ step (database engine.old tables.now S.VersionStore store.old C.CommitTable commits.old) (Read id key) }
{
    let Some(row) = tables.rows.find(id) else {
        return Err(Refusal::NoRow { id });
    };
    let Phase::Open = row.phase else {
        return Err(Refusal::WrongPhase { id });
    };
    if id < engine.floor {
        return Err(Refusal::BelowFloor {
            floor: engine.floor,
        });
    }
    if let Some(own) = record_at(store, key, id) {
        engine.classes.raise(key, id);
        return Ok(Some(own.value));
    }
    let found = walk(engine.fence, &mut engine.classes, store, commits, id, key);
    value_found(found)
}
