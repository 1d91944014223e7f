//! Takeover, begin and raise: what moves managers, starts transactions and lifts floor and fence. Each call's contract is one equation: its answer, and the database that the
//! engine means after it with all that it is lent, are those of the reference step.
#![tactic(auto)]

ghost use Rattle.std.specs.Prelude.{◌≡◌};
ghost use Rattle.model.specs.declared.call.Call.TheVariants.{Takeover, Begin, Raise};
ghost use Rattle.model.specs.Answers.{answer_of};
ghost use Rattle.model.specs.Step.{step};
ghost use Rattle.engine.specs.Meaning.{lent, database};

use commit_table::CommitTable;
use engine::{Engine, Row, Rows, Tables};
use manager::ConflictTables;
use manager::steps::STEP;
use model::Refusal;
use version_store::VersionStore;

/// The manager at the seat takes over: it begins a new span with an empty conflict table, and fences off everything before. It answers the number of its first step.
pub fn takeover<S: VersionStore, C: CommitTable>(
    engine: &mut Engine,
    rows: &Rows,
    conflicts: &mut ConflictTables,
    store: &S,
    commits: &C,
    seat: u64,
) -> Result<u64, Refusal>
    ensures { (database engine.new (lent rows.now conflicts.new) S.VersionStore store.now C.CommitTable commits.now, answer_of result)
        ≡ step (database engine.old (lent rows.now conflicts.old) S.VersionStore store.now C.CommitTable commits.now) (Takeover seat) }
{
    let low = engine.managers.takeover(seat)?;
    engine.fence = engine.fence.max(low);
    conflicts.clear(seat);
    Ok(low)
}

/// Begins a transaction at the next step of the seat, and answers its id.
pub fn begin<S: VersionStore, C: CommitTable>(
    engine: &mut Engine,
    rows: &mut Rows,
    conflicts: &ConflictTables,
    store: &S,
    commits: &C,
    seat: u64,
) -> Result<u64, Refusal>
    ensures { (database engine.new (lent rows.new conflicts.now) S.VersionStore store.now C.CommitTable commits.now, answer_of result)
        ≡ step (database engine.old (lent rows.old conflicts.now) S.VersionStore store.now C.CommitTable commits.now) (Begin seat) }
{
    if seat > 1 {
        return Err(Refusal::OutsideLimits);
    }
    if engine.managers.is_vacant(seat) {
        return Err(Refusal::SeatVacant { seat });
    }
    let used = rows.len();
    if used >= rows.capacity() {
        return Err(Refusal::RowsFull { rows: used as u64 });
    }
    let id = engine.managers.take_step(seat)?;
    rows.put(Row::open(id));
    Ok(id)
}

/// Raises floor and fence to at least the wanted floor, and answers the floor.
pub fn raise<S: VersionStore, C: CommitTable>(
    engine: &mut Engine,
    tables: &Tables,
    store: &S,
    commits: &C,
    floor: u64,
) -> Result<u64, Refusal>
    ensures { (database engine.new tables.now S.VersionStore store.now C.CommitTable commits.now, answer_of result)
        ≡ step (database engine.old tables.now S.VersionStore store.now C.CommitTable commits.now) (Raise floor) }
{
    if engine.managers.clock_in_charge() * STEP < floor {
        return Err(Refusal::AboveClock { floor });
    }
    engine.floor = engine.floor.max(floor);
    engine.fence = engine.fence.max(floor);
    Ok(engine.floor)
}
