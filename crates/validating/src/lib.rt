//! Validate: a manager sees that nothing newer was committed at the transaction's keys, and gives it a commit number.
#![tactic(auto)]

ghost use Rattle.std.specs.Prelude.{◌≡◌};
ghost use Rattle.model.specs.declared.call.Call.TheVariants.{Validate};
ghost use Rattle.model.specs.Answers.{answer_of};
ghost use Rattle.model.specs.Step.{step};
ghost use Rattle.engine.specs.Meaning.{database};

use commit_table::CommitTable;
use engine::{Engine, Row, Tables};
use model::{Phase, Refusal};
use version_store::VersionStore;

/// Validates an open transaction at the seat, and answers its commit number. The contract is one equation: the answer, and the database that the engine means after it with all that it is
/// lent, are those of the reference step.
pub fn validate<S: VersionStore, C: CommitTable>(
    engine: &mut Engine,
    tables: &mut Tables,
    store: &S,
    commits: &C,
    id: u64,
    seat: u64,
) -> Result<u64, Refusal>
    ensures { (database engine.new tables.new S.VersionStore store.now C.CommitTable commits.now, answer_of result)
        ≡ step (database engine.old tables.old S.VersionStore store.now C.CommitTable commits.now) (Validate id seat) }
{
    if tables.conflicts.places(seat) == 0 {
        return Err(Refusal::OutsideLimits);
    }
    if seat > 1 {
        return Err(Refusal::OutsideLimits);
    }
    let Some(row) = tables.rows.find(id) else {
        return Err(Refusal::NoRow { id });
    };
    let Phase::Open = row.phase else {
        return Err(Refusal::WrongPhase { id });
    };
    if id < engine.fence {
        return Err(Refusal::Fenced { id });
    }
    if engine.managers.is_vacant(seat) {
        return Err(Refusal::SeatVacant { seat });
    }
    let number = engine
        .managers
        .validate(seat, &mut tables.conflicts, id, row.keys.as_slice())?;
    let validated = Row {
        phase: Phase::Validated(number),
        ..row
    };
    tables.rows.put(validated);
    Ok(number)
}
