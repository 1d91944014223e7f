//! Any list of calls, from the opening on.
ghost use Rattle.std.specs.Prelude.{◌≡◌, length};
ghost use Rattle.model.specs.Records.{count};
ghost use Rattle.engine.specs.Meaning.{database, opening};
ghost use Rattle.model.specs.After.{after};
ghost use Rattle.database.specs.Running.{answers_to, Outcome};

use crate::calls::call;
use commit_table::CommitTable;
use engine::opening::open;
use engine::{Engine, Tables};
use model::{Answer, Call, Refusal};
use version_store::VersionStore;

/// Answers the calls one after the other, each into its place.
fn answer_all<S: VersionStore, C: CommitTable>(
    engine: &mut Engine,
    tables: &mut Tables,
    store: &mut S,
    commits: &mut C,
    calls: &[Call<S::Value>],
    answers: &mut [Answer<S::Value>],
)
    requires { length answers.old ≡ length calls.now }
    ensures after { database engine.new tables.new S.VersionStore store.new C.CommitTable commits.new
        ≡ after (database engine.old tables.old S.VersionStore store.old C.CommitTable commits.old) calls.now }
    ensures answers { answers.new
        ≡ answers_to (database engine.old tables.old S.VersionStore store.old C.CommitTable commits.old) calls.now }
{
    for (i, asked) in calls.iter().enumerate() {
        answers[i] = call(engine, tables, store, commits, *asked);
    }
}

/// Opens a database over lent memory and answers the calls one after the other, each into its place of `answers`, which has a place for each. Where the
/// database cannot be opened, or the places are not as many as the calls, it is refusal 1 and nothing changes.
pub fn run<S: VersionStore, C: CommitTable>(
    first: u64,
    span: u64,
    tables: &mut Tables,
    store: &mut S,
    commits: &mut C,
    calls: &[Call<S::Value>],
    answers: &mut [Answer<S::Value>],
) -> Result<Engine, Refusal>
    ensures { Outcome result
        (opening first span tables.old (S.VersionStore.capacity store.old) (C.CommitTable.capacity commits.old))
        (count (S.VersionStore.records store.old)) (length (C.CommitTable.entries commits.old))
        calls.now answers.old answers.new
        (λ e. database e tables.new S.VersionStore store.new C.CommitTable commits.new)
        ((tables.new ≡ tables.old) × (store.new ≡ store.old) × (commits.new ≡ commits.old) × (answers.new ≡ answers.old)) }
{
    if answers.len() != calls.len() {
        return Err(Refusal::OutsideLimits);
    }
    let mut engine = open(first, span, tables, store, commits)?;
    answer_all(&mut engine, tables, store, commits, calls, answers);
    Ok(engine)
}
