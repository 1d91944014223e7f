//! The fast calls: one key, no transaction. Each call's contract is one equation: its answer, and the database that the engine means after it with all that it is lent, are those of
//! the reference step.
#![tactic(auto)]

ghost use Rattle.std.specs.Prelude.{◌≡◌};
ghost use Rattle.model.specs.declared.call.Call.TheVariants.{FastRead, FastChange, FastWrite};
ghost use Rattle.model.specs.Classes.{class_number};
ghost use Rattle.model.specs.Answers.{answer_of, newest_answer};
ghost use Rattle.model.specs.Step.{step};
ghost use Rattle.versions.specs.Meaning.{numbers_of};
ghost use Rattle.engine.specs.Meaning.{database};
ghost use Rattle.fast_calls.specs.Meaning.{next_number};

use commit_table::CommitTable;
use engine::{Engine, Tables};
use manager::steps::STEP;
use model::{Record, Refusal, Stamped};
use version_store::VersionStore;
use versions::ClassNumbers;
use versions::questions::summary;

/// The key's greatest stamped number and its value, if it has one. Nothing changes.
pub fn fast_read<S: VersionStore, C: CommitTable>(
    engine: &Engine,
    tables: &Tables,
    store: &S,
    commits: &C,
    key: u64,
) -> Option<Stamped<S::Value>>
    ensures { (database engine.now tables.now S.VersionStore store.now C.CommitTable commits.now, newest_answer result)
        ≡ step (database engine.now tables.now S.VersionStore store.now C.CommitTable commits.now) (FastRead key) }
{
    summary(store, key).greatest
}

/// The next number of the key's class, unless it is a whole step, where transactions begin.
fn next_number(classes: &ClassNumbers, key: u64) -> Option<u64>
    ensures { result ≡ next_number (class_number (numbers_of classes.now) key) }
{
    classes
        .number(key)
        .checked_add(1)
        .filter(|number| number % STEP != 0)
}

/// Puts a stamped record of the value, if nothing above the number that the caller saw is stamped at the key. Answers the record's number, the next of the key's class.
pub fn fast_change<S: VersionStore, C: CommitTable>(
    engine: &mut Engine,
    tables: &Tables,
    store: &mut S,
    commits: &C,
    seen: u64,
    key: u64,
    value: S::Value,
) -> Result<u64, Refusal>
    ensures { (database engine.new tables.now S.VersionStore store.new C.CommitTable commits.now, answer_of result)
        ≡ step (database engine.old tables.now S.VersionStore store.old C.CommitTable commits.now) (FastChange seen key value) }
{
    let found = summary(store, key);
    if found.pending {
        return Err(Refusal::KeyPending { key });
    }
    if found.is_above(seen) {
        return Err(Refusal::ConflictAtEngine { key });
    }
    let Some(number) = next_number(&engine.classes, key) else {
        return Err(Refusal::ClassSpent { key });
    };
    let item = Record {
        key,
        version: number,
        number: Some(number),
        value,
    };
    let Ok(()) = store.put(&item) else {
        return Err(Refusal::StoreFull { key });
    };
    engine.classes.raise(key, number);
    Ok(number)
}

/// A fast change whatever the greatest stamped number of the key is.
pub fn fast_write<S: VersionStore, C: CommitTable>(
    engine: &mut Engine,
    tables: &Tables,
    store: &mut S,
    commits: &C,
    key: u64,
    value: S::Value,
) -> Result<u64, Refusal>
    ensures { (database engine.new tables.now S.VersionStore store.new C.CommitTable commits.now, answer_of result)
        ≡ step (database engine.old tables.now S.VersionStore store.old C.CommitTable commits.now) (FastWrite key value) }
{
    fast_change(engine, tables, store, commits, u64::MAX, key, value)
}
