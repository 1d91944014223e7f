//! One call of any kind.
ghost use Rattle.std.specs.Prelude.{◌≡◌};
ghost use Rattle.model.specs.Step.{step};
ghost use Rattle.engine.specs.Meaning.{database};

use commit_table::CommitTable;
use ending::{abandon, bury};
use engine::{Engine, Tables};
use fast_calls::{fast_change, fast_read, fast_write};
use managing::{begin, raise, takeover};
use model::{Answer, Call};
use reading::read;
use settling::{settle, stamp};
use sweeping::sweep;
use validating::validate;
use version_store::VersionStore;
use writing::write;

/// The call on the engine and what it is lent, and its answer.
pub fn call<S: VersionStore, C: CommitTable>(
    engine: &mut Engine,
    tables: &mut Tables,
    store: &mut S,
    commits: &mut C,
    call: Call<S::Value>,
) -> Answer<S::Value>
    ensures { (database engine.new tables.new S.VersionStore store.new C.CommitTable commits.new, result)
        ≡ step (database engine.old tables.old S.VersionStore store.old C.CommitTable commits.old) call }
{
    let Tables { rows, conflicts } = tables;
    match call {
        Call::Takeover { seat } => Answer::from(takeover(
            engine, rows, conflicts, store, commits, seat,
        )),
        Call::Begin { seat } => Answer::from(begin(engine, rows, conflicts, store, commits, seat)),
        Call::Write { id, key, value } => Answer::from(write(
            engine, rows, conflicts, store, commits, id, key, value,
        )),
        Call::Read { id, key } => Answer::from(read(engine, tables, store, commits, id, key)),
        Call::Validate { id, seat } => Answer::from(validate(
            engine, tables, store, commits, id, seat,
        )),
        Call::Settle { id } => Answer::from(settle(engine, rows, conflicts, store, commits, id)),
        Call::Stamp { id } => Answer::from(stamp(engine, rows, conflicts, store, commits, id)),
        Call::Abandon { id } => Answer::from(abandon(engine, rows, conflicts, store, commits, id)),
        Call::Bury { id } => Answer::from(bury(engine, rows, conflicts, store, commits, id)),
        Call::Raise { floor } => Answer::from(raise(engine, tables, store, commits, floor)),
        Call::Sweep { key } => Answer::Number(sweep(engine, tables, store, commits, key)),
        Call::FastRead { key } => Answer::from(fast_read(engine, tables, store, commits, key)),
        Call::FastChange { seen, key, value } => Answer::from(fast_change(
            engine, tables, store, commits, seen, key, value,
        )),
        Call::FastWrite { key, value } => Answer::from(fast_write(
            engine, tables, store, commits, key, value,
        )),
    }
}
