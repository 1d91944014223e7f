//! Opening a database.
ghost use Rattle.std.specs.Prelude.{◌≡◌, length, OnErr};
ghost use Rattle.model.specs.Numbers.{from_1_to};
ghost use Rattle.model.specs.Records.{count};
ghost use Rattle.model.specs.State.{opened};
ghost use Rattle.engine.specs.Meaning.{opening, opened_as, places_fit};

use crate::engine::Engine;
use crate::tables::Tables;
use commit_table::CommitTable;
use manager::Managers;
use model::{Opening, Refusal};
use version_store::VersionStore;
use versions::ClassNumbers;

fn is_from_1_to(limit: usize, n: usize) -> bool
    ensures { result ≡ from_1_to limit n }
{
    (1..=limit).contains(&n)
}

/// Whether the places that a database is opened with are within their limits.
fn do_places_fit(opening: &Opening) -> bool
    ensures { result ≡ places_fit opening.now }
{
    is_from_1_to(64, opening.rows)
        && is_from_1_to(4096, opening.conflicts0)
        && is_from_1_to(4096, opening.conflicts1)
        && is_from_1_to(4096, opening.records)
        && is_from_1_to(2000, opening.entries)
}

/// Opens a database over lent memory: the rows and the conflict tables are emptied; the store and the commit table have to be empty. Where a limit is broken, or one of
/// these two is not empty, nothing changes.
pub fn open<S: VersionStore, C: CommitTable>(
    first: u64,
    span: u64,
    tables: &mut Tables,
    store: &S,
    commits: &C,
) -> Result<Engine, Refusal>
    ensures answer { opened_as result tables.new S.VersionStore store.now C.CommitTable commits.now
        ≡ opened (opening first span tables.old (S.VersionStore.capacity store.now) (C.CommitTable.capacity commits.now)) (count (S.VersionStore.records store.now)) (length (C.CommitTable.entries commits.now)) }
    ensures denied { OnErr result (tables.new ≡ tables.old) }
{
    let Some(managers) = Managers::new(first, span) else {
        return Err(Refusal::OutsideLimits);
    };
    let opening = Opening {
        first,
        span,
        rows: tables.rows.capacity(),
        conflicts0: tables.conflicts.places(0),
        conflicts1: tables.conflicts.places(1),
        records: store.capacity(),
        entries: commits.capacity(),
    };
    if !do_places_fit(&opening) {
        return Err(Refusal::OutsideLimits);
    }
    if store.count() != 0 {
        return Err(Refusal::OutsideLimits);
    }
    if commits.count() != 0 {
        return Err(Refusal::OutsideLimits);
    }
    tables.rows.clear();
    tables.conflicts.clear(0);
    tables.conflicts.clear(1);
    Ok(Engine {
        first,
        fence: 0,
        floor: 0,
        classes: ClassNumbers::new(),
        managers,
    })
}
