//! Lending memory to a database, and running calls on it.
ghost use Rattle.std.specs.Prelude.{◌≡◌, [], IfOk, length};
ghost use Rattle.model.specs.Records.{count};
ghost use Rattle.host.specs.Running.{with_places, Answered};

use crate::error::HostError;
use chains::{ChainsMemory, Node};
use commit_table::CommitTable;
use database::run;
use engine::{Row, Rows, Tables};
use manager::ConflictTables;
use model::{Answer, Call, CommitEntry, Opening, Record};
use shelf::ShelfMemory;
use std::alloc::Global;
use strip::{ENTRY, HEADER, StripMemory};
use table::{Entry, Sheet, Table};
use version_store::VersionStore;

/// The version stores.
#[derive(Clone, Copy, PartialEq, Eq, Debug)]
pub enum StoreKind {
    Shelf,
    Chains,
}

/// The commit tables.
#[derive(Clone, Copy, PartialEq, Eq, Debug)]
pub enum CommitTableKind {
    Sheet,
    Strip,
}

/// The rows and the conflict tables are lent from the heap.
fn with_tables<S: VersionStore, C: CommitTable>(
    heap: Global,
    opening: &Opening,
    store: &mut S,
    commits: &mut C,
    calls: &[Call<S::Value>],
) -> Result<Vec<Answer<S::Value>>, HostError>
    ensures { IfOk result (λ v. Answered (with_places (S.VersionStore.capacity store.old) (C.CommitTable.capacity commits.old) opening.now)
        (count (S.VersionStore.records store.old)) (length (C.CommitTable.entries commits.old)) calls.now v.items) }
{
    let mut rows = vec![in heap; Row::open(0); opening.rows]?;
    let mut conflicts0 = vec![in heap; Entry {
        tag: 0,
        value: 0u64
    }; opening.conflicts0]?;
    let mut conflicts1 = vec![in heap; Entry {
        tag: 0,
        value: 0u64
    }; opening.conflicts1]?;
    let mut answers = vec![in heap; Answer::Number(0); calls.len()]?;
    let mut tables = Tables {
        rows: Rows::over(rows.as_mut_slice()),
        conflicts: ConflictTables {
            seat0: Table::over(conflicts0.as_mut_slice()),
            seat1: Table::over(conflicts1.as_mut_slice()),
        },
    };
    let _ = run(
        opening.first,
        opening.span,
        &mut tables,
        store,
        commits,
        calls,
        answers.as_mut_slice(),
    )?;
    Ok(answers)
}

/// And the commit table.
fn with_commits<S: VersionStore>(
    heap: Global,
    commits: CommitTableKind,
    opening: &Opening,
    store: &mut S,
    calls: &[Call<S::Value>],
) -> Result<Vec<Answer<S::Value>>, HostError>
    ensures { IfOk result (λ v. Answered (with_places (S.VersionStore.capacity store.old) opening.now.entries opening.now)
        (count (S.VersionStore.records store.old)) 0 calls.now v.items) }
{
    match commits {
        CommitTableKind::Sheet => {
            let blank = Entry {
                tag: 0,
                value: CommitEntry::Aborted,
            };
            let mut entries = vec![in heap; blank; opening.entries]?;
            let mut sheet = Sheet::over(entries.as_mut_slice())?;
            with_tables(heap, opening, store, &mut sheet, calls)
        }
        CommitTableKind::Strip => {
            let mut bytes = vec![in heap; 0u8; HEADER.saturating_add(
                opening.entries.saturating_mul(ENTRY)
            )]?;
            let mut strip = StripMemory::check(bytes.as_mut_slice())?.strip();
            with_tables(heap, opening, store, &mut strip, calls)
        }
    }
}

/// What the calls answer on a fresh database of the opening, in order; `blank` fills the unused places of the version store.
pub fn run_on<V: Copy>(
    heap: Global,
    store: StoreKind,
    commits: CommitTableKind,
    opening: &Opening,
    blank: V,
    calls: &[Call<V>],
) -> Result<Vec<Answer<V>>, HostError>
    ensures { IfOk result (λ v. Answered opening.now 0 0 calls.now v.items) }
{
    let unused = Record {
        key: 0,
        version: 0,
        number: None,
        value: blank,
    };
    match store {
        StoreKind::Shelf => {
            let mut records = vec![in heap; unused; opening.records]?;
            let mut index = vec![in heap; 0u16; opening.records]?;
            let memory = ShelfMemory::lent(records.as_mut_slice(), index.as_mut_slice())?;
            let mut shelf = memory.shelf();
            with_commits(heap, commits, opening, &mut shelf, calls)
        }
        StoreKind::Chains => {
            let mut nodes = vec![in heap; Node::blank(); opening.records]?;
            let mut chains = ChainsMemory::lent(nodes.as_mut_slice())?.chains();
            with_commits(heap, commits, opening, &mut chains, calls)
        }
    }
}

#[cfg(test)]
mod tests {
    use super::*;
    use std::test::Fail;

    const OPENING: Opening = Opening {
        first: 1,
        span: 4,
        rows: 2,
        conflicts0: 2,
        conflicts1: 2,
        records: 4,
        entries: 2,
    };

    const CALLS: [Call<i64>; 3] = [
        Call::Takeover { seat: 0 },
        Call::FastWrite { key: 7, value: 5 },
        Call::FastRead { key: 7 },
    ];

    #[test]
    fn calls_are_answered(rt: HostRuntime) -> Result<(), Fail> {
        for store in [StoreKind::Shelf, StoreKind::Chains] {
            for commits in [CommitTableKind::Sheet, CommitTableKind::Strip] {
                let answers = run_on(rt.alloc(), store, commits, &OPENING, 0, &CALLS)?;
                let wanted = [
                    Answer::Number(1048576),
                    Answer::Number(1),
                    Answer::Newest {
                        number: 1,
                        value: Some(5),
                    },
                ];
                assert!(rt; answers.as_slice() == &wanted[..]);
            }
        }
        Ok(())
    }

    #[test]
    fn no_rows_are_refused(rt: HostRuntime) {
        let none = Opening { rows: 0, ..OPENING };
        let shelf = StoreKind::Shelf;
        let answers = run_on(rt.alloc(), shelf, CommitTableKind::Sheet, &none, 0, &CALLS);
        assert_eq!(rt;
            answers.err(),
            Some(HostError::Refused(model::Refusal::OutsideLimits))
        );
    }
}
