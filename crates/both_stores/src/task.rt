//! The task: versions of several keys are put in mixed order, looked up at many bounds, marked, replaced, dropped, and the store is filled.
use model::Record;
use std::alloc::{AllocError, Global};
use std::fmt;
use version_store::VersionStore;

/// Keys 7, 71 and 135 are of one class; 0, 8 and the last key are of others.
const PLACES: [(u64, u64); 8] = [
    (71, 20),
    (7, 30),
    (7, 10),
    (8, 5),
    (0, 0),
    (u64::MAX, u64::MAX),
    (7, 20),
    (135, 1),
];

const LOOKS: [(u64, u64); 14] = [
    (7, 9),
    (7, 10),
    (7, 15),
    (7, 20),
    (7, 25),
    (7, 30),
    (7, u64::MAX),
    (71, 19),
    (71, 20),
    (8, u64::MAX),
    (0, 0),
    (u64::MAX, u64::MAX - 1),
    (u64::MAX, u64::MAX),
    (72, u64::MAX),
];

fn pending<V: Copy>(key: u64, version: u64, value: V) -> Record<V> {
    Record {
        key,
        version,
        number: None,
        value,
    }
}

/// A store, and what its calls answered so far.
#[derive(Drop)]
struct Task<'a, S> {
    store: &'a mut S,
    log: String,
}

impl<S: VersionStore> Task<'_, S>
where
    S::Value: fmt::Debug,
{
    fn put(&mut self, key: u64, version: u64, value: S::Value) -> Result<(), AllocError> {
        let said = match self.store.put(&pending(key, version, value)) {
            Ok(()) => "done",
            Err(_) => "full",
        };
        writeln!(self.log, "put {key} {version}: {said}")
    }

    fn look(&mut self, key: u64, bound: u64) -> Result<(), AllocError> {
        match self.store.newest(key, bound) {
            None => writeln!(self.log, "newest {key} up to {bound}: none"),
            Some(
                Record {
                    version,
                    number,
                    value,
                    ..
                },
            ) => writeln!(
                self.log,
                "newest {key} up to {bound}: version {version}, number {number:?}, {value:?}"
            ),
        }
    }

    fn mark(&mut self, key: u64, version: u64, number: u64) -> Result<(), AllocError> {
        let there = self.store.mark(key, version, number);
        writeln!(self.log, "mark {key} {version} with {number}: {there}")
    }

    fn drop_record(&mut self, key: u64, version: u64) -> Result<(), AllocError> {
        let there = self.store.drop_record(key, version);
        writeln!(self.log, "drop {key} {version}: {there}")
    }

    /// Puts records of many keys until the store is full.
    fn fill(&mut self, value: S::Value) -> Result<(), AllocError> {
        let added = (0..5000u64)
            .map(|i| pending(1000 + i * 37 % 500, i, value))
            .take_while(|record| self.store.put(record).is_ok())
            .count();
        let count = self.store.count();
        let capacity = self.store.capacity();
        writeln!(self.log, "filled with {added} more: {count} of {capacity}")
    }
}

pub fn run<S: VersionStore>(
    heap: Global,
    store: &mut S,
    first: S::Value,
    second: S::Value,
) -> Result<String, AllocError>
where
    S::Value: fmt::Debug,
{
    let mut task = Task {
        store,
        log: String::new(heap),
    };
    for (key, version) in PLACES {
        task.put(key, version, first)?;
    }
    task.put(9, 1, first)?;
    task.put(7, 20, second)?;
    task.mark(7, 10, 40)?;
    task.mark(7, 11, 40)?;
    task.mark(71, 20, u64::MAX)?;
    for (key, bound) in LOOKS {
        task.look(key, bound)?;
    }
    task.drop_record(71, 20)?;
    task.drop_record(71, 20)?;
    task.look(71, u64::MAX)?;
    task.put(9, 1, second)?;
    task.look(9, 1)?;
    task.fill(second)?;
    task.look(1005, u64::MAX)?;
    Ok(task.log)
}
