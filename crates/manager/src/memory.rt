//! Entering keys in a conflict table: a full table forgets its least entry, and low rises to at least what it forgot.
ghost use Rattle.std.specs.Prelude.{◌≡◌, ◌≤◌};
ghost use Rattle.table.specs.Meaning.{entries, capacity};
ghost use Rattle.model.specs.Managers.{conflict_table, enter_conflicts};
ghost use Rattle.manager.specs.Conflicts.{lesser};

use crate::conflicts::{Conflict, ConflictTables};
use table::{Entry, Table};

/// Of two entries the one of lesser number, and the first where they are equal.
fn lesser(first: Conflict, next: Conflict) -> Conflict
    ensures { result ≡ lesser first next }
{
    if next.value < first.value {
        next
    } else {
        first
    }
}

/// A conflict table that has a place, with the low that goes with it.
#[derive(Drop)]
struct ConflictMemory<'m, 'a> {
    table: &'m mut Table<'a, Conflict>,
    low: u64,
    ghost some_place: { 1 ≤ capacity table.now },
}

impl<'m, 'a> ConflictMemory<'m, 'a> {
    ghost use Rattle.std.specs.Prelude.{option_map};
    ghost use Rattle.model.specs.Managers.{discard, enter_conflict, enter_conflicts, least_entry};
    ghost use Rattle.manager.specs.Memory.{memory, pair_of};

    /// The entry of least number, and of least key among equals.
    fn least_entry(&self) -> Option<Conflict>
        ensures { least_entry (memory self.now).conflicts ≡ option_map pair_of result }
    {
        self.table
            .as_slice()
            .iter()
            .copied()
            .reduce(|least, entry| lesser(least, entry))
    }

    /// Discards that entry.
    fn forget(&mut self)
        ensures forgot { memory self.new ≡ discard (least_entry (memory self.old).conflicts) (memory self.old) }
        ensures same { self.new.table.ghost_name ≡ self.old.table.ghost_name }
        ensures kept { capacity self.new.table.now ≡ capacity self.old.table.now }
    {
        if let Some(least) = self.least_entry() {
            self.table.remove(least.tag);
            self.low = self.low.max(least.value);
        }
    }

    /// Enters the key at the number.
    fn enter(&mut self, number: u64, key: u64)
        ensures entered { memory self.new ≡ enter_conflict (capacity self.old.table.now) number key (memory self.old) }
        ensures same { self.new.table.ghost_name ≡ self.old.table.ghost_name }
        ensures kept { capacity self.new.table.now ≡ capacity self.old.table.now }
    {
        let entry = Entry {
            tag: key,
            value: number,
        };
        if self.table.insert(entry).is_err() {
            self.forget();
            let _ = self.table.insert(entry);
        }
    }

    /// Enters the keys at the number, the first key first.
    fn enter_all(&mut self, number: u64, keys: &[u64])
        ensures entered { memory self.new ≡ enter_conflicts (capacity self.old.table.now) number keys.now (memory self.old) }
        ensures same { self.new.table.ghost_name ≡ self.old.table.ghost_name }
        ensures kept { capacity self.new.table.now ≡ capacity self.old.table.now }
    {
        for key in keys {
            self.enter(number, *key);
        }
    }
}

/// Enters the keys at the number in the table, the first key first, and answers the low that goes with it then.
fn enter_conflicts(table: &mut Table<Conflict>, low: u64, number: u64, keys: &[u64]) -> u64
    requires { 1 ≤ capacity table.old }
    ensures entered { conflict_table result (entries table.new) ≡ enter_conflicts (capacity table.old) number keys.now (conflict_table low (entries table.old)) }
    ensures kept { capacity table.new ≡ capacity table.old }
{
    let mut memory = ConflictMemory { table, low };
    memory.enter_all(number, keys);
    memory.low
}

impl<'a> ConflictTables<'a> {
    ghost use Rattle.manager.specs.Conflicts.{conflicts_of, places_at};
    ghost use Rattle.manager.specs.Memory.{entering, entering_of};

    /// Enters the keys at the number in the seat's table, the first key first, and answers the low that goes with it then.
    pub(crate) fn enter(&mut self, seat: u64, low: u64, number: u64, keys: &[u64]) -> u64
        requires { 1 ≤ places_at seat (conflicts_of self.old) }
        ensures { entering result (conflicts_of self.new) ≡ entering_of seat number keys.now low (conflicts_of self.old) }
    {
        if seat == 0 {
            enter_conflicts(&mut self.seat0, low, number, keys)
        } else {
            enter_conflicts(&mut self.seat1, low, number, keys)
        }
    }
}
