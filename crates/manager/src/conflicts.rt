//! Conflict tables: of a key, the last number validated.
ghost use Rattle.std.specs.Prelude.{◌≡◌};
ghost use Rattle.model.specs.Managers.{first_conflict};
ghost use Rattle.table.specs.Meaning.{entries};

use table::{Entry, Table};

/// A key, and the last number at which it was validated.
pub type Conflict = Entry<u64>;

/// The first of the keys whose entry is above the id.
pub fn first_conflict(conflicts: &Table<Conflict>, id: u64, keys: &[u64]) -> Option<u64>
    ensures { first_conflict id (entries conflicts.now) keys.now ≡ result }
{
    keys.iter().copied().find(|key| conflicts.look_up(*key).is_some_and(|number| number > id))
}

/// The conflict tables of both seats. They are no array, since the borrow checker does not cover arrays of structs that hold a `&mut`.
#[derive(Drop)]
pub struct ConflictTables<'a> {
    pub seat0: Table<'a, Conflict>,
    pub seat1: Table<'a, Conflict>,
}

impl<'a> ConflictTables<'a> {
    ghost use Rattle.std.specs.Prelude.{[]};
    ghost use Rattle.table.specs.Meaning.{capacity};
    ghost use Rattle.manager.specs.Conflicts.{conflicts_of, entries_at, places_at, with_entries};

    /// The table of a seat, the seat 0 or else the seat 1.
    pub(crate) fn table(&self, seat: u64) -> &Table<'a, Conflict>
        ensures same { entries result.now ≡ entries_at seat (conflicts_of self.now) }
        ensures places { capacity result.now ≡ places_at seat (conflicts_of self.now) }
    {
        if seat == 0 { &self.seat0 } else { &self.seat1 }
    }

    /// How many places that table has.
    pub fn places(&self, seat: u64) -> usize
        ensures { result ≡ places_at seat (conflicts_of self.now) }
    {
        self.table(seat).capacity()
    }

    /// Makes that table empty.
    pub fn clear(&mut self, seat: u64)
        ensures { conflicts_of self.new ≡ with_entries seat [] (conflicts_of self.old) }
    {
        if seat == 0 {
            self.seat0.clear();
        } else {
            self.seat1.clear();
        }
    }
}
