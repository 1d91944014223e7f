//! The sheet: a commit table with 1 to 2,000 places, as a table of commit entries over lent memory.
use crate::table::Table;
use crate::tagged::Entry;
use commit_table::{CommitTable, NotPlaced};
use model::{CommitEntry, Refusal};

const MOST_PLACES: usize = 2000;

/// A commit entry under the id of its transaction.
pub type SheetEntry = Entry<CommitEntry>;

/// A table of commit entries as a commit table.
#[derive(Drop)]
pub struct Sheet<'a> {
    pub table: Table<'a, SheetEntry>,
}

impl<'a> Sheet<'a> {
    ghost use Rattle.std.specs.Prelude.{◌≡◌, [], length, IfOk};
    ghost use Rattle.table.specs.Meaning.{entries, spare, capacity};
    ghost use Rattle.table.specs.Sheets.{outcome, memory_answer};

    /// An empty sheet over memory for 1 to 2,000 entries, which it leaves as it is; any other is refused.
    pub fn over(cells: &'a mut [SheetEntry]) -> Result<Sheet<'a>, Refusal>
        ensures answer { outcome result ≡ memory_answer (length cells.old) }
        ensures empty { IfOk result (λ s. entries s.table ≡ []) }
        ensures rest { IfOk result (λ s. spare s.table ≡ cells.old) }
        ensures places { IfOk result (λ s. capacity s.table ≡ length cells.old) }
    {
        if !(1..=MOST_PLACES).contains(&cells.len()) {
            return Err(Refusal::OutsideLimits);
        }
        let table = Table::over(cells);
        Ok(Sheet { table })
    }
}

impl CommitTable for Sheet<'_> {
    ghost use Rattle.std.specs.Prelude.{◌≡◌, ◌++◌, if◌then◌else◌};
    ghost use Rattle.model.specs.Maps.{is_there, look_up, remove};
    ghost use Rattle.commit_table.specs.Placing.{placing, place_in};
    ghost use Rattle.table.specs.Meaning.{held, entries, spare, capacity, last};
    ghost use Rattle.table.specs.Sheets.{place_spare};
    ghost use Rattle.table.specs.Tables.{entries_rising, entries_within};

    ghost entries = { λ s. entries s.table };

    ghost capacity = { λ s. capacity s.table };

    ghost ordered = { λ s. entries_rising s.table };

    ghost within = { λ s. entries_within s.table };

    fn capacity(&self) -> usize {
        self.table.capacity()
    }

    fn count(&self) -> usize {
        self.table.len()
    }

    fn look_up(&self, id: u64) -> Option<CommitEntry> {
        self.table.look_up(id)
    }

    /// The spare places are one fewer where the entry was placed, else the same.
    fn place(&mut self, id: u64, entry: CommitEntry) -> Result<(), NotPlaced>
        ensures placed { placing result (entries self.new.table) ≡ place_in (capacity self.old.table) id entry (entries self.old.table) }
        ensures kept { capacity self.new.table ≡ capacity self.old.table }
        ensures rest { spare self.new.table ≡ place_spare result (spare self.old.table) }
    {
        if let Some(standing) = self.table.look_up(id) {
            return Err(NotPlaced::Stands(standing));
        }
        self.table.insert(Entry {
            tag: id,
            value: entry,
        })?;
        Ok(())
    }

    /// The last entry's old place, now spare, keeps its contents.
    fn drop_entry(&mut self, id: u64) -> bool
        ensures answer { result ≡ is_there (look_up (entries self.old.table) id) }
        ensures dropped { entries self.new.table ≡ remove id (entries self.old.table) }
        ensures kept { capacity self.new.table ≡ capacity self.old.table }
        ensures rest { spare self.new.table
            ≡ (if result then last (held self.old.table) ++ spare self.old.table else spare self.old.table) }
    {
        self.table.remove(id)
    }
}
