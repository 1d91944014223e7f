//! Transactions in the row table.
ghost use Rattle.std.specs.Prelude.{◌≡◌, [], length, IfSome};
ghost use Rattle.model.specs.Maps.{look_up, remove};
ghost use Rattle.table.specs.Meaning.{spare};
ghost use Rattle.engine.specs.Transactions.{transaction_of, transaction_in, rows_of, places, put_transaction};

use crate::row::Row;
use table::Table;

/// The rows of the transactions, over lent memory.
#[derive(Drop)]
pub struct Rows<'a> {
    pub table: Table<'a, Row>,
}

impl<'a> Rows<'a> {
    /// No rows, with a place for each of the lent ones, which stay as they are.
    pub fn over(lent: &'a mut [Row]) -> Rows<'a>
        ensures empty { rows_of result ≡ [] }
        ensures rest { spare result.table ≡ lent.old }
        ensures places { places result ≡ length lent.old }
    {
        Rows {
            table: Table::over(lent),
        }
    }

    /// How many rows there is room for.
    pub fn capacity(&self) -> usize
        ensures { result ≡ places self.now }
    {
        self.table.capacity()
    }

    /// How many rows are used.
    pub fn len(&self) -> usize
        ensures { result ≡ length (rows_of self.now) }
    {
        self.table.len()
    }

    /// The row of the id.
    pub fn find(&self, id: u64) -> Option<Row>
        ensures row { look_up (rows_of self.now) id ≡ transaction_in result }
        ensures id { IfSome result (λ r. r.id ≡ id) }
    {
        self.table.look_up(id)
    }

    /// Puts the row at its id; a new one finds no place where all are used, and then nothing changes.
    pub fn put(&mut self, row: Row)
        ensures after { rows_of self.new ≡ put_transaction (places self.old) row.id (transaction_of row) (rows_of self.old) }
        ensures kept { places self.new ≡ places self.old }
    {
        let _ = self.table.insert(row);
    }

    /// Takes the row of the id out, if there is one.
    pub fn remove(&mut self, id: u64)
        ensures after { rows_of self.new ≡ remove id (rows_of self.old) }
        ensures kept { places self.new ≡ places self.old }
    {
        let _ = self.table.remove(id);
    }

    /// Makes every place spare.
    pub fn clear(&mut self)
        ensures after { rows_of self.new ≡ [] }
        ensures kept { places self.new ≡ places self.old }
    {
        self.table.clear();
    }
}
