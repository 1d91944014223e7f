//! One call on two commit tables: tables that are alike answer alike, and stay alike.
ghost use Rattle.std.specs.Prelude.{◌≡◌, ◌+◌, length};
ghost use Rattle.model.specs.Maps.{is_there, look_up, remove};
ghost use Rattle.commit_table.specs.Placing.{placing, place_in};
ghost use Rattle.outcomes.specs.Alike.{Alike};

use commit_table::{CommitTable, NotPlaced};
use model::CommitEntry;

/// Two commit tables that are alike.
#[derive(Drop)]
pub struct Both<A: CommitTable, B: CommitTable> {
    pub a: A,
    pub b: B,
    ghost alike: { Alike (A.CommitTable.entries a) (A.CommitTable.capacity a) (B.CommitTable.entries b) (B.CommitTable.capacity b) },
}

impl<A: CommitTable, B: CommitTable> Both<A, B> {
    pub fn over(a: A, b: B) -> Both<A, B>
        requires { Alike (A.CommitTable.entries a) (A.CommitTable.capacity a) (B.CommitTable.entries b) (B.CommitTable.capacity b) }
    {
        Both { a, b }
    }

    pub fn place(
        &mut self,
        id: u64,
        entry: CommitEntry,
    ) -> (Result<(), NotPlaced>, Result<(), NotPlaced>)
        ensures placed { placing result.0 (A.CommitTable.entries self.new.a) ≡ place_in (A.CommitTable.capacity self.old.a) id entry (A.CommitTable.entries self.old.a) }
        ensures same { result.0 ≡ result.1 }
    {
        let p = self.a.place(id, entry);
        let q = self.b.place(id, entry);
        (p, q)
    }

    pub fn drop_entry(&mut self, id: u64) -> (bool, bool)
        ensures answer { result.0 ≡ is_there (look_up (A.CommitTable.entries self.old.a) id) }
        ensures dropped { A.CommitTable.entries self.new.a ≡ remove id (A.CommitTable.entries self.old.a) }
        ensures same { result.0 ≡ result.1 }
    {
        let p = self.a.drop_entry(id);
        let q = self.b.drop_entry(id);
        (p, q)
    }

    pub fn look_up(&self, id: u64) -> (Option<CommitEntry>, Option<CommitEntry>)
        ensures answer { look_up (A.CommitTable.entries self.now.a) id ≡ result.0 }
        ensures same { result.0 ≡ result.1 }
    {
        (self.a.look_up(id), self.b.look_up(id))
    }

    /// How many entries each has.
    pub fn count(&self) -> (usize, usize)
        ensures count { result.0 ≡ length (A.CommitTable.entries self.now.a) }
        ensures same { result.0 ≡ result.1 }
    {
        (self.a.count(), self.b.count())
    }

    /// How many more entries each takes.
    pub fn free_places(&self) -> (usize, usize)
        ensures free { result.0 + length (A.CommitTable.entries self.now.a) ≡ A.CommitTable.capacity self.now.a }
        ensures same { result.0 ≡ result.1 }
    {
        (free_places(&self.a), free_places(&self.b))
    }
}

/// How many more entries a table takes; by the trait's law the difference does not wrap.
pub fn free_places<T: CommitTable>(t: &T) -> usize
    ensures { result + length (T.CommitTable.entries t.now) ≡ T.CommitTable.capacity t.now }
{
    t.capacity() - t.count()
}
