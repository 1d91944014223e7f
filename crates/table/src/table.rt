//! The table. Each call says its answer, the entries and the spare places after it; the capacity never changes.
ghost use Rattle.std.specs.Prelude.{◌≤◌, length, take};
ghost use Rattle.table.specs.Order.{Ascending};

use crate::tagged::Tagged;
use model::Full;

/// Entries in ascending order of their tags, each tag once: the first `len` places hold them, and the others are spare.
#[derive(Drop)]
pub struct Table<'a, E: Tagged> {
    cells: &'a mut [E],
    len: usize,
    ghost within: { len ≤ length cells.now },
    ghost sorted: { Ascending E.Tagged.tag (take len cells.now) },
}

impl<'a, E: Tagged> Table<'a, E> {
    ghost use Rattle.std.specs.Prelude.{◌≡◌, [], ◌++◌, if◌then◌else◌};
    ghost use Rattle.std.specs.List.{slice_get};
    ghost use Rattle.std.specs.List.Sorted.{IsSearchInRange, IsBinarySearchResult};
    ghost use Rattle.std.specs.Option.{option_map};
    ghost use Rattle.std.specs.Ordering.{nat_cmp};
    ghost use Rattle.model.specs.Maps.{is_there, look_up, remove};
    ghost use Rattle.table.specs.Meaning.{pair_of, held, entries, spare, capacity, last, insert_answer, insert_entries, insert_spare};

    /// An empty table over the lent memory, which it leaves as it is.
    pub fn over(cells: &'a mut [E]) -> Table<'a, E>
        ensures empty { entries result ≡ [] }
        ensures rest { spare result ≡ cells.old }
        ensures places { capacity result ≡ length cells.old }
    {
        Table { cells, len: 0 }
    }

    /// How many entries there is room for: the places of the lent memory.
    pub fn capacity(&self) -> usize
        ensures { result ≡ capacity self.now }
    {
        self.cells.len()
    }

    /// How many entries there are.
    pub fn len(&self) -> usize
        ensures { result ≡ length (entries self.now) }
    {
        self.as_slice().len()
    }

    /// The entries, in order.
    pub fn as_slice(&self) -> &[E]
        ensures { result.now ≡ held self.now }
    {
        &self.cells[..self.len]
    }

    /// The entry at place i of the order.
    pub fn get(&self, i: usize) -> Option<E>
        ensures { slice_get (entries self.now) i ≡ option_map (pair_of E.Tagged) result }
    {
        self.as_slice().get(i).copied()
    }

    /// Where the tag stands, or where it would go.
    fn locate(&self, tag: u64) -> Result<usize, usize>
        ensures bound { IsSearchInRange result (length (held self.now)) }
        ensures position { IsBinarySearchResult (λ e. nat_cmp (E.tag e) tag) (held self.now) result }
    {
        self.as_slice().binary_search_by_key(&tag, |e| e.tag())
    }

    /// The value that stands at the tag.
    pub fn look_up(&self, tag: u64) -> Option<E::Value>
        ensures { look_up (entries self.now) tag ≡ result }
    {
        let p = self.locate(tag).ok()?;
        Some(self.as_slice()[p].value())
    }

    /// Puts the entry in its place of the order, or over the one that has its tag, and hands back the value that stood there. A new
    /// tag needs room: without it nothing changes.
    pub fn insert(&mut self, e: E) -> Result<Option<E::Value>, Full>
        ensures answer { result ≡ insert_answer (capacity self.old) (E.tag e) (entries self.old) }
        ensures after { entries self.new ≡ insert_entries result (E.tag e) (E.value e) (entries self.old) }
        ensures rest { spare self.new ≡ insert_spare result (spare self.old) }
        ensures kept { capacity self.new ≡ capacity self.old }
    {
        match self.locate(e.tag()) {
            Ok(p) => {
                let stood = self.cells[p];
                self.cells[p] = e;
                Ok(Some(stood.value()))
            }
            Err(p) => {
                if self.len == self.cells.len() {
                    return Err(Full {});
                }
                // The entries are in order again once e is among them and counted.
                let cells = &mut *self.cells;
                cells.copy_within(p..self.len, p + 1);
                cells[p] = e;
                self.len += 1;
                Ok(None)
            }
        }
    }

    /// Takes the entry at the tag out, and says whether one stood there. The last entry's old place, now spare, keeps its contents.
    pub fn remove(&mut self, tag: u64) -> bool
        ensures answer { result ≡ is_there (look_up (entries self.old) tag) }
        ensures after { entries self.new ≡ remove tag (entries self.old) }
        ensures rest { spare self.new ≡ (if result then last (held self.old) ++ spare self.old else spare self.old) }
        ensures kept { capacity self.new ≡ capacity self.old }
    {
        let Ok(p) = self.locate(tag) else {
            return false;
        };
        self.cells.copy_within(p + 1..self.len, p);
        self.len -= 1;
        true
    }

    /// Makes every place spare, with its contents.
    pub fn clear(&mut self)
        ensures after { entries self.new ≡ [] }
        ensures rest { spare self.new ≡ held self.old ++ spare self.old }
        ensures kept { capacity self.new ≡ capacity self.old }
    {
        self.len = 0;
    }
}
