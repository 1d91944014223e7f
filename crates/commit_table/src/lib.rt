//! What every commit table does: it tells of a transaction's id whether it committed, and at which number, or was aborted.
#![tactic(auto)]

ghost use Rattle.std.specs.Prelude.{◌≡◌, ℕ, ◌≤◌, List, length};
ghost use Rattle.model.specs.declared.words.CommitEntry.{CommitEntry};
ghost use Rattle.model.specs.Maps.{is_there, look_up, remove, Rising};
ghost use Rattle.commit_table.specs.Placing.{placing, place_in};

use model::{CommitEntry, Full};
use std::fmt;

/// Why an entry was not placed.
#[derive(Clone, Copy, PartialEq, Eq, Debug)]
pub enum NotPlaced {
    /// An entry stands there, and stays.
    Stands(CommitEntry),
    /// A new entry found no room.
    Full,
}

impl From<Full> for NotPlaced {
    ghost use Rattle.commit_table.specs.declared.NotPlaced.TheVariants.{Full};

    ghost from_gives = { λ _ e. e ≡ Full };

    fn from(_: Full) -> NotPlaced {
        NotPlaced::Full
    }
}

impl fmt::Display for NotPlaced {
    fn fmt<W: fmt::Write>(&self, f: &mut fmt::Formatter<W>) -> fmt::Result {
        match self {
            NotPlaced::Stands(entry) => write!(f, "stands {entry}"),
            NotPlaced::Full => write!(f, "full"),
        }
    }
}

/// A map from ids to commit entries, with a capacity. An implementation shows just this.
pub trait CommitTable {
    /// The entries, strictly ascending by id: two tables that mean the same map are equal in it.
    ghost entries: { Self → List (ℕ × CommitEntry) };

    ghost capacity: { Self → ℕ };

    ghost ordered: { (t : Self) → Rising (entries t) };

    ghost within: { (t : Self) → length (entries t) ≤ capacity t };

    fn capacity(&self) -> usize
        ensures { result ≡ capacity self.now };

    fn count(&self) -> usize
        ensures { result ≡ length (entries self.now) };

    /// The entry that stands at the id.
    fn look_up(&self, id: u64) -> Option<CommitEntry>
        ensures { look_up (entries self.now) id ≡ result };

    /// Places an entry where none stands; full exactly for a new entry at capacity. An error changes nothing.
    fn place(&mut self, id: u64, entry: CommitEntry) -> Result<(), NotPlaced>
        ensures placed { placing result (entries self.new) ≡ place_in (capacity self.old) id entry (entries self.old) }
        ensures kept { capacity self.new ≡ capacity self.old };

    /// Takes the entry at the id out, and says whether one stood there.
    fn drop_entry(&mut self, id: u64) -> bool
        ensures answer { result ≡ is_there (look_up (entries self.old) id) }
        ensures dropped { entries self.new ≡ remove id (entries self.old) }
        ensures kept { capacity self.new ≡ capacity self.old };
}
