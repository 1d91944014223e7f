//! What an engine holds.
use manager::Managers;
use versions::ClassNumbers;

/// The numbers of a database. Its rows, conflict tables, version store and commit table are lent to each call beside it.
#[derive(Drop)]
pub struct Engine {
    /// The step at which the database began.
    pub first: u64,
    /// Below it no transaction writes, validates or settles any more.
    pub fence: u64,
    /// Below it no transaction reads any more.
    pub floor: u64,
    pub classes: ClassNumbers,
    pub managers: Managers,
}
