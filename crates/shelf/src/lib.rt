//! A version store in order of key and version over lent memory. The records stay where they are put; an index of small numbers names them in order.
#![tactic(auto)]

mod find;
pub mod memory;
pub mod shelf;
pub mod store;

pub use memory::ShelfMemory;
pub use shelf::Shelf;
