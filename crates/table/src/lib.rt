//! A table of entries in ascending order of a 64-bit tag, over memory that its user lends.
#![tactic(auto)]

pub mod sheet;
pub mod table;
pub mod tagged;

pub use sheet::{Sheet, SheetEntry};
pub use table::Table;
pub use tagged::{Entry, Tagged};
