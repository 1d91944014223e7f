//! The two managers, each at its seat: the steps that they take, and what they remember of commits.
#![tactic(auto)]

pub mod conflicts;
pub mod managers;
mod memory;
pub mod steps;
pub mod validation;

pub use conflicts::{Conflict, ConflictTables};
pub use managers::{Manager, Managers, Steps};
