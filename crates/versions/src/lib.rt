//! Class numbers, and what the calls of a database ask and change at the versions of a key, over any version store.
#![tactic(auto)]

pub mod classes;
pub mod questions;
pub mod stamping;

pub use classes::ClassNumbers;
pub use questions::KeySummary;
