//! The walk of a read and the sweep of a key, over any version store and any commit table.
#![tactic(auto)]

pub mod reading;
pub mod sweeping;
