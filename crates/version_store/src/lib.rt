//! What every version store does.
#![tactic(auto)]

pub mod laws;
pub mod store;

pub use store::VersionStore;
