//! Running calls on a database whose memory is taken from the heap. Only programs stand on this crate: nothing allocates below it.
#![tactic(auto)]

pub mod error;
pub mod running;

pub use error::HostError;
pub use running::{CommitTableKind, StoreKind, run_on};
