//! The commit table in lent bytes: a header of 16 bytes, then entries of 24 bytes in order of placing, then zeros.
#![tactic(auto)]

mod bytes;
pub mod calls;
pub mod laws;
pub mod making;
pub mod memory;
pub mod strip;

pub use bytes::{ENTRY, HEADER};
pub use memory::StripMemory;
pub use strip::Strip;
