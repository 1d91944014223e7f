//! The vocabulary of the database, and in specs/ the reference database that every call is held to.
#![tactic(auto)]

pub mod call;
pub mod classes;
pub mod keys;
pub mod laws;
pub mod refusal;
pub mod text;
pub mod words;

pub use call::{Answer, Call, Opening};
pub use classes::{CLASSES, class_of};
pub use keys::Keys;
pub use refusal::{Layer, Refusal};
pub use words::{CommitEntry, Full, Phase, PriceCard, Record, Stamped};
