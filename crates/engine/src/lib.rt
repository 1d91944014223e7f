//! The engine of a snapshot-transaction database: what it holds itself, what it means together with what it is lent, and opening it. The calls stand in crates
//! of their own.
#![tactic(auto)]

pub mod engine;
pub mod opening;
pub mod row;
pub mod rows;
pub mod tables;

pub use engine::Engine;
pub use row::Row;
pub use rows::Rows;
pub use tables::Tables;
