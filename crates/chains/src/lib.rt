//! A version store of 64 chains over lent nodes: the records of a key are on the chain of its class, newest version first.
#![tactic(auto)]

pub mod chains;
pub mod memory;
pub mod node;
mod relink;
mod store;
mod walk;

pub use chains::Chains;
pub use memory::ChainsMemory;
pub use node::Node;
