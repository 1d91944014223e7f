//! A database over lent memory: one call of any kind, and any list of calls from the opening on.
#![tactic(auto)]

pub mod calls;
pub mod running;

pub use calls::call;
pub use running::run;
