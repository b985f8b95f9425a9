//! The stack of engines above the log: items go down to entries, and entries come up to what acts.
#![tactic(auto)]

pub mod level;
pub mod stack;
