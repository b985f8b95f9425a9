//! Runs over loglets, a register and nodes that have their disks in memory.
//!
//! - `run`: a run over such a yard, of the shelf and the nodes that the words name.
//! - `register`: a register that nothing was written to.
#![tactic(auto)]

mod register;
pub mod run;
