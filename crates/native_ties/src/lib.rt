//! The open operations of a native loglet as parts of its quorum cell.
//!
//! - `laws`: what they are stays, and each message that moves is a list of steps of the cell.
//! - `strays`: so is each message that comes again.
#![tactic(auto)]

pub mod laws;
pub mod strays;
