//! The ends of the program: where its bytes come from and where they go, each with a count of what
//! failed.
#![tactic(auto)]

pub mod memory;
pub mod sink;
pub mod source;
pub mod standard;
pub mod whole;
