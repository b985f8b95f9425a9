//! The state machines of a run's nodes are made of engines and fresh disks, and taken apart again.
//!
//! - `parts`: what a node is made of.
//! - `opening`: the nodes' state machines are made.
//! - `closing`: they are taken apart.
#![tactic(auto)]

pub mod closing;
pub mod opening;
pub mod parts;
