//! The state machine of a node: its engines over its store, one transaction an entry.
//!
//! - [`replica::LocalReplica`]: the replica. [`layers::Layers`]: the engines, as it has them.
//!
//! The definitions stand in `specs/`: `Shown` (a store and its engines as one replica).
#![tactic(auto)]

mod applying;
pub mod layers;
mod reading;
pub mod replica;
