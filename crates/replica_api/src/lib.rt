//! What the state machine of a node is: a space and a cursor that one transaction keeps together, over engines.
//!
//! - [`replica::Replica`]: its calls. The definitions stand in `specs/`: `Replica` (a replica as its callers see it, what
//!   each call makes of it, and what a crash leaves), `Fresh` (one that has applied nothing).
//! - [`node::OpenNode`]: a state machine, with what chooses for its node.
#![tactic(auto)]

pub mod node;
pub mod replica;
