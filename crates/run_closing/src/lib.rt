//! A run closes: each node plays the log to its tail, the register is opened again, the answers of all sessions are taken, and the rows are told.
//!
//! - `answers`: the answers that a node's state tells.
//! - `close`: all of it.
//! - `finish`: all nodes, in order.
//! - `found`: what a read found, copied.
//! - `last`: what a node does last.
//! - `open`: the register is opened again.
//! - `rows`: one row for each line.
//! - `take`: the answers of all sessions, at the node that has played most.
//! - `turns`: .. in a turn.
#![tactic(auto)]

pub mod answers;
pub mod close;
pub mod finish;
pub mod found;
pub mod last;
pub mod open;
pub mod rows;
pub mod take;
pub mod turns;
