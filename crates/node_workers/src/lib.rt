//! A node that waits for its turn, with its sessions, and what it does in a turn.
//!
//! - `worker`: `Worker`, a seat and the desks of the sessions.
//! - `back`: `Back`, what is given back of a turn.
//! - `sent`: `Sent`, what a node has sent, for the rules of its scopes alone.
//! - `step`: `NodeStep`, what a node does once, and what is then so.
//! - `within`: any step within a scope, and in a turn by the rules of a run.
//! - `steps`: the steps.
//! - `told`: an entry of no session is appended in a turn.
//! - `line`: `OwnLine`, steps one after the other, and any of them at a worker.
//! - `admin`: a node's own lines.
//! - `leaving`: a node leaves.
//! - `turns`: the lines of its sessions, and the end of a phase.
#![tactic(auto)]

pub mod admin;
pub mod back;
pub mod leaving;
pub mod line;
pub mod sent;
pub mod step;
pub mod steps;
pub mod told;
pub mod turns;
pub mod within;
pub mod worker;
