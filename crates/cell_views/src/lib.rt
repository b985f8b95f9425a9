//! What clients see of a cell of log servers, in the terms of every loglet, and why it is one.
//!
//! * `laws`: each step of a cell is a step of a loglet, and a list of steps is a run.
#![tactic(auto)]

pub mod laws;
