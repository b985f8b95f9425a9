//! A quorum cell as plain lists, and its steps as a program: what every schedule of messages,
//! losses, stops and restarts leads to. The laws of `quorum_cell` hold of every cell that it makes.
//!
//! * `server`: a log server.
//! * `tally`: what an operation heard, and what it may come to.
//! * `answer`: what its client is told.
//! * `cell`: a cell, and what each of its steps does.
//! * `moved`: what a step was, to those who look on.
//! * `laws`: on what outcomes rest, and what moves are.
#![tactic(auto)]

pub mod answer;
pub mod cell;
pub mod laws;
pub mod moved;
pub mod server;
pub mod tally;
