//! The words of the command line, read by `clap`.
//!
//! - `command`: the command, as `clap` takes it.
//! - `shelf`: the kinds of loglet that a shelf may have, and the text that names them.
//! - `plan`: what the words ask for.
#![tactic(auto)]

pub mod command;
pub mod plan;
pub mod shelf;
