//! A run over nodes, from its parts to what it tells, and its parts again.
//!
//! - `tell`: the lines are played, with what fault lines ask beside them, the nodes close, and the rows are told.
//! - `laws`: laws of the chain that is told, and of the end of a calm run.
//! - `run`: the nodes are made of their parts, all this is done, and they are taken apart again.
#![tactic(auto)]

pub mod laws;
pub mod run;
pub mod tell;
