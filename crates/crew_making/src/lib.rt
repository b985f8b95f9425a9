//! The nodes of a run are made of their parts, and taken apart again, so that nothing is lost whatever comes of the run.
//!
//! - `part`: the nodes are taken apart.
//! - `make`: the nodes are made.
//! - `early`: a user of a fabric that isn't there yet.
//! - `berth`: what is made of a node's parts before there is a fabric.
#![tactic(auto)]

pub mod berth;
pub mod early;
pub mod make;
pub mod part;
