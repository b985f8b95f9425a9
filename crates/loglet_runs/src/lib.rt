//! Makes any list of calls of any loglet.
#![tactic(auto)]

pub mod runs;
