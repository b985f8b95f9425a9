//! When what a run tells fits its script and the yard that it gave back: the definitions, and plain programs of the tests
//! of which they are made.
//!
//! - `answered`: lines with their rows.
//! - `told`: what a run tells.
//! - `fitting`: the tests, as programs; `replacing`: those of replacements of the loglet; `reporting`: those of what nodes report;
//!   `trimming`: those of trims.
//! - `acting`: those of what placed rows say acted, and of reads; `asking`: whether what stands in a log is what lines ask;
//!   `counting`: how often causes must have come.
//! - `yard`, `registering`, `faulting`: what is read of a yard, with the tests of its log, of its register, and of what was counted.
//! - `laws`: a law of the lines of every script, and one of what is read of loglets.
#![tactic(auto)]

pub mod acting;
pub mod answered;
pub mod asking;
pub mod counting;
pub mod faulting;
pub mod fitting;
pub mod laws;
pub mod registering;
pub mod replacing;
pub mod reporting;
pub mod told;
pub mod trimming;
pub mod yard;
