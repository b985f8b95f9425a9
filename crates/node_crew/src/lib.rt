//! A node of a run at work, whoever is beside it, and all nodes of a run between two phases.
//!
//! - `note`: what lines come to, noted as they are played.
//! - `line`: a line is played at its node.
//! - `stops`: a node's disk is armed by the stops of a phase.
//! - `turn`: a node's lines of a phase, and the phase's end there.
//! - `crew`: all nodes of a run.
//! - `faults`: the fault lines of a phase.
#![tactic(auto)]

pub mod crew;
pub mod faults;
pub mod line;
pub mod note;
pub mod stops;
pub mod turn;
