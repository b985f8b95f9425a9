//! The nodes of a run in threads: phase by phase, each node with its lines, all beside one another over a fabric under a lock.
//!
//! - `gated`: a node's access, at which it passes a gate.
//! - `outset`: what a phase's fault lines break and mend before the nodes begin.
//! - `part`: what a node does in a phase.
//! - `post`: a node at its part of the lock.
//! - `stirrer`: what has old messages come again beside the nodes.
//! - `threads`: the nodes of a phase, side by side.
//! - `phase`: one phase, from the parting of the lock's pass to its joining.
//! - `phases`: all of them.
//! - `laws`: what goes on as they work.
#![tactic(auto)]

pub mod gated;
pub mod laws;
pub mod outset;
pub mod part;
pub mod phase;
pub mod phases;
pub mod post;
pub mod stirrer;
mod threads;
