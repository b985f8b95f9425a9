//! How a run over nodes goes on, as each node tells it by its own course: what a node knows over what it has seen, from line to line
//! and from phase to phase, whatever others do; and what all nodes know together.
//!
//! - `own_lines`: a node's lines, one by one, and the end of a phase.
//! - `stability`: what others do changes nothing of it; a phase passes by, and the next one begins.
//! - `joined`: the run that the nodes tell together.
#![tactic(auto)]

pub mod joined;
pub mod own_lines;
pub mod stability;
