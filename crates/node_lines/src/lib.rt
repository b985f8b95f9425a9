//! What a line asks of its node, and what holds of a node with its sessions between two of its turns.
//!
//! - `chain`: laws of the chain, as a worker sees it go on.
//! - `desk`: `Desk`, what a node keeps of a session.
//! - `extend`: the last loglet of the log is replaced.
//! - `laws`: what a node reads off its state is what its log says.
//! - `leave`: a node plays what it knows of the log, its leave too.
//! - `lines`: a line of a session, and the end of a phase.
//! - `measure`: a node finds a tail, and reads positions off its state there.
//! - `report`: an entry of no session is appended.
//! - `steps`: one command, one settling, one tail.
//! - `trim`: the log is trimmed as far as the node's state says.
//! - `turn`: a phase ends at a node.
//! - `under_way`: laws of the way of a session's commands through its node.
//! - `workers`: laws of a node between two of its turns, while others have the log.
#![tactic(auto)]

pub mod chain;
pub mod desk;
pub mod extend;
pub mod laws;
pub mod leave;
pub mod lines;
pub mod measure;
pub mod report;
pub mod steps;
pub mod trim;
pub mod turn;
pub mod under_way;
pub mod workers;
