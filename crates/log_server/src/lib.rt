//! A log server: one replica of a loglet, kept by a journal on a disk. What it acknowledged survives every crash, and what
//! is sealed stays sealed.
//!
//! - [`LogServer`]: its calls.
//! - [`Refused`], [`OpenFault`]: why a disk wasn't opened.
//!
//! What it answers is the table of a server of a quorum cell (`quorum_cell`); what its disk holds is spelled by
//! `server_records`, and kept by `kept_value`. The definitions here stand in `specs/`: `View` (a server as its callers see
//! it, and what a crash leaves of it), `Answers` (what a call answers and does), `Kind` (how a journal keeps it).
#![tactic(auto)]

mod held;
mod server;
mod spell;

pub use kept_value::{OpenFault, Refused};
pub use server::LogServer;
