//! One event of the system at a time (OSDI 2020): a shelf of loglets, the register of their chain, and the journal of
//! what was done with them.
//!
//! - `cell`: the events of one loglet of the shelf; `server`: those of its servers.
//! - `chain`: the events of the register.
//! - `fabric`: the fabric.
//! - `own`: the turns of one thread.
//! - `laws`: the log that a chain of loglets shows.
//!
//! The definitions stand in `specs/`: `Log` (what a chain of loglets shows), `Runs` (which calls of its loglets and of its
//! register an event makes), `CellEvent` and `RegisterEvent` (one event), `Fabric` (what a fabric shows, and what holds of
//! it).
#![tactic(auto)]

pub mod cell;
pub mod chain;
pub mod fabric;
pub mod laws;
pub mod own;
pub mod server;
