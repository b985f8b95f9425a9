//! What the register of the chain gave last, as a run closes.
//!
//! - `last`: the chain is read a last time.
//! - `laws`: what a journal tells of its register.
//!
//! The definitions stand in `specs/`: `Gifts` (what a register gave last, as a journal tells it), `Last` (what is told of it).
#![tactic(auto)]

pub mod last;
pub mod laws;
