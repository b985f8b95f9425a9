//! A register of a chain over a journal of two areas on a disk: what was written survives every crash.
//!
//! - [`MetaRegister`]: its calls.
//! - [`Refused`], [`OpenFault`]: why a disk wasn't opened.
//!
//! The definitions stand in `specs/`: `Records` (how a write is spelled, and which chain a list of records spells), `View`
//! (a register as its callers see it, and what a crash leaves of it).
#![tactic(auto)]

mod counts;
mod meta;
mod records;
mod standing;

pub use kept_value::{OpenFault, Refused};
pub use meta::MetaRegister;
