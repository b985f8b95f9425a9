//! Journals: records on a disk, each of them there for good before it is acknowledged.
//!
//! - [`Journal`]: the records, and what a crash leaves of them; [`Opened`]: one just opened.
//! - [`gates`]: gates and records in the bytes of a disk, wherever they lie.
//! - [`Fault`], [`AppendFault`], [`Refused`]: how its calls fail.
#![tactic(auto)]

mod fault;
pub mod gates;
mod journal;
mod layout;
mod open;

pub use fault::{AppendFault, Fault, Refused};
pub use journal::{Journal, Opened};
